// One step for each kind of line.
ghost use Rattle.std.specs.Prelude.{◌≡◌, ◌+◌};
ghost use Rattle.records.specs.declared.statements.Statement.TheVariants.{Read, Assign, MapRead, Use, If, While};
ghost use Rattle.rules.specs.Reading.{value_item};
ghost use Rattle.objects.specs.declared.frame.Frame.TheVariants.{Lines, After};
ghost use Rattle.objects.specs.Ahead.{object_of};
ghost use Rattle.objects.specs.Moves.{LineFits, LineMoved};

use crate::frame::Frame;
use crate::inside::{About, Inside};
use crate::moves::Move;
use crate::scene::Scene;
use crate::upcoming::BlockLine;
use crate::values_of::write;
use bits::source::Source;
use records::statements::{ReadLine, UseLine};
use rules::faults::ReadingFault;
use rules::items::{Item, Kind};
use rules::steps::Got;
use values::operators::is_zero;

impl BlockLine {
    // The lines after it.
    pub(crate) fn lines_after(self) -> Frame
        ensures { result ≡ Lines (self.line + 1) self.after }
    {
        Frame::Lines {
            at: self.line as u32 + 1,
            count: self.after,
        }
    }

    // The same, where it has read one value.
    pub(crate) fn lines_after_value(self) -> Frame
        ensures { result ≡ After (self.line + 1) self.after }
    {
        Frame::After {
            at: u32::from(self.line) + 1,
            count: self.after,
        }
    }
}

// The item of a value that was read.
pub(crate) fn value_item(about: About, line: u16, index: u16, got: Got) -> Item
    ensures { result ≡ value_item (object_of about) line index got }
{
    Item {
        kind: Kind::Value,
        line,
        class: about.class,
        index,
        value: got.value,
        place: got.place,
        length: got.length,
    }
}

impl Inside {
    // Gives a name the value of a node.
    pub(crate) fn assign<S: Source>(
        &mut self,
        scene: &Scene<S>,
        at: BlockLine,
        name: u16,
        node: u16,
    ) -> Result<Move, ReadingFault>
        requires { LineFits scene.now (Assign name node) at self.old }
        ensures { LineMoved scene.now (Assign name node) at self.old result self.new }
    {
        let value = scene.tried(at.line, self.value(scene, node))?;
        write(&mut self.names, name, value);
        self.frames.push(at.lines_after());
        Ok(Move::Quiet { place: scene.place })
    }

    // Reads the value of a read without a count, and hands it out: its elements would be begun, gone through and ended in
    // three steps.
    fn read_one<S: Source>(
        &mut self,
        scene: &Scene<S>,
        at: BlockLine,
        fields: ReadLine,
    ) -> Result<Move, ReadingFault>
        requires fits { LineFits scene.now (Read fields) at self.old }
        requires one { fields.count ≡ 0 }
        ensures { LineMoved scene.now (Read fields) at self.old result self.new }
    {
        let got = scene.tried(at.line, self.element(scene, fields))?;
        write(&mut self.names, fields.name, got.value);
        self.frames.push(at.lines_after_value());
        Ok(Move::Give {
            item: value_item(scene.about, at.line, 0, got),
            place: got.after,
        })
    }

    // Reads one value, or begins the elements of a read.
    pub(crate) fn read<S: Source>(
        &mut self,
        scene: &Scene<S>,
        at: BlockLine,
        fields: ReadLine,
    ) -> Result<Move, ReadingFault>
        requires { LineFits scene.now (Read fields) at self.old }
        ensures { LineMoved scene.now (Read fields) at self.old result self.new }
    {
        if fields.count == 0 {
            return self.read_one(scene, at, fields);
        }
        let total = scene.tried(at.line, self.count(scene, fields.count))?;
        let elements = Frame::Elements {
            line: at.line,
            fields,
            index: 0,
            total,
        };
        self.frames.push_both(at.lines_after(), elements);
        Ok(Move::Quiet { place: scene.place })
    }

    // Reads an index, and hands out the output of its row.
    pub(crate) fn map_read<S: Source>(
        &mut self,
        scene: &Scene<S>,
        at: BlockLine,
        map: u16,
        name: u16,
    ) -> Result<Move, ReadingFault>
        requires { LineFits scene.now (MapRead map name) at self.old }
        ensures { LineMoved scene.now (MapRead map name) at self.old result self.new }
    {
        let got = scene.tried(at.line, scene.mapped(map))?;
        write(&mut self.names, name, got.value);
        self.frames.push(at.lines_after());
        Ok(Move::Give {
            item: value_item(scene.about, at.line, 0, got),
            place: got.after,
        })
    }

    // Begins the objects of a use, with or without a count.
    pub(crate) fn use_line<S: Source>(
        &mut self,
        scene: &Scene<S>,
        at: BlockLine,
        fields: UseLine,
    ) -> Result<Move, ReadingFault>
        requires { LineFits scene.now (Use fields) at self.old }
        ensures { LineMoved scene.now (Use fields) at self.old result self.new }
    {
        let objects = if fields.count > 0 {
            Frame::Counted {
                line: at.line,
                fields,
                index: 0,
                total: scene.tried(at.line, self.count(scene, fields.count))?,
            }
        } else {
            Frame::Uncounted {
                line: at.line,
                fields,
                index: 0,
            }
        };
        self.frames.push_both(at.lines_after(), objects);
        Ok(Move::Quiet { place: scene.place })
    }

    // Chooses one of the blocks of an if.
    pub(crate) fn branch<S: Source>(
        &mut self,
        scene: &Scene<S>,
        at: BlockLine,
        node: u16,
        first: u16,
        second: u16,
    ) -> Result<Move, ReadingFault>
        requires { LineFits scene.now (If node first second) at self.old }
        ensures { LineMoved scene.now (If node first second) at self.old result self.new }
    {
        let value = scene.tried(at.line, self.value(scene, node))?;
        let m = first.min(at.after);
        let n = second.min(at.after - m);
        let start = at.line as u32 + 1;
        let middle = start + m as u32;
        let rest = Frame::Lines {
            at: middle + n as u32,
            count: at.after - m - n,
        };
        let block = if is_zero(value) {
            Frame::Lines {
                at: middle,
                count: n,
            }
        } else {
            Frame::Lines {
                at: start,
                count: m,
            }
        };
        self.frames.push_both(rest, block);
        Ok(Move::Quiet { place: scene.place })
    }

    // Begins the rounds of a while, with the first test.
    pub(crate) fn begin_rounds<S: Source>(
        &mut self,
        scene: &Scene<S>,
        at: BlockLine,
        node: u16,
        lines: u16,
        rounds: u16,
    ) -> Result<Move, ReadingFault>
        requires { LineFits scene.now (While node lines rounds) at self.old }
        ensures { LineMoved scene.now (While node lines rounds) at self.old result self.new }
    {
        let m = lines.min(at.after);
        self.frames.push(Frame::Lines {
            at: at.line as u32 + 1 + m as u32,
            count: at.after - m,
        });
        self.round(scene, at.line, node, m, rounds)
    }
}
