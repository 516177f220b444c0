// One step for each kind of frame but lines.
ghost use Rattle.std.specs.Prelude.{◌≡◌, ◌≤◌, IfOk, nat_le};
ghost use Rattle.rules.specs.Steps.{element, next_multiple};
ghost use Rattle.steps.specs.Took.{Took};
ghost use Rattle.objects.specs.declared.frame.Frame.TheVariants.{Rounds, Elements, Counted, Uncounted};
ghost use Rattle.objects.specs.Scenes.{source_bits, node_value};
ghost use Rattle.objects.specs.Moves.{FrameFits, FrameMoved};

use crate::frame::Frame;
use crate::inside::Inside;
use crate::lines::value_item;
use crate::moves::Move;
use crate::scene::Scene;
use crate::upcoming::BlockLine;
use crate::values_of::write;
use bits::source::Source;
use records::statements::{ReadLine, UseLine};
use rules::faults::{Failure, ReadingCause, ReadingFault};
use rules::steps::{Got, Window};
use steps::bits_taken::next_multiple;
use values::operators::is_zero;

// Whether the next byte boundary is at or past the window's end.
fn at_end(window: Window, p: u32) -> bool
    requires { p ≤ 2147483647 }
    ensures { result ≡ nat_le window.end (next_multiple 8 p) }
{
    window.end <= next_multiple(8, p)
}

impl Inside {
    // Tests whether another round of a while follows, and begins it.
    pub(crate) fn round<S: Source>(
        &mut self,
        scene: &Scene<S>,
        line: u16,
        node: u16,
        count: u16,
        left: u16,
    ) -> Result<Move, ReadingFault>
        requires { FrameFits scene.now (Rounds line node count left) self.old }
        ensures { FrameMoved scene.now (Rounds line node count left) self.old result self.new }
    {
        let value = scene.tried(line, self.value(scene, node))?;
        if is_zero(value) {
            return Ok(Move::Quiet { place: scene.place });
        }
        if left == 0 {
            return Err(Failure::from(ReadingCause::TooManyRounds).at(line, scene.place));
        }
        let others = Frame::Rounds {
            line,
            node,
            count,
            left: left - 1,
        };
        let at = BlockLine { line, after: count };
        self.frames.push_both(others, at.lines_after());
        Ok(Move::Quiet { place: scene.place })
    }

    // One element of a read.
    #[inline(always)]
    pub(crate) fn element<S: Source>(
        &self,
        scene: &Scene<S>,
        fields: ReadLine,
    ) -> Result<Got, Failure>
        ensures value { result ≡ element (source_bits scene.now) scene.now.about.window fields (node_value scene.now self.now fields.width) (node_value scene.now self.now fields.lowest) (node_value scene.now self.now fields.highest) scene.now.place }
        ensures bound { IfOk result (λ g. Took scene.now.place scene.now.about.window.end g.place g.length g.after) }
    {
        scene
            .view()
            .element(&self.scope(scene), fields, scene.place)
    }

    // Reads the next element of a read and hands it out, or ends the read.
    pub(crate) fn next_element<S: Source>(
        &mut self,
        scene: &Scene<S>,
        line: u16,
        fields: ReadLine,
        index: u16,
        total: u16,
    ) -> Result<Move, ReadingFault>
        requires { FrameFits scene.now (Elements line fields index total) self.old }
        ensures { FrameMoved scene.now (Elements line fields index total) self.old result self.new }
    {
        if index >= total {
            return Ok(Move::Quiet { place: scene.place });
        }
        let got = scene.tried(line, self.element(scene, fields))?;
        write(&mut self.names, fields.name, got.value);
        self.frames.push(Frame::Elements {
            line,
            fields,
            index: index + 1,
            total,
        });
        Ok(Move::Give {
            item: value_item(scene.about, line, index, got),
            place: got.after,
        })
    }

    // Begins the next object of a counted use, or ends the use.
    pub(crate) fn next_counted<S: Source>(
        &mut self,
        scene: &Scene<S>,
        line: u16,
        fields: UseLine,
        index: u16,
        total: u16,
    ) -> Result<Move, ReadingFault>
        requires { FrameFits scene.now (Counted line fields index total) self.old }
        ensures { FrameMoved scene.now (Counted line fields index total) self.old result self.new }
    {
        if index >= total {
            return Ok(Move::Quiet { place: scene.place });
        }
        self.frames.push(Frame::Counted {
            line,
            fields,
            index: index + 1,
            total,
        });
        Ok(Move::Begin {
            line,
            fields,
            index,
        })
    }

    // Begins the next object of a use without a count, or ends the use.
    pub(crate) fn next_to_end<S: Source>(
        &mut self,
        scene: &Scene<S>,
        line: u16,
        fields: UseLine,
        index: u16,
    ) -> Result<Move, ReadingFault>
        requires { FrameFits scene.now (Uncounted line fields index) self.old }
        ensures { FrameMoved scene.now (Uncounted line fields index) self.old result self.new }
    {
        if index < fields.most && !at_end(scene.about.window, scene.place) {
            self.frames.push(Frame::Uncounted {
                line,
                fields,
                index: index + 1,
            });
            return Ok(Move::Begin {
                line,
                fields,
                index,
            });
        }
        if index < fields.least {
            return Err(Failure::from(ReadingCause::TooFew).at(line, scene.place));
        }
        Ok(Move::Quiet { place: scene.place })
    }
}
