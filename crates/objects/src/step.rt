// One step of an open object.
ghost use Rattle.std.specs.Prelude.{◌≡◌, true, [], Ok};
ghost use Rattle.objects.specs.declared.frame.Frame.TheVariants.{Lines};
ghost use Rattle.objects.specs.declared.moves.Move.TheVariants.{Quiet};
ghost use Rattle.objects.specs.Frames.{frames};
ghost use Rattle.objects.specs.Moves.{FrameFits, FrameMoved, InsideFits, InsideMoved};

use crate::frame::Frame;
use crate::inside::Inside;
use crate::moves::Move;
use crate::scene::Scene;
use crate::upcoming::next_line;
use bits::source::Source;
use records::records::Extension;
use records::stretches::Stretch;
use rules::faults::ReadingFault;
use table::record::record_at;

// Whether nothing was handed out, and the place is the same.
#[inline(always)]
fn stays(moved: Result<Move, ReadingFault>, place: u32) -> bool
    ensures { result ≡ true → moved ≡ Ok (Quiet place) }
{
    match moved {
        Ok(Move::Quiet { place: now }) => now == place,
        Ok(Move::Give { .. } | Move::Begin { .. } | Move::Leave) | Err(_) => false,
    }
}

impl Inside {
    // Looks at the next extension, or leaves the object where none is left.
    pub(crate) fn extend<S: Source>(&mut self, scene: &Scene<S>) -> Result<Move, ReadingFault>
        requires { frames self.old.frames ≡ [] }
        ensures { InsideMoved scene.now self.old result self.new }
    {
        let i = self.extension;
        let table: &[Extension] = &scene.tables.extensions;
        let count = table.len();
        if i >= count {
            return Ok(Move::Leave);
        }
        let extension = record_at(table, i + 1);
        if extension.class != scene.about.class {
            self.extension = i + 1;
            return Ok(Move::Quiet { place: scene.place });
        }
        let q = scene.tried(extension.first, scene.aligned())?;
        if q == scene.about.window.end {
            self.extension = count;
        } else {
            self.extension = i + 1;
            self.frames.push(Frame::from(Stretch::from(extension)));
        }
        Ok(Move::Quiet { place: q })
    }

    // The next of some lines.
    #[inline(always)]
    fn line<S: Source>(
        &mut self,
        scene: &Scene<S>,
        at: u32,
        count: u16,
    ) -> Result<Move, ReadingFault>
        requires { FrameFits scene.now (Lines at count) self.old }
        ensures { FrameMoved scene.now (Lines at count) self.old result self.new }
    {
        match next_line(&scene.tables.lines, at, count) {
            None => Ok(Move::Quiet { place: scene.place }),
            Some(next) => self.known_line(scene, next),
        }
    }

    // One step: what comes first of what the object has to do. One match over a closed set of frames, which the open
    // objects keep: closures would be boxed, and nothing is allocated after opening.
    fn turn<S: Source>(&mut self, scene: &Scene<S>) -> Result<Move, ReadingFault>
        requires { InsideFits scene.now self.old }
        ensures { InsideMoved scene.now self.old result self.new }
    {
        match self.frames.pop() {
            None => self.extend(scene),
            Some(Frame::Lines { at, count }) => self.line(scene, at, count),
            Some(Frame::After { at, count }) => self.line(scene, at, count),
            Some(
                Frame::Rounds {
                    line,
                    node,
                    count,
                    left,
                },
            ) => self.round(scene, line, node, count, left),
            Some(
                Frame::Elements {
                    line,
                    fields,
                    index,
                    total,
                },
            ) => self.next_element(scene, line, fields, index, total),
            Some(
                Frame::Counted {
                    line,
                    fields,
                    index,
                    total,
                },
            ) => self.next_counted(scene, line, fields, index, total),
            Some(
                Frame::Uncounted {
                    line,
                    fields,
                    index,
                },
            ) => self.next_to_end(scene, line, fields, index),
        }
    }

    // Steps until something is handed out, an object begins or is left, or the place moves: all of them are taken in one
    // scene.
    pub fn step<S: Source>(&mut self, scene: &Scene<S>) -> Result<Move, ReadingFault>
        requires { InsideFits scene.now self.old }
        ensures { InsideMoved scene.now self.old result self.new }
    {
        loop {
            let moved = self.turn(scene);
            if !stays(moved, scene.place) {
                return moved;
            }
        }
    }
}
