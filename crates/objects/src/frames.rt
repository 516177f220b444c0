ghost use Rattle.std.specs.Prelude.{◌≡◌, ◌<◌, [], ◌∷◌, length};
ghost use Rattle.objects.specs.Frames.{frames, Popped};

use crate::frame::Frame;

// As many things as an open object may have to do at once.
pub const MOST: usize = 20;

// What an open object has to do, in a fixed room: the last one first. `ArrayVec` was tried: an open object is then no
// plain value, and the proofs of `Walk::step` and `Walk::leave` over an array of such did not close.
#[derive(Clone, Copy)]
pub struct Frames {
    pub(crate) room: [Frame; MOST],
    pub(crate) depth: usize,
}

impl Frames {
    // Nothing to do.
    pub fn new() -> Frames
        ensures { frames result ≡ [] }
    {
        Frames {
            room: [Frame::Lines { at: 0, count: 0 }; MOST],
            depth: 0,
        }
    }

    // Takes away all.
    pub fn clear(&mut self)
        ensures { frames self.new ≡ [] }
    {
        self.depth = 0;
    }

    // Takes away what comes first.
    pub fn pop(&mut self) -> Option<Frame>
        ensures { Popped (frames self.old) result (frames self.new) }
    {
        if self.depth == 0 {
            return None;
        }
        let top = self.depth.min(MOST) - 1;
        self.depth = top;
        Some(self.room[top])
    }

    // Puts something before the rest.
    pub fn push(&mut self, frame: Frame)
        requires { length (frames self.old) < 20 }
        ensures { frames self.new ≡ frame ∷ frames self.old }
    {
        self.room[self.depth] = frame;
        self.depth += 1;
    }

    // Puts two things before the rest.
    pub fn push_both(&mut self, under: Frame, top: Frame)
        requires { length (frames self.old) < 19 }
        ensures { frames self.new ≡ top ∷ under ∷ frames self.old }
    {
        self.push(under);
        self.push(top);
    }
}
