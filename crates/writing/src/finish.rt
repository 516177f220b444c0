// Finishing and giving up.
ghost use Rattle.std.specs.Prelude.{◌≡◌};
ghost use Rattle.writing.specs.Calls.{FinishCalled};
ghost use Rattle.writing.specs.Endings.{CanEnd, Refused};

use crate::refusal::WritingRefusal;
use crate::state::{Duty, Writing};
use checked::checked::Checked;
use pending::own::Own;
use pending::store::store_bits;
use pending::trial::Trial;

// A refused finish: why, and the writing and its duty as they were.
pub struct Unfinished {
    pub refusal: WritingRefusal,
    pub writing: Writing,
    pub duty: Duty,
}

impl Writing {
    // Whether a reading can end here: all is put, and fewer than eight bits are left.
    fn can_end(&self) -> bool
        ensures { CanEnd self.now result }
    {
        self.walk.is_over() && self.total.saturating_sub(self.written) < 8
    }

    // Why the stream cannot be finished.
    fn refused(&self, buffer: &[u8]) -> Option<WritingRefusal>
        ensures { Refused self.now buffer.now result }
    {
        if !self.has_room(buffer) {
            return Some(WritingRefusal::ShortBuffer);
        }
        if !self.can_end() {
            return Some(WritingRefusal::Unfinished);
        }
        None
    }

    // Finishes the stream: the bits left become 0. Refuses `ShortBuffer`, then `Unfinished`.
    pub fn finish(self, duty: Duty, buffer: &mut [u8]) -> Result<Checked, Unfinished>
        ensures { FinishCalled self duty buffer.old result buffer.new }
    {
        if let Some(refusal) = self.refused(buffer) {
            return Err(Unfinished {
                refusal,
                writing: self,
                duty,
            });
        }
        let zeros = Trial {
            length: self.total,
            place: self.total,
            own: Own { width: 0, value: 0 },
        };
        store_bits(buffer, &zeros, self.written, self.total);
        Ok(self.give_up(duty))
    }

    // Ends the writing, and hands the description back; the buffer stays as it is.
    pub fn give_up(self, duty: Duty) -> Checked
        ensures { result ≡ self.checked }
    {
        let Duty { total: _ } = duty;
        let Writing {
            checked,
            total: _,
            written: _,
            walk: _,
        } = self;
        checked
    }
}
