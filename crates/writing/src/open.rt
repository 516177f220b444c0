// Opening a writing.
ghost use Rattle.std.specs.Prelude.{◌≡◌, ℕ, ◌≤◌, false};
ghost use Rattle.table.specs.Description.{Description, description};
ghost use Rattle.writing.specs.Calls.{Opened, OpenCalled};
ghost use Rattle.writing.specs.Laws.{Writes};
ghost use Rattle.writing.specs.Ready.{some_ahead};

use crate::lines::some_ahead;
use crate::refusal::WritingRefusal;
use crate::state::{Duty, Writing};
use bits::source::LONGEST;
use checked::checked::Checked;
use reading::walk::Walk;

// A refused opening: why, and the description as it was.
#[derive(Drop)]
pub struct Unopened {
    pub refusal: WritingRefusal,
    pub checked: Checked,
}

impl Writing {
    // Opens a writing of a stream of so many bits by a checked description. Refuses `TooLong` where there are more
    // bits than any stream has, then `LooksAhead` where a line looks ahead. The law says what any history of calls
    // comes to.
    pub fn open(checked: Checked, bits: u64) -> Result<(Writing, Duty), Unopened>
        ensures called { OpenCalled checked bits result }
        ensures law { (d : Description) (total : ℕ) → Writes d total }
    {
        if bits > LONGEST as u64 {
            return Err(Unopened {
                refusal: WritingRefusal::TooLong,
                checked,
            });
        }
        if some_ahead(&checked.tables().lines) {
            return Err(Unopened {
                refusal: WritingRefusal::LooksAhead,
                checked,
            });
        }
        Ok((
            Writing::begin(checked, bits as u32),
            Duty { total: bits as u32 },
        ))
    }

    // A writing of a stream, at its beginning.
    fn begin(checked: Checked, total: u32) -> Writing
        requires short { total ≤ 2147483647 }
        requires straight { some_ahead (description checked.loaded).lines ≡ false }
        ensures { Opened (description checked.loaded) total result }
    {
        Writing {
            checked,
            total,
            written: 0,
            walk: Walk::new(),
        }
    }
}
