ghost use Rattle.std.specs.Prelude.{◌≡◌};
ghost use Rattle.bits.specs.Zero.{zero_answer};

use crate::place::check_end;
use crate::refusal::Refusal;
use crate::source::{Source, WIDEST};

// Whether the `count` bits of a source from place `from` are all 0, as no bits are. Refuses
// `PastEnd` where they are not all in the source.
pub fn is_zero<S: Source>(source: &S, from: u32, count: u32) -> Result<bool, Refusal>
    ensures { result ≡ zero_answer (S.bits source.now) from count }
{
    check_end(u64::from(source.length()), from, count)?;
    let end = from + count;
    for at in (from..end).step_by(WIDEST as usize) {
        if source.get(at, WIDEST.min(end - at))? != 0 {
            return Ok(false);
        }
    }
    Ok(true)
}
