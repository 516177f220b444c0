ghost use Rattle.std.specs.Prelude.{◌≡◌};
ghost use Rattle.bits.specs.Get.{end_answer, place_answer};

use crate::refusal::Refusal;
use crate::source::WIDEST;

// Refuses `PastEnd` where n bits from place p go past the end of `length` bits.
pub fn check_end(length: u64, p: u32, n: u32) -> Result<(), Refusal>
    ensures { result ≡ end_answer length p n }
{
    if u64::from(p) + u64::from(n) > length {
        return Err(Refusal::PastEnd);
    }
    Ok(())
}

// Refuses `TooWide` where n is above `WIDEST`, then `PastEnd` where n bits from place p go past the
// end of `length` bits.
pub fn check_place(length: u64, p: u32, n: u32) -> Result<(), Refusal>
    ensures { result ≡ place_answer length p n }
{
    if n > WIDEST {
        return Err(Refusal::TooWide);
    }
    check_end(length, p, n)
}
