ghost use Rattle.std.specs.Prelude.{◌≡◌, ◌^◌, ◌<◌, ◌≤◌, IfOk, Ok};
ghost use Rattle.rules.specs.Steps.{natural, signed};

use rules::faults::{Failure, ReadingCause};

// A width or a count: a value from 0 to the most.
pub fn natural(most: u32, value: i64) -> Result<u32, Failure>
    ensures value { result ≡ natural most (Ok value) }
    ensures bound { IfOk result (λ n. n ≤ most) }
{
    if (0..=i64::from(most)).contains(&value) {
        Ok(value as u32)
    } else {
        Err(ReadingCause::WidthOrCount.into())
    }
}

// A number of n bits as a signed one, in two's complement.
pub(crate) fn signed(n: u32, raw: u64) -> i64
    requires { (n ≤ 32) × (raw < 2 ^ n) }
    ensures { result ≡ signed n raw }
{
    if n > 0 && raw >= 1 << (n - 1) {
        raw as i64 - (1 << n)
    } else {
        raw as i64
    }
}
