ghost use Rattle.std.specs.Prelude.{◌≤◌};

use crate::tally::bit_at;
use bits::refusal::Refusal;

// Whether n bits from place p of `length` bits are read or stored.
pub(crate) fn expected_place(length: u32, p: u32, n: u32) -> Result<(), Refusal>
    requires { (p ≤ 1000) × (n ≤ 1000) }
{
    if n > 32 {
        return Err(Refusal::TooWide);
    }
    if p + n > length {
        return Err(Refusal::PastEnd);
    }
    Ok(())
}

// What a get should answer, read bit by bit, where a source has the `length` bits of the bytes
// from place `first`.
pub(crate) fn expected_get(
    bytes: &[u8],
    first: u32,
    length: u32,
    p: u32,
    n: u32,
) -> Result<u64, Refusal>
    requires { (first ≤ 1000) × (p ≤ 1000) × (n ≤ 1000) }
{
    expected_place(length, p, n)?;
    Ok((0..n).fold(0, |value, i| value << 1 | bit_at(bytes, first + p + i)))
}

// Whether twelve bytes have zero bits only from one place on, read bit by bit.
pub(crate) fn expected_zero(bytes: &[u8], from: u32, count: u32) -> Result<bool, Refusal>
    requires { (from ≤ 1000) × (count ≤ 1000) }
{
    if from + count > 96 {
        return Err(Refusal::PastEnd);
    }
    Ok((from..from + count).all(|place| bit_at(bytes, place) == 0))
}
