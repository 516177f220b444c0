ghost use Rattle.std.specs.Prelude.{◌≡◌, ◌≤◌};

use crate::expected::expected_place;
use crate::tally::{Tally, bit_at, compare};
use bits::bytes::Bytes;
use bits::put::put_bits;
use bits::refusal::Refusal;
use bits::source::Source;

// Stores two numbers at places 0 to 70 in widths 0 to 33, and compares each bit of the bytes.
pub(crate) fn over_puts(bytes: &[u8; 12]) -> Tally {
    compare_puts(bytes, 0x0123_4567_89AB_CDEF) + compare_puts(bytes, 0xFFFF_FFFF_5A5A_A5A5)
}

// Stores a number at each of these places and widths.
fn compare_puts(bytes: &[u8; 12], value: u64) -> Tally
    ensures { (result.compared ≡ 2414) × (result.different ≤ 2414) }
{
    compare(71, 34, |p, n| differs(bytes, p, n, value))
}

// Whether twelve bytes in which a number is stored have other bits than they should, or are read
// as another number.
fn differs(bytes: &[u8; 12], p: u32, n: u32, value: u64) -> bool
    requires { (p ≤ 1000) × (n ≤ 33) }
{
    let mut stored = *bytes;
    if let Err(e) = put_bits(&mut stored, p, n, value) {
        return stored != *bytes || Err(e) != expected_place(96, p, n);
    }
    expected_place(96, p, n).is_err()
        || read(&stored, p, n) != Ok(value & ((1 << n) - 1))
        || (0..96u32).any(|place| bit_at(&stored, place) != bit_after(bytes, p, n, value, place))
}

// The bit at a place of some bytes in which the n lowest bits of `value` are stored from place p.
fn bit_after(bytes: &[u8; 12], p: u32, n: u32, value: u64, place: u32) -> u64
    requires { (p ≤ 1000) × (n ≤ 33) }
{
    if (p..p + n).contains(&place) {
        value >> (p + n - 1 - place) & 1
    } else {
        bit_at(bytes, place)
    }
}

// The number that n bits from place p write.
fn read(bytes: &[u8], p: u32, n: u32) -> Result<u64, Refusal> {
    Bytes::new(bytes)?.get(p, n)
}
