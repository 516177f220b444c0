ghost use Rattle.std.specs.Prelude.{◌≡◌, ◌+◌, ◌*◌, ◌≤◌, false, cond, length, is_ok};
ghost use Rattle.bits.specs.Bits.{bits_all};
ghost use Rattle.bits.specs.Put.{with_bits, with_piece, put_answer};

use crate::place::check_place;
use crate::refusal::Refusal;

// Stores the n lowest bits of `value` as the n bits from place p of the bytes, most significant
// first; every other bit stays. Refuses `TooWide` where n is above `WIDEST`, then `PastEnd` where
// p + n is past the last bit, and then changes nothing.
pub fn put_bits(bytes: &mut [u8], p: u32, n: u32, value: u64) -> Result<(), Refusal>
    ensures answer { result ≡ put_answer (length bytes.old * 8) p n }
    ensures stored { bits_all 8 bytes.new ≡ cond (is_ok result)
        (with_bits (bits_all 8 bytes.old) p n value)
        (bits_all 8 bytes.old) }
    ensures kept { is_ok result ≡ false → bytes.new ≡ bytes.old }
{
    check_place((bytes.len() as u64).saturating_mul(8), p, n)?;
    store(bytes, p, n, value);
    Ok(())
}

// Stores the n lowest bits of `value` from place p on, byte by byte. By index: over `iter_mut`, `enumerate`, `take` and
// `skip` it was tried, where the loop's invariant has no name for the bytes stored so far, and the proof did not close.
fn store(bytes: &mut [u8], p: u32, n: u32, value: u64)
    requires { (n ≤ 64) × (p + n ≤ length bytes.old * 8) }
    ensures { bits_all 8 bytes.new ≡ with_bits (bits_all 8 bytes.old) p n value }
{
    let start = p as usize;
    let end = start + n as usize;
    let mut at = start;
    let mut left = n as usize;
    for i in start / 8..end.div_ceil(8) {
        let room = 8 - at % 8;
        let m = left.min(room);
        left -= m;
        bytes[i] = with_piece(bytes[i], m, room - m, value >> left);
        at += m;
    }
}

// The byte with the m lowest bits of x above its `tail` lowest bits: less its own bits there, and with those of x. By
// shifts and masks, as the library has no word for bits within a byte.
fn with_piece(byte: u8, m: usize, tail: usize, x: u64) -> u8
    requires { m + tail ≤ 8 }
    ensures { result ≡ with_piece byte m tail x }
{
    let old = u64::from(byte);
    let mask = (1 << m) - 1;
    let own = (old >> tail & mask) << tail;
    let new = (x & mask) << tail;
    (old - own + new) as u8
}
