ghost use Rattle.std.specs.Prelude.{◌≡◌, ℕ, ◌+◌, ◌*◌, ◌≤◌, List, Bool, false, length, if◌then◌else◌};
ghost use Rattle.bits.specs.Bits.{bits_all};
ghost use Rattle.pending.specs.Store.{can_store, with_part};

use bits::put::put_bits;
use bits::source::{Source, WIDEST};

// Stores one piece, the bits from place `at` up to place `to`: where those from some place up to `at` were stored before,
// those up to `to` are.
fn store_piece<S: Source>(buffer: &mut [u8], source: &S, at: u32, to: u32)
    requires narrow { (at ≤ to) × (to ≤ at + 32) }
    requires inside { (to ≤ length (S.bits source.now)) × (to ≤ length buffer.old * 8) }
    ensures { (l : List Bool) (from : ℕ) → from ≤ at → length l ≡ length buffer.old * 8 → bits_all 8 buffer.old ≡ with_part l (S.bits source.now) from at → bits_all 8 buffer.new ≡ with_part l (S.bits source.now) from to }
{
    let n = to - at;
    if let Ok(piece) = source.get(at, n) {
        let _ = put_bits(buffer, at, n, piece);
    }
}

// Stores the bits of a source from place `from` up to place `to` into the same places of the buffer; every other bit
// stays. Where they are not all in the source and in the buffer, it answers false and changes nothing. At most 32 bits are
// one piece. Where there are more, no byte is stored twice: each piece ends on a byte boundary, or at the end.
pub fn store_bits<S: Source>(buffer: &mut [u8], source: &S, from: u32, to: u32) -> bool
    ensures answer { result ≡ can_store (length (S.bits source.now)) (length buffer.old) from to }
    ensures stored { bits_all 8 buffer.new ≡ (if result then with_part (bits_all 8 buffer.old) (S.bits source.now) from to else bits_all 8 buffer.old) }
    ensures kept { result ≡ false → buffer.new ≡ buffer.old }
{
    if from > to || to > source.length() || (to as usize).div_ceil(8) > buffer.len() {
        return false;
    }
    if to - from <= WIDEST {
        store_piece(buffer, source, from, to);
        return true;
    }
    for start in (from - from % 8..to).step_by(WIDEST as usize) {
        store_piece(buffer, source, start.max(from), to.min(start + WIDEST));
    }
    true
}
