ghost use Rattle.std.specs.Prelude.{◌≡◌, ◌+◌, ◌^◌, ◌<◌, ◌≤◌, ◌++◌, unsigned_abs};
ghost use Rattle.bits.specs.Bits.{bits_of};
ghost use Rattle.rules.specs.Steps.{id_width};
ghost use Rattle.roundtrip.specs.Own.{size_code, header_bits};
ghost use Rattle.pending.specs.Owned.{Answers};

use crate::own::Own;
use records::records::Class;
use rules::lookups::id_width;

// As many sizes as so many bytes can write, seven bits in each.
const ONE_BYTE: u32 = 128;

const TWO_BYTES: u32 = 16_384;

const THREE_BYTES: u32 = 2_097_152;

const FOUR_BYTES: u32 = 268_435_456;

// What the byte of seven bits of a size has besides where another follows.
const MORE: u32 = 128;

// The bits of one number, and then those of another.
fn joined(high: Own, low: Own) -> Own
    requires wide { high.width + low.width ≤ 48 }
    requires high { high.value < 2 ^ high.width }
    requires low { low.value < 2 ^ low.width }
    ensures bits { bits_of result.width result.value ≡ bits_of high.width high.value ++ bits_of low.width low.value }
    ensures width { result.width ≡ high.width + low.width }
    ensures small { result.value < 2 ^ result.width }
{
    Own {
        width: high.width + low.width,
        value: high.value << low.width | low.value,
    }
}

// The bits of a byte.
fn byte(value: u32) -> Own
    ensures { result ≡ record { width = 8; value = value } }
{
    Own {
        width: 8,
        value: u64::from(value),
    }
}

// The bits of a size, in the fewest bytes. Case by case, as the definition goes: a loop over at most three more bytes
// would be as long, with its measure and its bounds.
fn size_bits(size: u32) -> Own
    requires { size < 268435456 }
    ensures bits { bits_of result.width result.value ≡ size_code size }
    ensures width { result.width ≤ 32 }
    ensures small { result.value < 2 ^ result.width }
{
    let one = byte(size % ONE_BYTE);
    if size < ONE_BYTE {
        return one;
    }
    let two = joined(byte(MORE + size / ONE_BYTE % ONE_BYTE), one);
    if size < TWO_BYTES {
        return two;
    }
    let three = joined(byte(MORE + size / TWO_BYTES % ONE_BYTE), two);
    if size < THREE_BYTES {
        return three;
    }
    joined(byte(MORE + size / THREE_BYTES), three)
}

// The bits of the beginning of an object of a declared class: the id in a family, the size if expandable.
pub(crate) fn header_bits(declared: Class, greatest: u16, value: i64, size: u32) -> Option<Own>
    requires { declared.width ≤ 16 }
    ensures { Answers (header_bits declared greatest (unsigned_abs value) size) ((unsigned_abs value < 2 ^ id_width declared) × (size < 268435456)) result }
{
    let width = id_width(declared);
    let id = value.unsigned_abs();
    if id >= 1 << width || size >= FOUR_BYTES {
        return None;
    }
    let id = Own {
        width: u32::from(width),
        value: id,
    };
    if greatest == 0 {
        return Some(id);
    }
    Some(joined(id, size_bits(size)))
}
