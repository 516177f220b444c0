ghost use Rattle.std.specs.Prelude.{◌≡◌};
ghost use Rattle.sources.specs.Joined.{joined_answer};

use bits::bytes::Bytes;
use bits::join::Join;
use bits::refusal::Refusal;
use bits::source::Source;

// The n bits from place p of the bits of two slices, one after the other, as one number.
pub(crate) fn get_joined(front: &[u8], back: &[u8], p: u32, n: u32) -> Result<u64, Refusal>
    ensures { result ≡ joined_answer front.now back.now p n }
{
    let first = Bytes::new(front)?;
    let second = Bytes::new(back)?;
    let both = Join::new(first, second)?;
    both.get(p, n)
}
