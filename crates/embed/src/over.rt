// The sums of `folds` over the other makes of sources.
ghost use Rattle.std.specs.Prelude.{◌+◌, ◌++◌, length};
ghost use Rattle.bits.specs.Bits.{part};
ghost use Rattle.bits.specs.Make.{most_bytes, most_words};
ghost use Rattle.bits.specs.Units.{units_bits};
ghost use Rattle.table.specs.Loading.{loaded};
ghost use Rattle.embed.specs.Folding.{sum_with};
ghost use Rattle.embed.specs.Sources.{Gives, byte_bits, no_window, too_long};
ghost use Rattle.embed.specs.Told.{Unfolded, FoldedThrough, StreamTold};

use crate::folds::{FoldAnswer, Sum, folded};
use bits::bytes::Bytes;
use bits::join::Join;
use bits::refusal::Refusal;
use bits::source::Source;
use bits::window::Window;
use bits::words::Words;
use checked::checked::Checked;
use std::alloc::Global;

// The bits of some bytes from a place on.
pub(crate) fn window<'a>(
    bytes: &'a [u8],
    first: u32,
    count: u32,
) -> Result<Window<Bytes<'a>>, Refusal>
    ensures { Gives result ⟦<Window<Bytes<'a>> as Source>⟧.bits
        (part (byte_bits bytes.now) first count) (no_window (length bytes.now) first count) }
{
    Window::new(Bytes::new(bytes)?, first, count)
}

// The bits of some bytes and then those of others.
pub(crate) fn join<'a>(
    front: &'a [u8],
    back: &'a [u8],
) -> Result<Join<Bytes<'a>, Bytes<'a>>, Refusal>
    ensures { Gives result ⟦<Join<Bytes<'a>, Bytes<'a>> as Source>⟧.bits
        (byte_bits front.now ++ byte_bits back.now) (too_long most_bytes (length front.now + length back.now)) }
{
    Join::new(Bytes::new(front)?, Bytes::new(back)?)
}

// The sum over the bits of words of 32 bits.
#[unsafe(no_mangle)]
pub extern "C" fn jilafotra_sum_words(heap: Global, description: &[u8], words: &[u32]) -> FoldAnswer
    ensures { StreamTold (Unfolded result) (FoldedThrough sum_with 0 result) (loaded description.now)
        (units_bits 32 (λ w. w) words.now) (too_long most_words (length words.now)) }
{
    folded::<Words, Sum>(Checked::load(heap, description), Words::new(words))
}

// The sum over `count` bits of some bytes, from bit `first` on; cause 34 where they are not all there.
#[unsafe(no_mangle)]
pub extern "C" fn jilafotra_sum_window(
    heap: Global,
    description: &[u8],
    bytes: &[u8],
    first: u32,
    count: u32,
) -> FoldAnswer
    ensures { StreamTold (Unfolded result) (FoldedThrough sum_with 0 result) (loaded description.now)
        (part (byte_bits bytes.now) first count) (no_window (length bytes.now) first count) }
{
    folded::<Window<Bytes>, Sum>(
        Checked::load(heap, description),
        window(bytes, first, count),
    )
}

// The sum over the bits of some bytes and then those of others.
#[unsafe(no_mangle)]
pub extern "C" fn jilafotra_sum_join(
    heap: Global,
    description: &[u8],
    front: &[u8],
    back: &[u8],
) -> FoldAnswer
    ensures { StreamTold (Unfolded result) (FoldedThrough sum_with 0 result) (loaded description.now)
        (byte_bits front.now ++ byte_bits back.now) (too_long most_bytes (length front.now + length back.now)) }
{
    folded::<Join<Bytes, Bytes>, Sum>(Checked::load(heap, description), join(front, back))
}
