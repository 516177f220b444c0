// A number over all items of a stream.
ghost use Rattle.std.specs.Prelude.{◌≡◌, ℕ, length};
ghost use Rattle.bits.specs.Make.{most_bytes};
ghost use Rattle.table.specs.Loading.{loaded};
ghost use Rattle.reading.specs.Reads.{ahead};
ghost use Rattle.table.specs.Description.{description};
ghost use Rattle.embed.specs.Folding.{with_item, sum_with, digest_start, digest_with, Folded};
ghost use Rattle.embed.specs.Sources.{byte_bits, too_long};
ghost use Rattle.embed.specs.Told.{Unfolded, FoldedThrough, CameTo, StreamTold};

use crate::answers::{ACCEPTED, CheckAnswer, FaultAnswer, NO_FAULT};
use bits::bytes::Bytes;
use bits::refusal::Refusal;
use bits::source::Source;
use checked::checked::Checked;
use reading::state::Reading;
use records::faults::Fault;
use rules::items::Item;
use std::alloc::Global;

// What came of a description and a stream: how the description was checked; where it was accepted, how many items were
// handed out, the fold of their numbers, and the fault. Its cause is 33 where the stream is too long to be a source.
#[repr(C)]
#[derive(Clone, Copy)]
pub struct FoldAnswer {
    pub check: CheckAnswer,
    pub fault: FaultAnswer,
    pub items: u64,
    pub fold: u64,
}

// The answer where nothing was read.
fn nothing(check: CheckAnswer, cause: u32) -> FoldAnswer
    ensures { Unfolded result check cause }
{
    FoldAnswer {
        check,
        fault: FaultAnswer { cause, ..NO_FAULT },
        items: 0,
        fold: 0,
    }
}

// A number that takes in the numbers of items, one after the other.
pub(crate) trait Fold: Copy {
    // Where it starts, and what one more number makes of it.
    ghost start: { ℕ };

    ghost step: { ℕ → ℕ → ℕ };

    // What it is so far.
    ghost so_far: { Self → ℕ };

    // The number before any item.
    fn begin() -> Self
        ensures { so_far result ≡ start };

    // The number with one more item.
    fn with(self, item: Item) -> Self
        ensures { so_far result ≡ with_item step (so_far self) item };

    // The number so far.
    fn number(self) -> u64
        ensures { result ≡ so_far self };
}

// The sum of all numbers of all items, which costs little.
#[derive(Clone, Copy)]
pub(crate) struct Sum {
    sum: u64,
}

impl Fold for Sum {
    ghost start = { 0 };

    ghost step = { sum_with };

    ghost so_far = { λ s. s.sum };

    fn begin() -> Sum {
        Sum { sum: 0 }
    }

    fn with(self, item: Item) -> Sum {
        let sum = self
            .sum
            .wrapping_add(u64::from(item.kind.number()))
            .wrapping_add(u64::from(item.line))
            .wrapping_add(u64::from(item.class))
            .wrapping_add(u64::from(item.index))
            .wrapping_add(item.value.cast_unsigned())
            .wrapping_add(u64::from(item.place))
            .wrapping_add(u64::from(item.length));
        Sum { sum }
    }

    fn number(self) -> u64 {
        self.sum
    }
}

// The 64-bit FNV-1a digest of all numbers of all items, each as eight bytes, the lowest first.
#[derive(Clone, Copy)]
pub(crate) struct Digest {
    digest: u64,
}

impl Digest {
    // The digest with the eight bytes of one more number.
    fn take(self, number: u64) -> Digest
        ensures { result.digest ≡ digest_with self.digest number }
    {
        let digest = number
            .to_le_bytes()
            .iter()
            .fold(self.digest, |digest, byte| {
                (digest ^ u64::from(*byte)).wrapping_mul(0x0000_0100_0000_01B3)
            });
        Digest { digest }
    }
}

impl Fold for Digest {
    ghost start = { digest_start };

    ghost step = { digest_with };

    ghost so_far = { λ d. d.digest };

    fn begin() -> Digest {
        Digest {
            digest: 0xCBF2_9CE4_8422_2325,
        }
    }

    fn with(self, item: Item) -> Digest {
        self.take(u64::from(item.kind.number()))
            .take(u64::from(item.line))
            .take(u64::from(item.class))
            .take(u64::from(item.index))
            .take(item.value.cast_unsigned())
            .take(u64::from(item.place))
            .take(u64::from(item.length))
    }

    fn number(self) -> u64 {
        self.digest
    }
}

// Reads to the end or the fault. It stops after 2^64 - 1 items, which no run of a program comes to.
fn read<S: Source + Drop, F: Fold>(mut reading: Reading<S>) -> (u64, F, FaultAnswer)
    ensures { Folded F.step F.start (ahead S.bits reading.entry) result.0 (F.so_far result.1) result.2 }
{
    let mut fold = F::begin();
    for items in 0..u64::MAX {
        match reading.next() {
            Ok(Some(item)) => fold = fold.with(item),
            Ok(None) => return (items, fold, NO_FAULT),
            Err(fault) => return (items, fold, FaultAnswer::from(fault)),
        }
    }
    (u64::MAX, fold, NO_FAULT)
}

// What comes of a reading.
fn read_through<S: Source + Drop, F: Fold>(checked: &Checked, source: S) -> FoldAnswer
    ensures { FoldedThrough F.step F.start result (description checked.now.loaded) (S.bits source) }
{
    let (items, fold, fault) = read::<S, F>(Reading::open(checked, source));
    FoldAnswer {
        check: ACCEPTED,
        fault,
        items,
        fold: fold.number(),
    }
}

// Reads a source by a description, where there are both.
pub(crate) fn folded<S: Source + Drop, F: Fold>(
    checked: Result<Checked, Fault>,
    source: Result<S, Refusal>,
) -> FoldAnswer
    ensures { CameTo (Unfolded result) (FoldedThrough F.step F.start result) S.bits checked source }
{
    match checked {
        Ok(checked) => match source {
            Ok(source) => read_through::<S, F>(&checked, source),
            Err(refusal) => nothing(ACCEPTED, u32::from(refusal.number())),
        },
        Err(fault) => nothing(CheckAnswer::from(fault), 0),
    }
}

// Reads a stream of bytes, and answers the digest of its items.
#[unsafe(no_mangle)]
pub extern "C" fn jilafotra_digest(heap: Global, description: &[u8], stream: &[u8]) -> FoldAnswer
    ensures { StreamTold (Unfolded result) (FoldedThrough digest_with digest_start result) (loaded description.now)
        (byte_bits stream.now) (too_long most_bytes (length stream.now)) }
{
    folded::<Bytes, Digest>(Checked::load(heap, description), Bytes::new(stream))
}

// Reads a stream of bytes, and answers the sum of all numbers of its items.
#[unsafe(no_mangle)]
pub extern "C" fn jilafotra_sum(heap: Global, description: &[u8], stream: &[u8]) -> FoldAnswer
    ensures { StreamTold (Unfolded result) (FoldedThrough sum_with 0 result) (loaded description.now)
        (byte_bits stream.now) (too_long most_bytes (length stream.now)) }
{
    folded::<Bytes, Sum>(Checked::load(heap, description), Bytes::new(stream))
}
