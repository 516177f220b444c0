// Reading a stream into a table of items.
ghost use Rattle.std.specs.Prelude.{◌≡◌, false, length};
ghost use Rattle.bits.specs.Make.{most_bytes};
ghost use Rattle.table.specs.Description.{description};
ghost use Rattle.table.specs.Loading.{loaded};
ghost use Rattle.reading.specs.Reads.{ahead};
ghost use Rattle.embed.specs.Checking.{accepted};
ghost use Rattle.embed.specs.Sources.{byte_bits, too_long};
ghost use Rattle.embed.specs.Told.{unstored, Unstored, Stored, StoredThrough, CameTo, StreamTold};

use crate::answers::{ACCEPTED, CheckAnswer, FaultAnswer, FlatItem, NO_FAULT};
use bits::bytes::Bytes;
use bits::refusal::Refusal;
use bits::source::Source;
use checked::checked::Checked;
use reading::state::Reading;
use records::faults::Fault;
use std::alloc::Global;

// What came of a description and a stream: how the description was checked; where it was accepted, how many items were
// stored, whether the table was full before the reading ended, and else the fault. Its cause is 33 where the stream is
// too long to be a source.
#[repr(C)]
#[derive(Clone, Copy)]
pub struct ReadAnswer {
    pub check: CheckAnswer,
    pub fault: FaultAnswer,
    pub items: u64,
    pub full: bool,
}

// The answer where nothing was read.
fn nothing(check: CheckAnswer, cause: u32) -> ReadAnswer
    ensures { result ≡ unstored check cause }
{
    ReadAnswer {
        check,
        fault: FaultAnswer { cause, ..NO_FAULT },
        items: 0,
        full: false,
    }
}

// Stores items until the table is full, which is tested first, or the reading ends.
fn fill<S: Source + Drop>(mut reading: Reading<S>, table: &mut [FlatItem]) -> ReadAnswer
    ensures { Stored result (ahead S.bits reading.entry) table.old table.new }
{
    for (count, slot) in table.iter_mut().enumerate() {
        match reading.next() {
            Ok(Some(item)) => *slot = FlatItem::from(item),
            Ok(None) => return ended(count, NO_FAULT),
            Err(fault) => return ended(count, FaultAnswer::from(fault)),
        }
    }
    ReadAnswer {
        check: ACCEPTED,
        fault: NO_FAULT,
        items: table.len() as u64,
        full: true,
    }
}

// The answer of a reading that ended after so many items.
fn ended(count: usize, fault: FaultAnswer) -> ReadAnswer
    ensures { result ≡ record { check = accepted; fault = fault; items = count; full = false } }
{
    ReadAnswer {
        check: ACCEPTED,
        fault,
        items: count as u64,
        full: false,
    }
}

// What comes of a reading.
fn read_through<S: Source + Drop>(
    checked: &Checked,
    source: S,
    table: &mut [FlatItem],
) -> ReadAnswer
    ensures { StoredThrough result table.old table.new (description checked.now.loaded) (S.bits source) }
{
    fill(Reading::open(checked, source), table)
}

// Reads a source by a description, where there are both.
fn stored<S: Source + Drop>(
    checked: Result<Checked, Fault>,
    source: Result<S, Refusal>,
    table: &mut [FlatItem],
) -> ReadAnswer
    ensures { CameTo (Unstored result table.old table.new) (StoredThrough result table.old table.new) S.bits checked source }
{
    match checked {
        Ok(checked) => match source {
            Ok(source) => read_through(&checked, source, table),
            Err(refusal) => nothing(ACCEPTED, u32::from(refusal.number())),
        },
        Err(fault) => nothing(CheckAnswer::from(fault), 0),
    }
}

// Reads a stream of bytes by a description file, and stores its items. Where there is no more room the table holds the
// first, and `full` is true: whether the reading would have gone on is then not known. Every later slot stays as it is.
#[unsafe(no_mangle)]
pub extern "C" fn jilafotra_read(
    heap: Global,
    description: &[u8],
    stream: &[u8],
    table: &mut [FlatItem],
) -> ReadAnswer
    ensures { StreamTold (Unstored result table.old table.new) (StoredThrough result table.old table.new) (loaded description.now)
        (byte_bits stream.now) (too_long most_bytes (length stream.now)) }
{
    stored(Checked::load(heap, description), Bytes::new(stream), table)
}
