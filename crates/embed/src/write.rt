// Writing a stream.
ghost use Rattle.std.specs.Prelude.{◌≡◌};
ghost use Rattle.table.specs.Description.{description};
ghost use Rattle.table.specs.Loading.{loaded};
ghost use Rattle.writing.specs.Calls.{PutCalled};
ghost use Rattle.writing.specs.Refusals.{writing_refusal_number};
ghost use Rattle.embed.specs.Writing.{item_for, wrote, PutAll, Ended, Written, WriteTold};

use crate::answers::{ACCEPTED, CheckAnswer, FlatItem};
use checked::checked::Checked;
use rules::items::{Item, Kind};
use std::alloc::Global;
use writing::finish::Unfinished;
use writing::refusal::WritingRefusal;
use writing::state::{Duty, Writing};

// What came of a description and items: how the description was checked; where it was accepted, how many items were
// put, and what was then refused, 0 where the stream was finished. Opening alone refuses 33 and 42, a put alone 41, and
// finishing alone 45; where 44 comes after all items, finishing was refused.
#[repr(C)]
#[derive(Clone, Copy)]
pub struct WriteAnswer {
    pub check: CheckAnswer,
    pub items: u64,
    pub refusal: u32,
}

// The answer of a writing that was refused after so many items.
fn refused(items: u64, refusal: WritingRefusal) -> WriteAnswer
    ensures { result ≡ wrote items (writing_refusal_number refusal) }
{
    WriteAnswer {
        check: ACCEPTED,
        items,
        refusal: u32::from(refusal.number()),
    }
}

// An item that every writing refuses, since its class is 0.
const REFUSED: Item = Item {
    kind: Kind::Value,
    line: 0,
    class: 0,
    index: 0,
    value: 0,
    place: 0,
    length: 0,
};

// Puts an item. Where no item has the numbers, one that is always refused is put in its place, so that the refusals
// come in their order: a short buffer first.
fn put(writing: &mut Writing, item: FlatItem, buffer: &mut [u8]) -> Result<(), WritingRefusal>
    ensures { PutCalled writing.old (item_for item) buffer.old result writing.new buffer.new }
{
    writing.put(item.item().unwrap_or(REFUSED), buffer)
}

// Puts all items; else how many were put, and why not the next.
fn put_all(
    writing: &mut Writing,
    items: &[FlatItem],
    buffer: &mut [u8],
) -> Result<(), (usize, WritingRefusal)>
    ensures { PutAll writing.old buffer.old items.now result writing.new buffer.new }
{
    for (count, item) in items.iter().enumerate() {
        if let Err(refusal) = put(writing, *item, buffer) {
            return Err((count, refusal));
        }
    }
    Ok(())
}

// Finishes a stream of so many items; where that is refused, it is given up.
fn finish(writing: Writing, duty: Duty, items: u64, buffer: &mut [u8]) -> WriteAnswer
    ensures { Ended writing duty items buffer.old result buffer.new }
{
    match writing.finish(duty, buffer) {
        Ok(_) => WriteAnswer {
            check: ACCEPTED,
            items,
            refusal: 0,
        },
        Err(
            Unfinished {
                refusal,
                writing,
                duty,
            },
        ) => {
            let _ = writing.give_up(duty);
            refused(items, refusal)
        }
    }
}

// Writes a stream of so many bits by a checked description.
fn write(checked: Checked, items: &[FlatItem], length: u64, buffer: &mut [u8]) -> WriteAnswer
    ensures { Written items.now length buffer.old result buffer.new (description checked.loaded) }
{
    match Writing::open(checked, length) {
        Ok((mut writing, duty)) => match put_all(&mut writing, items, buffer) {
            Ok(()) => finish(writing, duty, items.len() as u64, buffer),
            Err((count, refusal)) => {
                let _ = writing.give_up(duty);
                refused(count as u64, refusal)
            }
        },
        Err(unopened) => refused(0, unopened.refusal),
    }
}

// Writes items as a stream of `length` bits into a buffer, by a description file. Where something is refused the buffer
// holds what was put before; where nothing is refused, the bits left read as the items. The contract says which calls of
// a writing were made.
#[unsafe(no_mangle)]
pub extern "C" fn jilafotra_write(
    heap: Global,
    description: &[u8],
    items: &[FlatItem],
    length: u64,
    buffer: &mut [u8],
) -> WriteAnswer
    ensures { WriteTold items.now length buffer.old result buffer.new (loaded description.now) }
{
    match Checked::load(heap, description) {
        Ok(checked) => write(checked, items, length, buffer),
        Err(fault) => WriteAnswer {
            check: CheckAnswer::from(fault),
            items: 0,
            refusal: 0,
        },
    }
}
