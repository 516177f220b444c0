// Putting the items of a text.
use crate::texts::item_of;
use checked::checked::Checked;
use std::fmt;
use writing::finish::Unfinished;
use writing::refusal::WritingRefusal;
use writing::state::{Duty, Writing};

// Why a stream is not written, and the line of the items where that showed, 0 for none.
#[derive(Clone, Copy)]
pub(crate) struct Refused {
    pub(crate) refusal: WritingRefusal,
    pub(crate) line: u64,
}

impl fmt::Display for Refused {
    fn fmt<W: fmt::Write>(&self, f: &mut fmt::Formatter<W>) -> fmt::Result {
        write!(f, "{} {}", self.refusal.number(), self.line)
    }
}

// Writes a stream of so many bits: each line of the items. Answers how many there are.
pub(crate) fn pack(
    checked: Checked,
    length: u64,
    items: &str,
    buffer: &mut [u8],
) -> Result<u64, Refused> {
    match Writing::open(checked, length) {
        Ok((mut writing, duty)) => match put_all(&mut writing, items, buffer) {
            Ok(count) => finish(writing, duty, count, buffer),
            Err(refused) => {
                let _ = writing.give_up(duty);
                Err(refused)
            }
        },
        Err(unopened) => Err(Refused {
            refusal: unopened.refusal,
            line: 0,
        }),
    }
}

// Puts each line of the items. Answers how many there are.
fn put_all(writing: &mut Writing, items: &str, buffer: &mut [u8]) -> Result<u64, Refused> {
    let mut count: u64 = 0;
    for line in items.lines() {
        put(writing, line, buffer).map_err(|refusal| Refused {
            refusal,
            line: count.saturating_add(1),
        })?;
        count = count.saturating_add(1);
    }
    Ok(count)
}

// Puts the item of a line; a line that is no item can't come next.
fn put(writing: &mut Writing, line: &str, buffer: &mut [u8]) -> Result<(), WritingRefusal> {
    match item_of(line) {
        Ok(item) => writing.put(item, buffer),
        Err(_) => Err(WritingRefusal::NotNext),
    }
}

// Finishes a stream of so many items; where that is refused, it is given up.
fn finish(writing: Writing, duty: Duty, count: u64, buffer: &mut [u8]) -> Result<u64, Refused> {
    match writing.finish(duty, buffer) {
        Ok(_) => Ok(count),
        Err(
            Unfinished {
                refusal,
                writing,
                duty,
            },
        ) => {
            let _ = writing.give_up(duty);
            let line = count.saturating_add(1);
            Err(Refused { refusal, line })
        }
    }
}
