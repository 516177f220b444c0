// What a reading gives, and reading by each call.
use anyhow::anyhow;
use bits::source::Source;
use reading::next::Filled;
use reading::state::Reading;
use rules::faults::ReadingFault;
use rules::items::{Item, Kind};
use std::alloc::{AllocError, Global};
use std::fmt;
use std::str::Lines;

// An item of zeros.
const BLANK: Item = Item {
    kind: Kind::Value,
    line: 0,
    class: 0,
    index: 0,
    value: 0,
    place: 0,
    length: 0,
};

// How many items a table has room for.
const ROOM: usize = 3;

// The items of a reading in order, and its fault where it does not come to its end.
#[derive(Drop)]
pub(crate) struct Outcome {
    pub(crate) items: Vec<Item>,
    pub(crate) fault: Option<ReadingFault>,
}

impl Outcome {
    // Whether lines write it, an item each, and then how the reading ends.
    pub(crate) fn is_written(&self, heap: Global, mut lines: Lines) -> Result<bool, AllocError> {
        for item in self.items.as_slice() {
            let line = format!(in heap; "{item}")?;
            if lines.next() != Some(line.as_str()) {
                return Ok(false);
            }
        }
        let end = match self.fault {
            Some(fault) => format!(in heap; "refused {fault}")?,
            None => String::from_str(heap, "end")?,
        };
        Ok(lines.next() == Some(end.as_str()))
    }
}

// The call by which a reading hands out its items.
#[derive(Clone, Copy)]
pub(crate) enum Call {
    Next,
    Fill,
}

impl fmt::Display for Call {
    fn fmt<W: fmt::Write>(&self, f: &mut fmt::Formatter<W>) -> fmt::Result {
        f.write_str(match self {
            Call::Next => "next",
            Call::Fill => "fill",
        })
    }
}

impl Call {
    // Both.
    pub(crate) const ALL: [Call; 2] = [Call::Next, Call::Fill];

    // What a reading gives.
    pub(crate) fn outcome<S: Source + Drop>(
        self,
        heap: Global,
        reading: Reading<S>,
    ) -> anyhow::Result<Outcome> {
        match self {
            Call::Next => by_next(heap, reading),
            Call::Fill => by_fill(heap, reading),
        }
    }
}

// What `next` hands out.
fn by_next<S: Source + Drop>(heap: Global, mut reading: Reading<S>) -> anyhow::Result<Outcome> {
    let mut items = Vec::new(heap);
    for _ in 0..u64::MAX {
        match reading.next() {
            Ok(Some(item)) => items.push(item)?,
            Ok(None) => return Ok(Outcome { items, fault: None }),
            Err(fault) => {
                let fault = Some(fault);
                return Ok(Outcome { items, fault });
            }
        }
    }
    Err(anyhow!("more items than a number can count"))
}

// What `fill` hands out into a small table, again and again.
fn by_fill<S: Source + Drop>(heap: Global, mut reading: Reading<S>) -> anyhow::Result<Outcome> {
    let mut items = Vec::new(heap);
    for _ in 0..u64::MAX {
        let mut table = [BLANK; ROOM];
        let (count, filled) = reading.fill(&mut table);
        for item in table.iter().take(count) {
            items.push(*item)?;
        }
        match filled {
            Filled::Full => {}
            Filled::End => return Ok(Outcome { items, fault: None }),
            Filled::Refused(fault) => {
                let fault = Some(fault);
                return Ok(Outcome { items, fault });
            }
        }
    }
    Err(anyhow!("more items than a number can count"))
}
