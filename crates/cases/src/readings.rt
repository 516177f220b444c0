// Cases of readings: a description, bits, the items and how the reading ends.
use crate::lines::{description_after, lines_after};
use crate::makes::{Make, Task};
use crate::outcome::Call;
use crate::pieces::by_pieces;
use crate::stream::Stream;
use std::alloc::Global;

// A reading that a case tells: the name before its description, and how the line begins that its items stand after.
#[derive(Clone, Copy)]
pub(crate) struct Told {
    pub(crate) name: &'static str,
    heading: &'static str,
}

// The reading of a case that tells one.
pub(crate) const ONLY: Told = Told {
    name: "description",
    heading: "bits ",
};

// The two readings of a case of an older and a newer description.
pub(crate) const NEWER: Told = Told {
    name: "newer",
    heading: "reading by the newer:",
};

pub(crate) const OLDER: Told = Told {
    name: "older",
    heading: "reading by the older:",
};

impl Told {
    // Whether a reading from a make of source, by a call, gives what the case says.
    pub(crate) fn agrees(
        self,
        heap: Global,
        case: &str,
        make: Make,
        call: Call,
    ) -> anyhow::Result<bool> {
        let task = Task {
            description: &description_after(heap, case, self.name)?,
            stream: &Stream::of(heap, case)?,
            call,
        };
        let outcome = task.outcome(heap, make)?;
        Ok(outcome.is_written(heap, lines_after(case, self.heading))?)
    }

    // Whether a reading of the stream piece by piece gives what the case says; none where the stream is not of whole
    // bytes.
    pub(crate) fn agrees_by_pieces(self, heap: Global, case: &str) -> anyhow::Result<Option<bool>> {
        let stream = Stream::of(heap, case)?;
        if stream.length % 8 != 0 {
            return Ok(None);
        }
        let description = description_after(heap, case, self.name)?;
        let outcome = by_pieces(heap, &description, stream.bytes.as_slice())?;
        let written = outcome.is_written(heap, lines_after(case, self.heading))?;
        Ok(Some(written))
    }
}
