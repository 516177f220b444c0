// The makes of source over the bits of a case, and what readings of them give.
use crate::outcome::{Call, Outcome};
use crate::stream::{FIRST, Stream};
use bits::bytes::Bytes;
use bits::join::Join;
use bits::refusal::Refusal;
use bits::source::Source;
use bits::window::Window;
use bits::words::Words;
use checked::checked::Checked;
use reading::state::Reading;
use std::alloc::Global;
use std::fmt;

// What the bits of a case are read from.
#[derive(Clone, Copy)]
pub(crate) enum Make {
    // bytes, or a window of them where they have bits to spare
    Bytes,
    // words, or a window of them where they have bits to spare
    Words,
    // a window that begins inside a byte
    Window,
    // a join of a window of bytes and one of words
    Join,
}

impl Make {
    // Every one.
    pub(crate) const ALL: [Make; 4] = [Make::Bytes, Make::Words, Make::Window, Make::Join];
}

impl fmt::Display for Make {
    fn fmt<W: fmt::Write>(&self, f: &mut fmt::Formatter<W>) -> fmt::Result {
        f.write_str(match self {
            Make::Bytes => "bytes",
            Make::Words => "words",
            Make::Window => "a window",
            Make::Join => "a join",
        })
    }
}

// What is read: some bits, by a description and by a call.
#[derive(Clone, Copy)]
pub(crate) struct Task<'c> {
    pub(crate) description: &'c Checked,
    pub(crate) stream: &'c Stream,
    pub(crate) call: Call,
}

impl Task<'_> {
    // What a reading from a make of source gives.
    pub(crate) fn outcome(&self, heap: Global, make: Make) -> anyhow::Result<Outcome> {
        match make {
            Make::Bytes => self.over_whole(heap, Bytes::new(self.stream.bytes.as_slice())?),
            Make::Words => self.over_whole(heap, Words::new(self.stream.words.as_slice())?),
            Make::Window => self.over(heap, inside(self.stream)?),
            Make::Join => self.over(heap, joined(self.stream)?),
        }
    }

    // What a reading of a source gives, or of a window of it where it has bits to spare.
    fn over_whole<S: Source + Drop>(&self, heap: Global, source: S) -> anyhow::Result<Outcome> {
        if source.length() == self.stream.length {
            return self.over(heap, source);
        }
        self.over(heap, Window::new(source, 0, self.stream.length)?)
    }

    // What a reading of a source gives.
    fn over<S: Source + Drop>(&self, heap: Global, source: S) -> anyhow::Result<Outcome> {
        self.call
            .outcome(heap, Reading::open(self.description, source))
    }
}

// A window that begins inside a byte.
fn inside(stream: &Stream) -> Result<Window<Bytes<'_>>, Refusal> {
    Window::new(Bytes::new(stream.inside.as_slice())?, FIRST, stream.length)
}

// The bits up to a place from bytes, and those after it from words.
fn joined(stream: &Stream) -> Result<Join<Window<Bytes<'_>>, Window<Words<'_>>>, Refusal> {
    let middle = stream.middle();
    let bytes = Bytes::new(stream.bytes.as_slice())?;
    let words = Words::new(stream.words.as_slice())?;
    let front = Window::new(bytes, 0, middle)?;
    let back = Window::new(words, middle, stream.length - middle)?;
    Join::new(front, back)
}
