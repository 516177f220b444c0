ghost use Rattle.std.specs.Prelude.{◌≡◌};
ghost use Rattle.writing.specs.Refusals.{writing_refusal_number};

use std::fmt;

// Why a call of a writing was refused. A refused call changes nothing.
#[derive(Clone, Copy, PartialEq, Eq, Debug)]
pub enum WritingRefusal {
    // The stream would have more bits than any may have.
    TooLong,
    // No reading could hand out this item next.
    NotNext,
    // A line of the description looks ahead.
    LooksAhead,
    // The buffer has fewer bits than the stream.
    ShortBuffer,
    // Items are still to be put, or eight or more bits are left.
    Unfinished,
}

impl WritingRefusal {
    // The number that the refusal is known by.
    pub fn number(self) -> u16
        ensures { result ≡ writing_refusal_number self }
    {
        match self {
            WritingRefusal::TooLong => 33,
            WritingRefusal::NotNext => 41,
            WritingRefusal::LooksAhead => 42,
            WritingRefusal::ShortBuffer => 44,
            WritingRefusal::Unfinished => 45,
        }
    }
}

impl fmt::Display for WritingRefusal {
    fn fmt<W: fmt::Write>(&self, f: &mut fmt::Formatter<W>) -> fmt::Result {
        f.write_str(sentence(*self))
    }
}

fn sentence(refusal: WritingRefusal) -> &'static str {
    match refusal {
        WritingRefusal::TooLong => "the stream would have more bits than any may have",
        WritingRefusal::NotNext => "no reading could hand out this item next",
        WritingRefusal::LooksAhead => "a line of the description looks ahead",
        WritingRefusal::ShortBuffer => "the buffer has fewer bits than the stream",
        WritingRefusal::Unfinished => "items are still to be put, or eight or more bits are left",
    }
}
