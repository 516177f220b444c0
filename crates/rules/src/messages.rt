// How items and faults are printed.
ghost use Rattle.std.specs.Prelude.{Some};
ghost use Rattle.rules.specs.Texts.{item_text, reading_fault_text};

use crate::faults::{ReadingCause, ReadingFault};
use crate::items::Item;
use std::fmt;

// Seven numbers: kind, line, class, index, value, place, length.
impl fmt::Display for Item {
    ghost output = { λ i. Some (item_text i) };

    fn fmt<W: fmt::Write>(&self, f: &mut fmt::Formatter<W>) -> fmt::Result {
        write!(
            f,
            "{} {} {} {} {} {} {}",
            self.kind.number(),
            self.line,
            self.class,
            self.index,
            self.value,
            self.place,
            self.length
        )
    }
}

// Four numbers: cause, line, node, place.
impl fmt::Display for ReadingFault {
    ghost output = { λ f. Some (reading_fault_text f) };

    fn fmt<W: fmt::Write>(&self, f: &mut fmt::Formatter<W>) -> fmt::Result {
        write!(
            f,
            "{} {} {} {}",
            self.cause.number(),
            self.line,
            self.node,
            self.place
        )
    }
}

// One sentence for each cause.
impl fmt::Display for ReadingCause {
    fn fmt<W: fmt::Write>(&self, f: &mut fmt::Formatter<W>) -> fmt::Result {
        f.write_str(sentence(*self))
    }
}

fn sentence(cause: ReadingCause) -> &'static str {
    match cause {
        ReadingCause::Unchecked => "the description was not checked",
        ReadingCause::SourceEnds => "the source has too few bits",
        ReadingCause::ObjectEnds => "the object has too few bits",
        ReadingCause::SkippedBits => "a bit skipped by alignment is not 0",
        ReadingCause::OutsideBounds => "a value is below its lowest or above its highest",
        ReadingCause::NoSuchIndex => "the map has no row with the index",
        ReadingCause::UnknownId => "an unknown id in a family that is not expandable",
        ReadingCause::Size => "a size has more than four bytes, or is above the greatest",
        ReadingCause::PastWindow => "an object ends past the end of what holds it",
        ReadingCause::TooFew => "there are fewer objects than the least",
        ReadingCause::BitsLeft => "eight or more bits are left at the end, or one that is not 0",
        ReadingCause::OutOfRange => "a number is out of range",
        ReadingCause::ZeroDivisor => "a divisor is 0",
        ReadingCause::BadOperand =>
            "a shift is outside 0 to 31, or an operand of & or | is negative",
        ReadingCause::WidthOrCount => "a width is outside 0 to 32, or a count outside 0 to 65,535",
        ReadingCause::TooManyRounds => "a while would go into another round past its most",
    }
}
