ghost use Rattle.std.specs.Prelude.{◌≡◌};
ghost use Rattle.rules.specs.Numbers.{reading_cause_number};
ghost use Rattle.rules.specs.Checks.{fault};

// Why a reading ends in a fault.
#[derive(Clone, Copy, PartialEq, Eq, Debug)]
pub enum ReadingCause {
    // the description was not checked: an operand is no earlier node, or objects nest too deep
    Unchecked = 0,
    // the source has too few bits
    SourceEnds = 11,
    // the object that is the window has too few bits
    ObjectEnds = 12,
    // a bit skipped by alignment is not 0
    SkippedBits = 13,
    // a value below its lowest or above its highest
    OutsideBounds = 14,
    // the map has no row with the index
    NoSuchIndex = 15,
    // an unknown id in a family that is not expandable
    UnknownId = 16,
    // a size over four bytes, or above the greatest
    Size = 17,
    // the object runs past the window's end
    PastWindow = 18,
    // fewer objects than the least
    TooFew = 19,
    // bits are left at the end
    BitsLeft = 20,
    // a number out of range
    OutOfRange = 21,
    // a divisor is 0
    ZeroDivisor = 22,
    // a shift outside 0 to 31, or a negative operand of & or |
    BadOperand = 23,
    // a width outside 0 to 32, or a count outside 0 to 65,535
    WidthOrCount = 24,
    // another round past the most
    TooManyRounds = 25,
}

impl ReadingCause {
    // The number by which users know the cause.
    pub fn number(self) -> u16
        ensures { result ≡ reading_cause_number self }
    {
        self as u16
    }
}

// What a step fails with: the cause, and the node that fails where it lies in an operator, else 0. No Option: the node
// is one of the four numbers by which users know a fault, where 0 names none.
#[derive(Clone, Copy, PartialEq, Eq, Debug)]
pub struct Failure {
    pub cause: ReadingCause,
    pub node: u16,
}

// A failure that lies in no operator.
impl From<ReadingCause> for Failure {
    ghost from_gives = { λ cause failure. failure ≡ record { cause = cause; node = 0 } };

    fn from(cause: ReadingCause) -> Failure {
        Failure { cause, node: 0 }
    }
}

impl Failure {
    // The fault of a line whose step failed at a place.
    pub fn at(self, line: u16, place: u32) -> ReadingFault
        ensures { result ≡ fault self.cause line self.node place }
    {
        ReadingFault {
            cause: self.cause,
            line,
            node: self.node,
            place,
        }
    }
}

// How a reading is refused: the cause, the line, the node of an operator's failure, and the place where the failing
// element began.
#[derive(Clone, Copy, PartialEq, Eq, Debug)]
pub struct ReadingFault {
    pub cause: ReadingCause,
    pub line: u16,
    pub node: u16,
    pub place: u32,
}
