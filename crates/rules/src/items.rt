ghost use Rattle.std.specs.Prelude.{◌≡◌};
ghost use Rattle.std.specs.Option.{ok_or};
ghost use Rattle.rules.specs.Numbers.{kind_number, kind_with};

use thiserror::Error;

// The kinds of item.
#[derive(Clone, Copy, PartialEq, Eq, Debug)]
pub enum Kind {
    // a value was read
    Value = 1,
    // an object begins
    Open = 2,
    // an object ends
    Close = 3,
}

impl Kind {
    // The number by which users know the kind.
    pub fn number(self) -> u16
        ensures { result ≡ kind_number self }
    {
        self as u16
    }
}

// A number that no kind of item has.
#[derive(Clone, Copy, PartialEq, Eq, Debug, Error)]
#[error("no kind of item has the number {number}")]
pub struct UnknownKind {
    pub number: u16,
}

// The kind with a number.
impl TryFrom<u16> for Kind {
    type Error = UnknownKind;

    ghost try_from_gives = { λ number result. result ≡ ok_or (kind_with number) (record { number = number }) };

    fn try_from(number: u16) -> Result<Kind, UnknownKind> {
        match number {
            1 => Ok(Kind::Value),
            2 => Ok(Kind::Open),
            3 => Ok(Kind::Close),
            _ => Err(UnknownKind { number }),
        }
    }
}

// What a reading hands out.
#[derive(Clone, Copy, PartialEq, Eq, Debug)]
pub struct Item {
    pub kind: Kind,
    // the line that reads the value or uses the object; 0 for the top object
    pub line: u16,
    // the class of the object, of a value the class of the object around it; 0 where the id is unknown
    pub class: u16,
    // which of the elements of its line, from 0
    pub index: u16,
    // the value read, an open's id; else 0
    pub value: i64,
    // where the bits stand, counted from the source's start, of a close the place after the object
    pub place: u32,
    // a value's bits; of an open the object's size in bytes, 0 if it has none; of a close 0
    pub length: u32,
}
