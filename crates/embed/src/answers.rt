// What crosses to a program in another language. An enum can't, so the numbers of docs/REFUSALS.md stand for one.
ghost use Rattle.std.specs.Prelude.{◌≡◌};
ghost use Rattle.embed.specs.Numbers.{check_of, fault_of, flat, item_with};

use records::faults::Fault;
use rules::faults::ReadingFault;
use rules::items::{Item, Kind};

// How a description was checked: the fault's numbers, or three times 0 where it is accepted.
#[repr(C)]
#[derive(Clone, Copy)]
pub struct CheckAnswer {
    pub record: u64,
    pub cause: u32,
    pub table: u32,
}

// The answer for a description that is accepted.
pub(crate) const ACCEPTED: CheckAnswer = CheckAnswer {
    record: 0,
    cause: 0,
    table: 0,
};

impl From<Fault> for CheckAnswer {
    ghost from_gives = { λ fault answer. answer ≡ check_of fault };

    fn from(fault: Fault) -> CheckAnswer {
        CheckAnswer {
            record: fault.record as u64,
            cause: u32::from(fault.cause.number()),
            table: u32::from(fault.table.number()),
        }
    }
}

// How a reading ended: the fault's numbers, or four times 0 at the end.
#[repr(C)]
#[derive(Clone, Copy)]
pub struct FaultAnswer {
    pub cause: u32,
    pub line: u32,
    pub node: u32,
    pub place: u32,
}

// The answer for a reading that came to its end, or goes on.
pub(crate) const NO_FAULT: FaultAnswer = FaultAnswer {
    cause: 0,
    line: 0,
    node: 0,
    place: 0,
};

impl From<ReadingFault> for FaultAnswer {
    ghost from_gives = { λ fault answer. answer ≡ fault_of fault };

    fn from(fault: ReadingFault) -> FaultAnswer {
        FaultAnswer {
            cause: u32::from(fault.cause.number()),
            line: u32::from(fault.line),
            node: u32::from(fault.node),
            place: fault.place,
        }
    }
}

// An item, as seven numbers.
#[repr(C)]
#[derive(Clone, Copy)]
pub struct FlatItem {
    pub kind: u16,
    pub line: u16,
    pub class: u16,
    pub index: u16,
    pub value: i64,
    pub place: u32,
    pub length: u32,
}

impl From<Item> for FlatItem {
    ghost from_gives = { λ item answer. answer ≡ flat item };

    fn from(item: Item) -> FlatItem {
        FlatItem {
            kind: item.kind.number(),
            line: item.line,
            class: item.class,
            index: item.index,
            value: item.value,
            place: item.place,
            length: item.length,
        }
    }
}

impl FlatItem {
    // The item with these numbers, or none where no kind has the first.
    pub(crate) fn item(self) -> Option<Item>
        ensures { result ≡ item_with self }
    {
        match Kind::try_from(self.kind) {
            Ok(kind) => Some(Item {
                kind,
                line: self.line,
                class: self.class,
                index: self.index,
                value: self.value,
                place: self.place,
                length: self.length,
            }),
            Err(_) => None,
        }
    }
}
