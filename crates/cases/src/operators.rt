// Cases of one operator each. A description has three lines: the first two read the operands into names 1 and 2, and
// the third reads a number that has to be the value of node 4, the operator's, since that is both its lowest and its
// highest.
use crate::by_line::{description_of, item_of};
use crate::digits::digit;
use crate::tally::Tally;
use anyhow::Context;
use checked::checked::Checked;
use records::statements::{ReadLine, Statement};
use rules::faults::{Failure, ReadingCause, ReadingFault};
use rules::items::{Item, Kind};
use std::alloc::{AllocError, Global};
use std::fs;
use values::evaluate::Scope;

// The node of the operator.
const OPERATOR: u16 = 4;

// The line that reads its value, and where it reads.
const LINE: u16 = 3;

const PLACE: u32 = 64;

// One case as far as it was read.
#[derive(Drop)]
struct Case {
    description: Option<Checked>,
    // the operands
    first: i64,
    second: i64,
    // the number that the third line reads, if it is unsigned
    third: u32,
}

// Runs the cases of operators.txt by evaluation alone, and prints which differ and how many there are.
pub(crate) fn run(rt: &HostRuntime) -> anyhow::Result<()> {
    let text = fs::read_to_string(rt, "operators.txt")?;
    let mut case = Case {
        description: None,
        first: 0,
        second: 0,
        third: 0,
    };
    let mut tally = Tally::default();
    for line in text.as_str().lines() {
        if line.starts_with("case") {
            tally.begin();
        } else if !case.take(rt.alloc(), line)? {
            let number = tally.differs();
            println!(rt; "operators.txt, case {number} differs")?;
        }
    }
    println!(rt; "operators.txt, by evaluation: {tally}")?;
    Ok(())
}

impl Case {
    // Takes one line of the case. False where it is the answer of the third line, and another one is worked out.
    fn take(&mut self, heap: Global, line: &str) -> anyhow::Result<bool> {
        if let Some(text) = line.strip_prefix("description ") {
            self.description = Some(description_of(heap, text)?);
        } else if let Some(text) = line.strip_prefix("bits 96 ") {
            self.third = third_number(text)?;
        } else if line.starts_with("1 1 ") {
            self.first = item_of(heap, line)?.value;
        } else if line.starts_with("1 2 ") {
            self.second = item_of(heap, line)?.value;
        } else if line.starts_with("1 3 ") || line.starts_with("refused ") {
            let answer = shown(heap, self.answer()?)?;
            return Ok(answer.as_str() == line);
        }
        Ok(true)
    }

    // What the third line gives, by the value of the operator.
    fn answer(&self) -> anyhow::Result<Result<Item, ReadingFault>> {
        let description = self
            .description
            .as_ref()
            .context("a case without a description")?;
        let tables = description.tables();
        let line = tables
            .statement(LINE as usize)
            .context("a case with fewer than three lines")?;
        let read = if matches!(line, Statement::Read(ReadLine { signed: true, .. })) {
            i64::from(self.third.cast_signed())
        } else {
            i64::from(self.third)
        };
        let names = [self.first, self.second];
        let scope = Scope {
            nodes: tables.nodes.as_slice(),
            names: &names,
            size: 0,
        };
        Ok(third_line(scope.value(OPERATOR), read))
    }
}

// What the third line gives where it reads a number: an item if that is the value, else a fault.
fn third_line(value: Result<i64, Failure>, read: i64) -> Result<Item, ReadingFault> {
    let value = value.map_err(|failure| failure.at(LINE, PLACE))?;
    if value != read {
        return Err(Failure::from(ReadingCause::OutsideBounds).at(LINE, PLACE));
    }
    Ok(Item {
        kind: Kind::Value,
        line: LINE,
        class: 1,
        index: 0,
        value,
        place: PLACE,
        length: 32,
    })
}

// An answer as the cases write it.
fn shown(heap: Global, answer: Result<Item, ReadingFault>) -> Result<String, AllocError> {
    match answer {
        Ok(item) => format!(in heap; "{item}"),
        Err(fault) => format!(in heap; "refused {fault}"),
    }
}

// The number that the hexadecimal digits after those of the operands write.
fn third_number(text: &str) -> anyhow::Result<u32> {
    let mut number = 0u32;
    for c in text.bytes().skip(16) {
        let value = digit(c).context("not hexadecimal")?;
        number = number.wrapping_mul(16).wrapping_add(u32::from(value));
    }
    Ok(number)
}
