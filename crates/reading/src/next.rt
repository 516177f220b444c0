// What a reading hands out.
ghost use Rattle.table.specs.Description.{description};
ghost use Rattle.objects.specs.Ahead.{Readable};
ghost use Rattle.reading.specs.Calls.{Opened, NextCalled, FillCalled, PositionAsked};

use crate::positions::item_end;
use crate::state::Reading;
use crate::walk::{Answer, Walk};
use bits::source::Source;
use checked::checked::Checked;
use rules::faults::ReadingFault;
use rules::items::Item;
use table::loaded::Loaded;

// How a table was filled. No `Result<bool, ReadingFault>`: whether `true` says full or at the end would have to be
// learnt, and here each of the three ways has its name.
#[derive(Clone, Copy)]
pub enum Filled {
    // there was no more room
    Full,
    // the reading has come to its end
    End,
    // the source is refused
    Refused(ReadingFault),
}

impl<'d, S: Source> Reading<'d, S> {
    // A reading of a source by a checked description.
    pub fn open(checked: &'d Checked, source: S) -> Reading<'d, S>
        ensures { Opened S.bits (description checked.now.loaded) (S.bits source) result }
    {
        Reading::begin(checked.tables(), source)
    }

    // A reading of a source, at its beginning.
    fn begin(tables: &'d Loaded, source: S) -> Reading<'d, S>
        requires { Readable (description tables.now) }
        ensures { Opened S.bits (description tables.now) (S.bits source) result }
    {
        Reading {
            tables,
            source,
            walk: Walk::new(),
            fault: None,
            last: None,
        }
    }
}

impl<S: Source> Reading<'_, S> {
    // The next item, or none at the end, or why the source is refused.
    pub fn next(&mut self) -> Answer
        ensures { NextCalled S.bits self.old result self.new }
    {
        if let Some(fault) = self.fault {
            return Err(fault);
        }
        loop {
            if let Some(answer) = self.walk.step(&self.source, self.tables) {
                match answer {
                    Ok(Some(item)) => self.last = Some(item),
                    Ok(None) => {}
                    Err(fault) => self.fault = Some(fault),
                }
                return answer;
            }
        }
    }

    // Where the bits of the last item end, 0 before any.
    pub fn position(&self) -> u64
        ensures { PositionAsked S.bits self.now result }
    {
        match self.last {
            None => 0,
            Some(item) => item_end(&self.source, self.tables, item),
        }
    }

    // Hands items out into a table until it is full, which is tested first, or the reading ends or is refused.
    // Answers how many.
    pub fn fill(&mut self, table: &mut [Item]) -> (usize, Filled)
        ensures { FillCalled S.bits self.old table.old result.0 result.1 table.new self.new }
    {
        for (count, slot) in table.iter_mut().enumerate() {
            match self.next() {
                Ok(Some(item)) => *slot = item,
                Ok(None) => return (count, Filled::End),
                Err(fault) => return (count, Filled::Refused(fault)),
            }
        }
        (table.len(), Filled::Full)
    }
}
