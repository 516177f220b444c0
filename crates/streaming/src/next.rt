// Opening a streaming reading, and going on by the bytes that it is lent.
ghost use Rattle.std.specs.Prelude.{◌≡◌, ◌≤◌, List, Bool, None, length};
ghost use Rattle.bits.specs.Make.{most_bytes};
ghost use Rattle.table.specs.Description.{Description, description};
ghost use Rattle.objects.specs.Ahead.{Readable};
ghost use Rattle.streaming.specs.Calls.{Opened, OpenCalled, NextCalled, wanted_by, covers};
ghost use Rattle.streaming.specs.Histories.{HandsOut};

use crate::page::Page;
use crate::state::{Streaming, Wanted};
use bits::bytes::MOST_BYTES;
use bits::refusal::Refusal;
use checked::checked::Checked;
use reading::walk::{Answer, Walk};
use rules::faults::ReadingFault;
use table::loaded::Loaded;

// As many bits as a step looks at from where it begins, at most.
const REACH: u32 = 65_567;

impl<'d> Streaming<'d> {
    // A reading by a checked description of a stream of so many bytes. Refuses `TooLong` where there are more than any
    // source has. The law says what any history of calls comes to.
    pub fn open(checked: &'d Checked, bytes: u64) -> Result<Streaming<'d>, Refusal>
        ensures called { OpenCalled (description checked.now.loaded) bytes result }
        ensures law { (d : Description) (bits : List Bool) → HandsOut d bits }
    {
        if bytes > MOST_BYTES as u64 {
            return Err(Refusal::TooLong);
        }
        Ok(Streaming::begin(checked.tables(), bytes as u32))
    }

    // A reading at its beginning.
    fn begin(tables: &'d Loaded, total: u32) -> Streaming<'d>
        requires readable { Readable (description tables.now) }
        requires few { total ≤ most_bytes }
        ensures { Opened (description tables.now) total result }
    {
        Streaming {
            tables,
            total,
            walk: Walk::new(),
            fault: None,
        }
    }
}

impl Streaming<'_> {
    // The bytes of the stream that the next step may look at.
    pub fn wanted(&self) -> Wanted
        ensures { result ≡ wanted_by self.now }
    {
        let place = self.walk.place();
        Wanted {
            first: (place / 8).min(self.total),
            end: ((place + REACH + 7) / 8).min(self.total),
        }
    }

    // Whether so many bytes from number `first` on are among the stream's, and all that are wanted.
    fn is_enough(&self, first: u32, count: u32) -> bool
        ensures { result ≡ covers self.now first count }
    {
        let wanted = self.wanted();
        let end = u64::from(first) + u64::from(count);
        first <= wanted.first && u64::from(wanted.end) <= end && end <= u64::from(self.total)
    }

    // The next item, or none at the end, or why the stream is refused, by the bytes of a page; nothing where it wants
    // others.
    fn pull(&mut self, page: &Page) -> Option<Answer>
        requires sound { self.old.fault ≡ None }
        requires same { page.now.total ≡ self.old.total }
        ensures { NextCalled page.now.first page.now.bytes.now self.old result self.new }
    {
        while self.is_enough(page.first(), page.count()) {
            if let Some(answer) = self.walk.step(page, self.tables) {
                match answer {
                    Ok(item) => return Some(Ok(item)),
                    Err(fault) => {
                        self.fault = Some(fault);
                        return Some(Err(fault));
                    }
                }
            }
        }
        None
    }

    // The next item, or none at the end, or why the stream is refused, by some bytes of the stream from number `first`
    // on. Answers nothing where these are not all that are wanted, or not all in the stream.
    pub fn next(&mut self, first: u32, bytes: &[u8]) -> Option<Answer>
        ensures { NextCalled first bytes.now self.old result self.new }
    {
        if let Some(fault) = self.fault {
            return Some(Err(fault));
        }
        let page = Page::new(self.total, first, bytes)?;
        self.pull(&page)
    }
}
