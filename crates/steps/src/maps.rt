ghost use Rattle.std.specs.Prelude.{◌≡◌, ◌+◌, ◌<◌, ◌≤◌, IfOk};
ghost use Rattle.table.specs.Description.{Description};
ghost use Rattle.rules.specs.Lookups.{find_row};
ghost use Rattle.rules.specs.Steps.{mapped};
ghost use Rattle.steps.specs.Took.{Took};

use crate::view::View;
use bits::source::Source;
use records::records::{Map, Row};
use records::stretches::Stretch;
use rules::faults::{Failure, ReadingCause};
use rules::lookups::output;
use rules::steps::Got;
use table::record::record_at;

// The output of the row with an index, among the rows of a stretch. By number, since a row past the table counts as
// one whose index is 0.
pub fn find_row(rows: &[Row], stretch: Stretch, index: u64) -> Result<i64, Failure>
    ensures { (d : Description) → d.rows ≡ rows.now → result ≡ find_row d stretch.first stretch.number index }
{
    (0..stretch.number as usize)
        .map(|i| record_at(rows, stretch.first as usize + i))
        .find(|row| u64::from(row.index) == index)
        .map(output)
        .ok_or(ReadingCause::NoSuchIndex.into())
}

impl<S: Source> View<'_, S> {
    // A map read: the index, and its row's output.
    pub fn map_read(&self, rows: &[Row], map: Map, p: u32) -> Result<Got, Failure>
        requires width { map.width ≤ 32 }
        ensures value { (d : Description) → d.rows ≡ rows.now → result ≡ mapped (S.bits self.now.source.now) self.now.window map.width (find_row d map.first map.number) p }
        ensures bound { IfOk result (λ g. Took p self.now.window.end g.place g.length g.after) }
    {
        let length = u32::from(map.width);
        let index = self.taken(length, p)?;
        let value = find_row(rows, Stretch::from(map), index)?;
        Ok(Got {
            value,
            place: p,
            length,
            after: p + length,
        })
    }
}
