ghost use Rattle.std.specs.Prelude.{◌≡◌, length};
ghost use Rattle.records.specs.declared.faults.Cause.TheVariants.{Field};
ghost use Rattle.table.specs.Description.{description};
ghost use Rattle.table.specs.Fields.{broken_at};
ghost use Rattle.table.specs.First.{first_upto};
ghost use Rattle.passes.specs.Naming.{named};
ghost use Rattle.checked.specs.Fields.{top_field_fault, field_fault};

use fields::tables::top_fine;
use passes::first::first;
use passes::naming::{named, of_top};
use records::counts::Counts;
use records::faults::{Cause, Fault, Table};
use table::loaded::Loaded;
use table::record::{Record, record_at};

// Whether the top class is not there, as a fault.
fn top_field_fault(loaded: &Loaded) -> Option<Fault>
    ensures { result ≡ top_field_fault (description loaded.now) }
{
    of_top(Cause::Field, !top_fine(loaded.counts(), loaded.top))
}

// The first record of a table that breaks the rule for its fields, whatever the kind.
pub fn first_broken<R: Record>(records: &[R], counts: Counts) -> Option<usize>
    ensures { result ≡ first_upto (broken_at (R.broken counts) R.none records.now) (length records.now) }
{
    first(records.len(), |n| record_at(records, n).breaks(counts, n))
}

// That record of a table, as a fault.
fn table_field_fault<R: Record>(table: Table, records: &[R], counts: Counts) -> Option<Fault>
    ensures { result ≡ named Field table (first_upto (broken_at (R.broken counts) R.none records.now) (length records.now)) }
{
    named(Cause::Field, table, first_broken(records, counts))
}

// The first record whose fields are not fine; any row will do.
pub fn field_fault(loaded: &Loaded) -> Option<Fault>
    ensures { result ≡ field_fault (description loaded.now) }
{
    let counts = loaded.counts();
    top_field_fault(loaded)
        .or_else(|| table_field_fault(Table::Classes, &loaded.classes, counts))
        .or_else(|| table_field_fault(Table::Names, &loaded.names, counts))
        .or_else(|| table_field_fault(Table::Extensions, &loaded.extensions, counts))
        .or_else(|| table_field_fault(Table::Lines, &loaded.lines, counts))
        .or_else(|| table_field_fault(Table::Nodes, &loaded.nodes, counts))
        .or_else(|| table_field_fault(Table::Maps, &loaded.maps, counts))
}
