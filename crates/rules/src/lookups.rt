// What readings and writings look up in a description.
ghost use Rattle.std.specs.Prelude.{◌≡◌, ◌+◌, ◌*◌, ◌≤◌};
ghost use Rattle.table.specs.Description.{description};
ghost use Rattle.rules.specs.Lookups.{greatest, output};
ghost use Rattle.rules.specs.Order.{used_by, declared_at};
ghost use Rattle.rules.specs.Steps.{id_width};

use records::records::{Class, Row};
use records::statements::Statement;
use table::loaded::Loaded;

// The greatest size of a plain class, or of the family of a base or member. No Option: above 0 is the record's own word
// for expandable, in the file and in the definitions.
pub fn greatest(tables: &Loaded, n: usize) -> u16
    ensures { result ≡ greatest (description tables.now) n }
{
    let class = tables.class(n);
    if class.is_member() {
        tables.class(class.base as usize).greatest
    } else {
        class.greatest
    }
}

// The width of the id of a declared class, 0 where it is no family. No Option: an id of no bits is read as any other.
pub fn id_width(declared: Class) -> u16
    ensures value { result ≡ id_width declared }
    ensures bound { result ≤ declared.width }
{
    if declared.is_base() {
        declared.width
    } else {
        0
    }
}

// The class that a line uses, 0 if none. No Option: records say none by 0, and a look-up of 0 is defined.
fn used_by(statement: Option<Statement>) -> u16
    ensures { result ≡ used_by statement }
{
    match statement {
        Some(Statement::Use(line)) => line.class,
        _ => 0,
    }
}

// The class that is declared at a line; line 0 is the top object's.
#[tactic(auto, unfolding(table::specs::Description::statement_at))]
pub fn declared_at(tables: &Loaded, line: u16) -> u16
    ensures { result ≡ declared_at (description tables.now) line }
{
    if line == 0 {
        return tables.top;
    }
    used_by(tables.statement(line as usize))
}

// The number of two halves.
pub(crate) fn of_halves(high: u16, low: u16) -> u32
    ensures { result ≡ high * 65536 + low }
{
    u32::from(high) * 65536 + u32::from(low)
}

// A row's output, in two's complement.
pub fn output(row: Row) -> i64
    ensures { result ≡ output row }
{
    let number = of_halves(row.high, row.low);
    i64::from(number.cast_signed())
}
