ghost use Rattle.std.specs.Prelude.{◌≡◌, ℕ, Bool};
ghost use Rattle.table.specs.First.{first_upto};
ghost use Rattle.passes.specs.Naming.{named, of_top};
ghost use Rattle.table.specs.Tests.{Answers};

use crate::first::first;
use records::faults::{Cause, Fault, Table};

// The fault that names a record, if there is one.
pub fn named(cause: Cause, table: Table, found: Option<usize>) -> Option<Fault>
    ensures { result ≡ named cause table found }
{
    found.map(|record| Fault {
        cause,
        table,
        record,
    })
}

// The fault of the top class, if it has one.
pub fn of_top(cause: Cause, broken: bool) -> Option<Fault>
    ensures { result ≡ of_top cause broken }
{
    broken.then(|| Fault::of_file(cause))
}

// The fault that names the first record of a table, of those numbered 1 to `count`, that passes the test.
pub fn pass<F: Fn(usize) -> bool>(
    cause: Cause,
    table: Table,
    count: usize,
    test: F,
) -> Option<Fault>
    requires { F.IsAlwaysCallable test }
    ensures { (p : ℕ → Bool) → Answers F.post test p → result ≡ named cause table (first_upto p count) }
{
    named(cause, table, first(count, test))
}
