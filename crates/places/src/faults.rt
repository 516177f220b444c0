ghost use Rattle.std.specs.Prelude.{◌≡◌};
ghost use Rattle.table.specs.Description.{description};
ghost use Rattle.places.specs.Faults.{top_place_fault, class_place_fault, extension_place_fault, line_place_fault, row_place_fault, place_fault};

use crate::classes::class_place;
use crate::rows::row_place;
use crate::uses::{extension_place, line_place, top_wrong};
use passes::naming::{of_top, pass};
use records::faults::{Cause, Fault, Table};
use table::loaded::Loaded;

// Each rule has a function of its own, since each has its own definition to be equal to.

// Whether the top class is a member, as a fault.
fn top_place_fault(loaded: &Loaded) -> Option<Fault>
    ensures { result ≡ top_place_fault (description loaded.now) }
{
    of_top(Cause::Place, top_wrong(loaded))
}

// The first class with something that is where it does not belong.
fn class_place_fault(loaded: &Loaded) -> Option<Fault>
    ensures { result ≡ class_place_fault (description loaded.now) }
{
    pass(Cause::Place, Table::Classes, loaded.classes.len(), |n| {
        class_place(loaded, n)
    })
}

// The first extension of a base, or of what is not expandable.
fn extension_place_fault(loaded: &Loaded) -> Option<Fault>
    ensures { result ≡ extension_place_fault (description loaded.now) }
{
    pass(
        Cause::Place,
        Table::Extensions,
        loaded.extensions.len(),
        |n| { extension_place(loaded, n) },
    )
}

// The first line that is where it does not belong.
fn line_place_fault(loaded: &Loaded) -> Option<Fault>
    ensures { result ≡ line_place_fault (description loaded.now) }
{
    pass(Cause::Place, Table::Lines, loaded.lines.len(), |n| {
        line_place(loaded, n)
    })
}

// The first row whose index is too wide, or repeated.
fn row_place_fault(loaded: &Loaded) -> Option<Fault>
    ensures { result ≡ row_place_fault (description loaded.now) }
{
    pass(Cause::Place, Table::Rows, loaded.rows.len(), |n| {
        row_place(loaded, n)
    })
}

// The first of what is where it does not belong.
pub fn place_fault(loaded: &Loaded) -> Option<Fault>
    ensures { result ≡ place_fault (description loaded.now) }
{
    top_place_fault(loaded)
        .or_else(|| class_place_fault(loaded))
        .or_else(|| extension_place_fault(loaded))
        .or_else(|| line_place_fault(loaded))
        .or_else(|| row_place_fault(loaded))
}
