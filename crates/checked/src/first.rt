ghost use Rattle.std.specs.Prelude.{◌≡◌};
ghost use Rattle.table.specs.Description.{description};
ghost use Rattle.checked.specs.Check.{first_fault};
ghost use Rattle.checked.specs.Law.{rules, Says};

use crate::field_faults::field_fault;
use blocks::faults::{depth_fault, stretch_fault};
use owners::faults::{owner_fault, rank_fault};
use places::faults::place_fault;
use records::faults::Fault;
use table::loaded::Loaded;

// The first fault by its cause, table and record, rule by rule.
fn by_rules(loaded: &Loaded) -> Option<Fault>
    ensures { result ≡ first_fault (description loaded.now) }
{
    field_fault(loaded)
        .or_else(|| stretch_fault(loaded))
        .or_else(|| depth_fault(loaded))
        .or_else(|| rank_fault(loaded))
        .or_else(|| owner_fault(loaded))
        .or_else(|| place_fault(loaded))
}

// The first fault of a description, or none where no rule is broken.
pub fn first_fault(loaded: &Loaded) -> Option<Fault>
    ensures value { result ≡ first_fault (description loaded.now) }
    ensures law { Says (rules (description loaded.now)) result }
{
    by_rules(loaded)
}
