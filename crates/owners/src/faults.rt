ghost use Rattle.std.specs.Prelude.{◌≡◌};
ghost use Rattle.table.specs.Description.{description};
ghost use Rattle.owners.specs.Faults.{rank_fault, line_owner_fault, node_owner_fault, owner_fault};

use crate::names::line_owner;
use crate::nodes::first_taken_wrongly;
use crate::ranks::line_rank;
use passes::naming::{named, pass};
use records::faults::{Cause, Fault, Table};
use table::loaded::Loaded;

// Each rule has a function of its own, since each has its own definition to be equal to.

// The first line that uses what does not rank below its class.
pub fn rank_fault(loaded: &Loaded) -> Option<Fault>
    ensures { result ≡ rank_fault (description loaded.now) }
{
    pass(Cause::Rank, Table::Lines, loaded.lines.len(), |n| {
        line_rank(loaded, n)
    })
}

// The first line that has a name in its fields which is not its to take.
fn line_owner_fault(loaded: &Loaded) -> Option<Fault>
    ensures { result ≡ line_owner_fault (description loaded.now) }
{
    pass(Cause::Owner, Table::Lines, loaded.lines.len(), |n| {
        line_owner(loaded, n)
    })
}

// The first node that takes a name which is not its line's to take.
fn node_owner_fault(loaded: &Loaded) -> Option<Fault>
    ensures { result ≡ node_owner_fault (description loaded.now) }
{
    named(Cause::Owner, Table::Nodes, first_taken_wrongly(loaded))
}

// The first of the lines, else of the nodes.
pub fn owner_fault(loaded: &Loaded) -> Option<Fault>
    ensures { result ≡ owner_fault (description loaded.now) }
{
    line_owner_fault(loaded).or_else(|| node_owner_fault(loaded))
}
