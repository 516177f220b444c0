ghost use Rattle.std.specs.Prelude.{◌≡◌};
ghost use Rattle.table.specs.Description.{description};
ghost use Rattle.blocks.specs.Faults.{outside_fault, stretch_fault, line_depth_fault, node_depth_fault, depth_fault};

use crate::deep::node_depth;
use crate::holders::{line_depth, line_stretch};
use crate::stretches::{in_one, some_unsound};
use passes::naming::pass;
use records::faults::{Cause, Fault, Table};
use table::loaded::Loaded;

// Each rule has a function of its own, since each has its own definition to be equal to.

// The first line that is not in exactly one stretch.
fn outside_fault(loaded: &Loaded) -> Option<Fault>
    ensures { result ≡ outside_fault (description loaded.now) }
{
    pass(Cause::Stretch, Table::Lines, loaded.lines.len(), |n| {
        !in_one(loaded, n)
    })
}

// The first line that is not in exactly one stretch, or has a block past what holds it, line by line.
fn line_stretch_fault(loaded: &Loaded) -> Option<Fault>
    ensures { result ≡ stretch_fault (description loaded.now) }
{
    pass(Cause::Stretch, Table::Lines, loaded.lines.len(), |n| {
        line_stretch(loaded, n)
    })
}

// The same answer, found faster: where every stretch is a sound block, no block runs past what holds it.
pub fn stretch_fault(loaded: &Loaded) -> Option<Fault>
    ensures { result ≡ stretch_fault (description loaded.now) }
{
    if some_unsound(loaded) {
        return line_stretch_fault(loaded);
    }
    outside_fault(loaded)
}

// The first line whose blocks nest too deep.
fn line_depth_fault(loaded: &Loaded) -> Option<Fault>
    ensures { result ≡ line_depth_fault (description loaded.now) }
{
    pass(Cause::Depth, Table::Lines, loaded.lines.len(), |n| {
        line_depth(loaded, n)
    })
}

// The first node that is too deep.
fn node_depth_fault(loaded: &Loaded) -> Option<Fault>
    ensures { result ≡ node_depth_fault (description loaded.now) }
{
    pass(Cause::Depth, Table::Nodes, loaded.nodes.len(), |n| {
        node_depth(loaded, n)
    })
}

// The first of the lines, else of the nodes.
pub fn depth_fault(loaded: &Loaded) -> Option<Fault>
    ensures { result ≡ depth_fault (description loaded.now) }
{
    line_depth_fault(loaded).or_else(|| node_depth_fault(loaded))
}
