ghost use Rattle.std.specs.Prelude.{◌≡◌, ◌<◌, ◌≤◌, false, length, slice_index_or};
ghost use Rattle.table.specs.Description.{description};
ghost use Rattle.table.specs.First.{first_upto, some_upto};
ghost use Rattle.owners.specs.Names.{may_not_take, takes_wrong, node_owner};

use crate::lines::LineClasses;
use crate::names::owned_by;
use crate::reach::{has_marked, reaching};
use fields::nodes::takes_name;
use passes::first::{first, some};
use table::loaded::Loaded;

// Whether line n, of class c, has a marked node in its fields and may not take the name.
fn may_not_take(loaded: &Loaded, marks: &[bool], c: usize, name: usize, n: usize) -> bool
    ensures { result ≡ may_not_take (description loaded.now) (λ v. slice_index_or marks.now v false) c name n }
{
    has_marked(marks, loaded.statement(n)) && !owned_by(loaded, c, name)
}

// Whether some line reaches node x, and may not take the name that it takes.
fn taken_wrongly(classes: &LineClasses, x: usize) -> bool
    requires { (0 < x) × (x ≤ length (description classes.now.loaded.now).nodes) }
    ensures { result ≡ some_upto (takes_wrong (description classes.now.loaded.now) x) (length (description classes.now.loaded.now).lines) }
{
    let loaded = classes.loaded;
    let marks = reaching(loaded, x);
    let name = loaded.node(x).a as usize;
    some(loaded.lines.len(), |n| {
        may_not_take(loaded, &marks, classes.class_of(n), name, n)
    })
}

// Whether node x takes a name which is not its line's to take.
fn node_owner(classes: &LineClasses, x: usize) -> bool
    ensures { result ≡ node_owner (description classes.now.loaded.now) x }
{
    takes_name(classes.loaded.node(x)) && taken_wrongly(classes, x)
}

// The first node that takes a name which is not its line's to take.
pub fn first_taken_wrongly(loaded: &Loaded) -> Option<usize>
    ensures { result ≡ first_upto (node_owner (description loaded.now)) (length (description loaded.now).nodes) }
{
    let classes = LineClasses::of(loaded);
    first(loaded.nodes.len(), |x| node_owner(&classes, x))
}
