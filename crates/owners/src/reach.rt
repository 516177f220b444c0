ghost use Rattle.std.specs.Prelude.{◌≡◌, ℕ, ◌<◌, ◌≤◌, false, ◌&&◌, length, get_or, nat_lt, slice_index_or};
ghost use Rattle.table.specs.Description.{description};
ghost use Rattle.owners.specs.Reach.{reaches_by, reaches, line_has};

use fields::nodes::is_operator;
use records::statements::Statement;
use table::loaded::Loaded;

// One more than the most nodes that there are.
const NODES: usize = 257;

// How many nodes there are.
fn node_count(loaded: &Loaded) -> usize
    ensures value { result ≡ length (description loaded.now).nodes }
    ensures bound { result ≤ 256 }
{
    loaded.nodes.len()
}

// Whether node r is marked; none past the marks is.
fn marked(marks: &[bool], r: u16) -> bool
    ensures { result ≡ slice_index_or marks.now r false }
{
    marks.get(r as usize).copied().unwrap_or(false)
}

// Whether node v is before node r, and marked.
fn marked_before(marks: &[bool], v: u16, r: usize) -> bool
    ensures { result ≡ (nat_lt v r && slice_index_or marks.now v false) }
{
    (v as usize) < r && marked(marks, v)
}

// Whether node r is node x, or an operator on a marked earlier node.
fn marks_next(loaded: &Loaded, marks: &[bool], x: usize, r: usize) -> bool
    ensures { result ≡ reaches_by (λ v. get_or marks.now v false) (description loaded.now) x r }
{
    let node = loaded.node(r);
    r == x
        || is_operator(node) && (marked_before(marks, node.a, r) || marked_before(marks, node.b, r))
}

// Which nodes are, or are worked out from, node x: a loop, as each mark is told from those before it, over a fixed
// array, as the check allocates nothing and so cannot fail.
pub(crate) fn reaching(loaded: &Loaded, x: usize) -> [bool; NODES]
    requires { (0 < x) × (x ≤ length (description loaded.now).nodes) }
    ensures { (r : ℕ) → slice_index_or result r false ≡ reaches (description loaded.now) x r }
{
    let mut marks = [false; NODES];
    for i in 0..node_count(loaded) {
        marks[i + 1] = marks_next(loaded, &marks, x, i + 1);
    }
    marks
}

// Whether a line has a marked node in its fields.
pub(crate) fn has_marked(marks: &[bool], s: Option<Statement>) -> bool
    ensures { result ≡ line_has (λ r. get_or marks.now r false) s }
{
    match s {
        Some(Statement::Read(line)) => {
            marked(marks, line.width)
                || marked(marks, line.count)
                || marked(marks, line.lowest)
                || marked(marks, line.highest)
        }
        Some(
            Statement::Assign { node, .. }
            | Statement::If { node, .. }
            | Statement::While { node, .. },
        ) => marked(marks, node),
        Some(Statement::Use(line)) => marked(marks, line.count),
        Some(Statement::MapRead { .. }) | None => false,
    }
}
