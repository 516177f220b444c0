ghost use Rattle.std.specs.Prelude.{◌≡◌};
ghost use Rattle.fields.specs.Nodes.{takes_name, is_operator, is_earlier, node_fine};

use crate::values::names_one;
use records::counts::Counts;
use records::records::Node;

// The kinds of node: what is no constant, name or size is an operator. They are numbers and no enum, since the rules
// here hold for numbers past the last operator too.
const CONSTANT: u16 = 1;

const NAME: u16 = 2;

const SIZE: u16 = 3;

const FIRST_OPERATOR: u16 = 4;

const LAST_OPERATOR: u16 = 20;

// Whether a node is the value of the name a.
pub fn takes_name(x: Node) -> bool
    ensures { result ≡ takes_name x }
{
    x.op == NAME
}

// Whether a node is an operator on the nodes a and b.
pub fn is_operator(x: Node) -> bool
    ensures { result ≡ is_operator x }
{
    x.op >= FIRST_OPERATOR
}

// Whether v is a node before node n.
fn is_earlier(v: u16, n: usize) -> bool
    ensures { result ≡ is_earlier v n }
{
    v != 0 && (v as usize) < n
}

// Whether the fields of node number n are fine.
pub fn node_fine(counts: Counts, n: usize, x: Node) -> bool
    ensures { result ≡ node_fine counts n x }
{
    match x.op {
        CONSTANT => true,
        NAME => names_one(x.a, counts.names) && x.b == 0,
        SIZE => x.a == 0 && x.b == 0,
        _ => { is_operator(x) && x.op <= LAST_OPERATOR && is_earlier(x.a, n) && is_earlier(x.b, n) }
    }
}
