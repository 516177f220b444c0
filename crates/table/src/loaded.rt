ghost use Rattle.std.specs.Prelude.{◌≡◌, true, vec_len};
ghost use Rattle.table.specs.Limits.{within_limits};

use records::records::{Class, Extension, Line, Map, Name, Node, Row};

// A description as loaded, with nothing checked but how many records its tables have: the top class and the seven
// tables. What names a record holds its number, also where nodes name nodes: a node may have many users, and lines,
// faults and the file name nodes by number too, so boxed trees would still need the table.
#[derive(Drop)]
pub struct Loaded {
    pub top: u16,
    pub classes: Vec<Class>,
    pub names: Vec<Name>,
    pub extensions: Vec<Extension>,
    pub lines: Vec<Line>,
    pub nodes: Vec<Node>,
    pub maps: Vec<Map>,
    pub rows: Vec<Row>,
    ghost limited: { within_limits (vec_len classes) (vec_len names) (vec_len extensions) (vec_len lines) (vec_len nodes) (vec_len maps) (vec_len rows) ≡ true },
}
