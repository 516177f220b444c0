ghost use Rattle.std.specs.Prelude.{◌≡◌};
ghost use Rattle.table.specs.Description.{description, counts_of, class_at, name_at, extension_at, line_at, node_at, map_at, row_at, statement_at};

use crate::loaded::Loaded;
use crate::record::record_at;
use records::counts::Counts;
use records::records::{Class, Extension, Line, Map, Name, Node, Row};
use records::statements::Statement;

// One look-up for each table: what a caller names is the table, and what it learns is the definition for that table. As
// `record_at(&loaded.classes, n)` a look-up says its table and its kind, but not the description that the rules speak of.
impl Loaded {
    // How many records each table has.
    pub fn counts(&self) -> Counts
        ensures { result ≡ counts_of (description self.now) }
    {
        Counts {
            classes: self.classes.len() as u16,
            names: self.names.len() as u16,
            extensions: self.extensions.len() as u16,
            lines: self.lines.len() as u16,
            nodes: self.nodes.len() as u16,
            maps: self.maps.len() as u16,
            rows: self.rows.len() as u16,
        }
    }

    // Line number n with its fields by name, none where there is no such kind.
    pub fn statement(&self, n: usize) -> Option<Statement>
        ensures { result ≡ statement_at (description self.now) n }
    {
        Statement::try_from(self.line(n)).ok()
    }

    // Class number n.
    pub fn class(&self, n: usize) -> Class
        ensures { result ≡ class_at (description self.now) n }
    {
        record_at(&self.classes, n)
    }

    // Name number n.
    pub fn name(&self, n: usize) -> Name
        ensures { result ≡ name_at (description self.now) n }
    {
        record_at(&self.names, n)
    }

    // Extension number n.
    pub fn extension(&self, n: usize) -> Extension
        ensures { result ≡ extension_at (description self.now) n }
    {
        record_at(&self.extensions, n)
    }

    // Line number n.
    pub fn line(&self, n: usize) -> Line
        ensures { result ≡ line_at (description self.now) n }
    {
        record_at(&self.lines, n)
    }

    // Node number n.
    pub fn node(&self, n: usize) -> Node
        ensures { result ≡ node_at (description self.now) n }
    {
        record_at(&self.nodes, n)
    }

    // Map number n.
    pub fn map(&self, n: usize) -> Map
        ensures { result ≡ map_at (description self.now) n }
    {
        record_at(&self.maps, n)
    }

    // Row number n.
    pub fn row(&self, n: usize) -> Row
        ensures { result ≡ row_at (description self.now) n }
    {
        record_at(&self.rows, n)
    }
}
