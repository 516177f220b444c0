// The seven kinds of record, with an impl each: the fields, their places in the file and their rule are its own, and
// there is no more in it. Ghost members that are alike are written out too: a macro takes no ghost item.
ghost use Rattle.std.proofs.Common.{rules};
ghost use Rattle.table.specs.Kinds.{class_of, name_of, extension_of, line_of, node_of, map_of, row_of};
ghost use Rattle.table.specs.Description.{no_class, no_name, no_extension, no_line, no_node, no_map, no_row};
ghost use Rattle.table.specs.Fields.{class_broken, name_broken, extension_broken, line_broken, node_broken, map_broken, row_broken};

use crate::record::{Record, word};
use fields::lines::line_fine;
use fields::nodes::node_fine;
use fields::tables::{class_fine, extension_fine, map_fine, name_fine};
use records::counts::Counts;
use records::records::{Class, Extension, Line, Map, Name, Node, Row};

impl Record for Class {
    const FIELDS: usize = 10;

    ghost FIELDS = { 10 };

    ghost decoded = { class_of };

    ghost none = { no_class };

    ghost broken = { class_broken };

    fn read(bytes: &[u8], at: usize) -> Class {
        Class {
            kind: word(bytes, at),
            base: word(bytes, at + 2),
            abstracted: word(bytes, at + 4),
            greatest: word(bytes, at + 6),
            width: word(bytes, at + 8),
            from: word(bytes, at + 10),
            to: word(bytes, at + 12),
            rank: word(bytes, at + 14),
            first: word(bytes, at + 16),
            number: word(bytes, at + 18),
        }
    }

    fn breaks(&self, counts: Counts, _n: usize) -> bool {
        !class_fine(counts, *self)
    }

    ghost few = { Prim.search rules };

    ghost absent = { Prim.search rules };
}

impl Record for Name {
    const FIELDS: usize = 1;

    ghost FIELDS = { 1 };

    ghost decoded = { name_of };

    ghost none = { no_name };

    ghost broken = { name_broken };

    fn read(bytes: &[u8], at: usize) -> Name {
        Name {
            owner: word(bytes, at),
        }
    }

    fn breaks(&self, counts: Counts, _n: usize) -> bool {
        !name_fine(counts, *self)
    }

    ghost few = { Prim.search rules };

    ghost absent = { Prim.search rules };
}

impl Record for Extension {
    const FIELDS: usize = 3;

    ghost FIELDS = { 3 };

    ghost decoded = { extension_of };

    ghost none = { no_extension };

    ghost broken = { extension_broken };

    fn read(bytes: &[u8], at: usize) -> Extension {
        Extension {
            class: word(bytes, at),
            first: word(bytes, at + 2),
            number: word(bytes, at + 4),
        }
    }

    fn breaks(&self, counts: Counts, _n: usize) -> bool {
        !extension_fine(counts, *self)
    }

    ghost few = { Prim.search rules };

    ghost absent = { Prim.search rules };
}

impl Record for Line {
    const FIELDS: usize = 8;

    ghost FIELDS = { 8 };

    ghost decoded = { line_of };

    ghost none = { no_line };

    ghost broken = { line_broken };

    fn read(bytes: &[u8], at: usize) -> Line {
        Line {
            kind: word(bytes, at),
            a: word(bytes, at + 2),
            b: word(bytes, at + 4),
            c: word(bytes, at + 6),
            d: word(bytes, at + 8),
            e: word(bytes, at + 10),
            f: word(bytes, at + 12),
            g: word(bytes, at + 14),
        }
    }

    fn breaks(&self, counts: Counts, _n: usize) -> bool {
        !line_fine(counts, *self)
    }

    ghost few = { Prim.search rules };

    ghost absent = { Prim.search rules };
}

impl Record for Node {
    const FIELDS: usize = 3;

    ghost FIELDS = { 3 };

    ghost decoded = { node_of };

    ghost none = { no_node };

    ghost broken = { node_broken };

    fn read(bytes: &[u8], at: usize) -> Node {
        Node {
            op: word(bytes, at),
            a: word(bytes, at + 2),
            b: word(bytes, at + 4),
        }
    }

    fn breaks(&self, counts: Counts, n: usize) -> bool {
        !node_fine(counts, n, *self)
    }

    ghost few = { Prim.search rules };

    ghost absent = { Prim.search rules };
}

impl Record for Map {
    const FIELDS: usize = 3;

    ghost FIELDS = { 3 };

    ghost decoded = { map_of };

    ghost none = { no_map };

    ghost broken = { map_broken };

    fn read(bytes: &[u8], at: usize) -> Map {
        Map {
            width: word(bytes, at),
            first: word(bytes, at + 2),
            number: word(bytes, at + 4),
        }
    }

    fn breaks(&self, counts: Counts, _n: usize) -> bool {
        !map_fine(counts, *self)
    }

    ghost few = { Prim.search rules };

    ghost absent = { Prim.search rules };
}

impl Record for Row {
    const FIELDS: usize = 3;

    ghost FIELDS = { 3 };

    ghost decoded = { row_of };

    ghost none = { no_row };

    ghost broken = { row_broken };

    fn read(bytes: &[u8], at: usize) -> Row {
        Row {
            index: word(bytes, at),
            high: word(bytes, at + 2),
            low: word(bytes, at + 4),
        }
    }

    fn breaks(&self, _counts: Counts, _n: usize) -> bool {
        false
    }

    ghost few = { Prim.search rules };

    ghost absent = { Prim.search rules };
}
