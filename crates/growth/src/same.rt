// Records that stand unchanged in place. The seven impls are written out: a macro takes no ghost item.
ghost use Rattle.std.proofs.Common.{rules};
ghost use Rattle.growth.specs.Same.{same_last, same_more};
ghost use Rattle.std.specs.Prelude.{◌≡◌, ℕ, List};
ghost use Rattle.rules.specs.Growth.{same_numbers, stands, class_fields, name_fields, extension_fields, line_fields, node_fields, map_fields, row_fields};

use records::records::{Class, Extension, Line, Map, Name, Node, Row};

// A kind of record, by its fields in the file's order.
pub(crate) trait Fields: PartialEq {
    ghost fields: { Self → List ℕ };

    // records are equal where their fields are the same
    ghost equal: { (a b : Self) → Self.PartialEq.eq a b ≡ same_numbers (fields a) (fields b) };
}

// Whether every older record stands unchanged in place.
pub(crate) fn stands<R: Fields>(older: &[R], newer: &[R]) -> bool
    ensures { result ≡ stands R.fields older.now newer.now }
{
    newer.starts_with(older)
}

impl Fields for Class {
    ghost fields = { class_fields };

    ghost equal = { Prim.search (rules, same_last, same_more) };
}

impl Fields for Name {
    ghost fields = { name_fields };

    ghost equal = { Prim.search (rules, same_last, same_more) };
}

impl Fields for Extension {
    ghost fields = { extension_fields };

    ghost equal = { Prim.search (rules, same_last, same_more) };
}

impl Fields for Line {
    ghost fields = { line_fields };

    ghost equal = { Prim.search (rules, same_last, same_more) };
}

impl Fields for Node {
    ghost fields = { node_fields };

    ghost equal = { Prim.search (rules, same_last, same_more) };
}

impl Fields for Map {
    ghost fields = { map_fields };

    ghost equal = { Prim.search (rules, same_last, same_more) };
}

impl Fields for Row {
    ghost fields = { row_fields };

    ghost equal = { Prim.search (rules, same_last, same_more) };
}
