ghost use Rattle.std.specs.Prelude.{◌≡◌};
ghost use Rattle.fields.specs.Tables.{base_fine, abstract_fine, class_fine, name_fine, extension_fine, map_fine, top_fine};

use crate::values::{is_stretch, names_one, names_one_or_none, one_to_sixteen};
use records::classes::ClassKind;
use records::counts::Counts;
use records::records::{Class, Extension, Map, Name};
use records::stretches::Stretch;

// Whether a class has a base only if it is a member.
fn base_fine(counts: Counts, c: Class) -> bool
    ensures { result ≡ base_fine counts c }
{
    if c.is_member() {
        names_one_or_none(c.base, counts.classes)
    } else {
        c.base == 0
    }
}

// Whether a class is abstract only if it is a base.
fn abstract_fine(c: Class) -> bool
    ensures { result ≡ abstract_fine c }
{
    if c.is_base() {
        c.abstracted <= 1
    } else {
        c.abstracted == 0
    }
}

// Whether the fields of a class are fine.
pub fn class_fine(counts: Counts, c: Class) -> bool
    ensures { result ≡ class_fine counts c }
{
    c.kind <= ClassKind::Member as u16
        && base_fine(counts, c)
        && abstract_fine(c)
        && c.width <= 16
        && one_to_sixteen(c.rank)
        && is_stretch(Stretch::from(c), counts.lines)
}

// Whether a name's owner is there.
pub fn name_fine(counts: Counts, n: Name) -> bool
    ensures { result ≡ name_fine counts n }
{
    names_one(n.owner, counts.classes)
}

// Whether the fields of an extension are fine.
pub fn extension_fine(counts: Counts, e: Extension) -> bool
    ensures { result ≡ extension_fine counts e }
{
    names_one(e.class, counts.classes)
        && e.number != 0
        && is_stretch(Stretch::from(e), counts.lines)
}

// Whether the fields of a map are fine.
pub fn map_fine(counts: Counts, m: Map) -> bool
    ensures { result ≡ map_fine counts m }
{
    one_to_sixteen(m.width) && is_stretch(Stretch::from(m), counts.rows)
}

// Whether the top class is there.
pub fn top_fine(counts: Counts, top: u16) -> bool
    ensures { result ≡ top_fine counts top }
{
    names_one(top, counts.classes)
}
