// What a reading looks up in the tables.
ghost use Rattle.std.specs.Prelude.{◌≡◌, ◌<◌, ◌≤◌, Bool, length, IfSome, position};
ghost use Rattle.table.specs.Description.{description};
ghost use Rattle.rules.specs.Lookups.{has_id, member_with, first_member, object_class};

use records::records::Class;
use table::loaded::Loaded;

// Whether a class has an id.
fn has_id(id: u16, class: Class) -> bool
    ensures { result ≡ has_id id class }
{
    class.from <= id && id <= class.to
}

// Whether a class is a member of a family, and has an id.
fn is_member_with(base: u16, id: u16, class: Class) -> bool
    ensures { result ≡ member_with base id class }
{
    class.is_member() && class.base == base && has_id(id, class)
}

// The index of the first member of a family with an id, if there is one.
fn member_index(classes: &[Class], base: u16, id: u16) -> Option<usize>
    ensures value { result ≡ position (member_with base id) classes.now }
    ensures bound { IfSome result (λ i. i < length classes.now) }
{
    classes
        .iter()
        .position(|class| is_member_with(base, id, *class))
}

// The number of the first member of a family with an id, 0 if there is none. No Option: `object_class` hands the 0 on.
fn first_member(classes: &[Class], base: u16, id: u16) -> u16
    requires { length classes.now ≤ 65535 }
    ensures { result ≡ first_member classes.now base id }
{
    // by a match: `map_or` was tried, and its proof did not close
    match member_index(classes, base, id) {
        Some(i) => (i + 1) as u16,
        None => 0,
    }
}

// The class of an object of a declared class with an id, 0 if the id is unknown. No Option: the item hands the 0 on.
pub(crate) fn object_class(tables: &Loaded, declared: u16, id: u16) -> u16
    ensures { result ≡ object_class (description tables.now) declared id }
{
    let class = tables.class(declared as usize);
    if !class.is_base() {
        return declared;
    }
    if class.abstracted == 0 && has_id(id, class) {
        return declared;
    }
    first_member(&tables.classes, declared, id)
}
