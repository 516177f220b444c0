ghost use Rattle.std.specs.Prelude.{◌≡◌};
ghost use Rattle.table.specs.Description.{description};
ghost use Rattle.places.specs.Classes.{fits, ids_fit, plain_wrong, base_wrong, member_wrong, class_wrong, misplaced, names_as_later, has_ids, ids_meet, overlaps, class_place};

use passes::families::{family, in_family};
use passes::first::some;
use records::records::Class;
use table::loaded::Loaded;

// Whether v is a number of so many bits.
pub(crate) fn fits(v: u16, width: u16) -> bool
    ensures { result ≡ fits v width }
{
    width >= 16 || u32::from(v) < 1 << width
}

// Whether first to last id are numbers of so many bits.
fn ids_fit(c: Class, width: u16) -> bool
    ensures { result ≡ ids_fit c width }
{
    c.from <= c.to && fits(c.to, width)
}

// Whether a plain class has an id width or ids.
fn plain_wrong(c: Class) -> bool
    ensures { result ≡ plain_wrong c }
{
    !(c.width == 0 && c.from == 0 && c.to == 0)
}

// Whether a base lacks an id width, has one that does not go with its size, or ids that do not fit it.
fn base_wrong(c: Class) -> bool
    ensures { result ≡ base_wrong c }
{
    c.width == 0 || c.greatest != 0 && !(c.width == 8 || c.width == 16) || !ids_fit(c, c.width)
}

// Whether a member has an id width or a greatest size.
fn member_wrong(c: Class) -> bool
    ensures { result ≡ member_wrong c }
{
    !(c.width == 0 && c.greatest == 0)
}

// Whether a class has something that does not belong to its kind.
fn class_wrong(c: Class) -> bool
    ensures { result ≡ class_wrong c }
{
    if c.is_plain() {
        plain_wrong(c)
    } else if c.is_base() {
        base_wrong(c)
    } else {
        member_wrong(c)
    }
}

// Whether class m is a member whose base is none, or whose ids do not fit the base's id width.
fn misplaced(loaded: &Loaded, m: usize) -> bool
    ensures { result ≡ misplaced (description loaded.now) m }
{
    let class = loaded.class(m);
    let base = loaded.class(class.base as usize);
    class.is_member() && !(base.is_base() && ids_fit(class, base.width))
}

// Whether class n is the later of m, a misplaced member, and its base.
fn names_as_later(loaded: &Loaded, n: usize, m: usize) -> bool
    ensures { result ≡ names_as_later (description loaded.now) n m }
{
    misplaced(loaded, m) && m.max(loaded.class(m).base as usize) == n
}

// Whether a class of a family has ids of its own.
fn has_ids(loaded: &Loaded, n: usize) -> bool
    ensures { result ≡ has_ids (description loaded.now) n }
{
    in_family(loaded, n) && loaded.class(n).abstracted == 0
}

// Whether two classes have an id in common.
fn ids_meet(x: Class, y: Class) -> bool
    ensures { result ≡ ids_meet x y }
{
    x.from <= x.to && y.from <= y.to && x.from <= y.to && y.from <= x.to
}

// Whether m is an earlier class of class n's family that has an id in common with it.
fn overlaps(loaded: &Loaded, n: usize, m: usize) -> bool
    ensures { result ≡ overlaps (description loaded.now) n m }
{
    m < n
        && has_ids(loaded, m)
        && has_ids(loaded, n)
        && family(loaded, m) == family(loaded, n)
        && ids_meet(loaded.class(m), loaded.class(n))
}

// Whether something of class n, or of a member and its base, is where it does not belong.
pub fn class_place(loaded: &Loaded, n: usize) -> bool
    ensures { result ≡ class_place (description loaded.now) n }
{
    let count = loaded.classes.len();
    class_wrong(loaded.class(n))
        || some(count, |m| names_as_later(loaded, n, m))
        || some(count, |m| overlaps(loaded, n, m))
}
