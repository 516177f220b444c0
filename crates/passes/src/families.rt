ghost use Rattle.std.specs.Prelude.{◌≡◌};
ghost use Rattle.table.specs.Description.{description};
ghost use Rattle.passes.specs.Families.{family, in_family, expandable};

use table::loaded::Loaded;

// The number of the base of a class's family, 0 for a class in no family. No Option: records say none by 0, and a
// look-up of 0 is defined.
pub fn family(loaded: &Loaded, n: usize) -> usize
    ensures { result ≡ family (description loaded.now) n }
{
    let class = loaded.class(n);
    if class.is_base() {
        n
    } else if class.is_member() && loaded.class(class.base as usize).is_base() {
        class.base as usize
    } else {
        0
    }
}

// Whether a class is in a family.
pub fn in_family(loaded: &Loaded, n: usize) -> bool
    ensures { result ≡ in_family (description loaded.now) n }
{
    family(loaded, n) != 0
}

// Whether a class, or the family that it is in, is expandable.
pub fn expandable(loaded: &Loaded, n: usize) -> bool
    ensures { result ≡ expandable (description loaded.now) n }
{
    let class = loaded.class(n);
    if class.is_plain() {
        class.greatest > 0
    } else {
        loaded.class(family(loaded, n)).greatest > 0
    }
}
