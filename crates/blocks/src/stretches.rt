ghost use Rattle.std.specs.Prelude.{◌≡◌, Bool};
ghost use Rattle.table.specs.Description.{description};
ghost use Rattle.table.specs.Tests.{Answers};
ghost use Rattle.records.specs.declared.stretches.Stretch.{Stretch};
ghost use Rattle.blocks.specs.Stretches.{some_stretch, in_class, in_extension, in_one};
ghost use Rattle.blocks.specs.Sound.{some_unsound};

use crate::blocks::block_sound;
use passes::first::{count, some};
use records::stretches::Stretch;
use table::loaded::Loaded;

// Whether a stretch of a class or extension passes the test.
pub(crate) fn some_stretch<F: Fn(Stretch) -> bool>(loaded: &Loaded, test: F) -> bool
    requires { F.IsAlwaysCallable test }
    ensures { (p : Stretch → Bool) → Answers F.post test p → result ≡ some_stretch (description loaded.now) p }
{
    some(
        loaded.classes.len(),
        |c| test(Stretch::from(loaded.class(c))),
    ) || some(loaded.extensions.len(), |e| {
        test(Stretch::from(loaded.extension(e)))
    })
}

// Whether line n is in the stretch of class c. This and the next are two, since what holds a line asks for classes
// first, by number, and then for extensions.
pub fn in_class(loaded: &Loaded, n: usize, c: usize) -> bool
    ensures { result ≡ in_class (description loaded.now) n c }
{
    Stretch::from(loaded.class(c)).has(n)
}

// Whether line n is in the stretch of extension e.
pub fn in_extension(loaded: &Loaded, n: usize, e: usize) -> bool
    ensures { result ≡ in_extension (description loaded.now) n e }
{
    Stretch::from(loaded.extension(e)).has(n)
}

// Whether line n is in exactly one stretch.
pub(crate) fn in_one(loaded: &Loaded, n: usize) -> bool
    ensures { result ≡ in_one (description loaded.now) n }
{
    let classes = count(loaded.classes.len(), |c| in_class(loaded, n, c));
    let extensions = count(loaded.extensions.len(), |e| in_extension(loaded, n, e));
    classes + extensions == 1
}

// Whether some stretch is no sound block.
pub(crate) fn some_unsound(loaded: &Loaded) -> bool
    ensures { result ≡ some_unsound (description loaded.now) }
{
    some_stretch(loaded, |stretch| {
        !block_sound(loaded, stretch.first as usize, stretch.number as usize, 0)
    })
}
