ghost use Rattle.std.specs.Prelude.{◌≡◌, ℕ, ◌+◌, ◌<◌, ◌≤◌, length, slice_index};
ghost use Rattle.table.specs.Description.{description};
ghost use Rattle.owners.specs.Lines.{class_of_line};

use blocks::stretches::{in_class, in_extension};
use passes::first::first;
use table::loaded::Loaded;
use table::record::numbered;

// The most lines that there are.
const MOST_LINES: usize = 512;

// The class whose stretch, or whose extension's stretch, holds line n, 0 if none does. No Option: records say none by
// 0, and a look-up of 0 is defined.
pub fn class_of_line(loaded: &Loaded, n: usize) -> usize
    ensures { result ≡ class_of_line (description loaded.now) n }
{
    first(loaded.classes.len(), |c| in_class(loaded, n, c)).unwrap_or_else(|| {
        let extension = first(loaded.extensions.len(), |e| in_extension(loaded, n, e));
        extension.map_or(0, |e| loaded.extension(e).class as usize)
    })
}

// How many lines there are.
fn line_count(loaded: &Loaded) -> usize
    ensures value { result ≡ length (description loaded.now).lines }
    ensures bound { result ≤ 512 }
{
    loaded.lines.len()
}

// The classes of a description's lines, each searched once. In a fixed array, as the check allocates nothing and so
// cannot fail.
#[derive(Drop)]
pub(crate) struct LineClasses<'d> {
    pub(crate) loaded: &'d Loaded,
    // of line n at n - 1
    classes: [usize; MOST_LINES],
    ghost found: { (k : ℕ) → k < length (description loaded.now).lines → slice_index classes k ≡ class_of_line (description loaded.now) (k + 1) },
}

impl<'d> LineClasses<'d> {
    // The classes of the lines of this description.
    pub(crate) fn of(loaded: &'d Loaded) -> LineClasses<'d>
        ensures { result.loaded.now ≡ loaded.now }
    {
        // by index, and no further than there are lines: `from_fn` goes over the whole array, by which a check of a small
        // description takes half as long again
        let mut classes = [0; MOST_LINES];
        for i in 0..line_count(loaded) {
            classes[i] = class_of_line(loaded, i + 1);
        }
        LineClasses { loaded, classes }
    }

    // The class of line n.
    pub(crate) fn class_of(&self, n: usize) -> usize
        ensures { result ≡ class_of_line (description self.now.loaded.now) n }
    {
        if n > line_count(self.loaded) {
            return class_of_line(self.loaded, n);
        }
        numbered(&self.classes, n)
            .copied()
            .unwrap_or_else(|| class_of_line(self.loaded, n))
    }
}
