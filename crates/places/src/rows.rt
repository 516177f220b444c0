ghost use Rattle.std.specs.Prelude.{◌≡◌};
ghost use Rattle.table.specs.Description.{description};
ghost use Rattle.places.specs.Rows.{in_map, repeats, index_wrong, row_place};

use crate::classes::fits;
use passes::first::some;
use records::stretches::Stretch;
use table::loaded::Loaded;

// Whether map m has row n.
fn in_map(loaded: &Loaded, m: usize, n: usize) -> bool
    ensures { result ≡ in_map (description loaded.now) m n }
{
    Stretch::from(loaded.map(m)).has(n)
}

// Whether j is an earlier row of map m with row n's index.
fn repeats(loaded: &Loaded, n: usize, m: usize, j: usize) -> bool
    ensures { result ≡ repeats (description loaded.now) n m j }
{
    j < n && loaded.row(j).index == loaded.row(n).index && in_map(loaded, m, j)
}

// Whether row n is one of map m, and its index is too wide for it, or repeated.
fn index_wrong(loaded: &Loaded, n: usize, m: usize) -> bool
    ensures { result ≡ index_wrong (description loaded.now) n m }
{
    in_map(loaded, m, n)
        && (!fits(loaded.row(n).index, loaded.map(m).width)
            || some(loaded.rows.len(), |j| repeats(loaded, n, m, j)))
}

// Whether row n's index is too wide, or repeated, in some map.
pub fn row_place(loaded: &Loaded, n: usize) -> bool
    ensures { result ≡ row_place (description loaded.now) n }
{
    some(loaded.maps.len(), |m| index_wrong(loaded, n, m))
}
