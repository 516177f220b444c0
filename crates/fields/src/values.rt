ghost use Rattle.std.specs.Prelude.{◌≡◌};
ghost use Rattle.fields.specs.Values.{names_one, names_one_or_none, is_stretch, one_to_sixteen, is_alignment};

use records::stretches::Stretch;

// Whether v is the number of one of `count` records.
pub(crate) fn names_one(v: u16, count: u16) -> bool
    ensures { result ≡ names_one v count }
{
    (1..=count).contains(&v)
}

// Whether v is such a number, or 0.
pub(crate) fn names_one_or_none(v: u16, count: u16) -> bool
    ensures { result ≡ names_one_or_none v count }
{
    v <= count
}

// Whether a stretch has no record, from 0 on, or lies within a table of `count` records.
pub(crate) fn is_stretch(stretch: Stretch, count: u16) -> bool
    ensures { result ≡ is_stretch stretch.first stretch.number count }
{
    if stretch.number == 0 {
        stretch.first == 0
    } else {
        stretch.first != 0 && stretch.first as usize + stretch.number as usize - 1 <= count as usize
    }
}

// Whether v is a rank, or an index width.
pub(crate) fn one_to_sixteen(v: u16) -> bool
    ensures { result ≡ one_to_sixteen v }
{
    (1..=16).contains(&v)
}

// Whether v is an alignment in bits.
pub(crate) fn is_alignment(v: u16) -> bool
    ensures { result ≡ is_alignment v }
{
    matches!(v, 0 | 8 | 16 | 32 | 64 | 128)
}
