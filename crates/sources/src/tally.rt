ghost use Rattle.std.specs.Prelude.{◌≡◌, ℕ, ◌+◌, ◌*◌, ◌<◌, ◌≤◌};

use std::fmt;
use std::ops::Add;

// How many answers were compared, and how many of them differed. The program `cases` has a tally of its own, which
// counts case by case and says it in other words.
#[derive(Clone, Copy)]
pub struct Tally {
    pub compared: u32,
    pub different: u32,
}

// Both together.
impl Add for Tally {
    type Output = Tally;

    ghost can_add = { λ s t. (s.compared + t.compared < 4294967296) × (s.different + t.different < 4294967296) };

    ghost add_gives = { λ s t r. (r.compared ≡ s.compared + t.compared) × (r.different ≡ s.different + t.different) };

    fn add(self, other: Tally) -> Tally {
        Tally {
            compared: self.compared + other.compared,
            different: self.different + other.different,
        }
    }
}

impl fmt::Display for Tally {
    fn fmt<W: fmt::Write>(&self, f: &mut fmt::Formatter<W>) -> fmt::Result {
        let compared = self.compared;
        let different = self.different;
        write!(f, "{compared} compared, {different} differences")
    }
}

// Compares the answers at all places below `places` and of all widths below `widths`.
pub(crate) fn compare<F: Fn(u32, u32) -> bool>(places: u32, widths: u32, differs: F) -> Tally
    requires few { (places ≤ 1000) × (widths ≤ 1000) }
    requires callable { (p n : ℕ) → p < places → n < widths → F.pre differs p n }
    ensures { (result.compared ≡ places * widths) × (result.different ≤ places * widths) }
{
    let mut different = 0;
    for p in 0..places {
        for n in 0..widths {
            different += u32::from(differs(p, n));
        }
    }
    Tally {
        compared: places * widths,
        different,
    }
}

// The bit at a place of some bytes, the most significant of each byte first; 0 past their end.
pub(crate) fn bit_at(bytes: &[u8], place: u32) -> u64 {
    bytes
        .get((place / 8) as usize)
        .map_or(0, |byte| u64::from(byte >> (7 - place % 8) & 1))
}
