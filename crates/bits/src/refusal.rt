ghost use Rattle.std.specs.Prelude.{◌≡◌};
ghost use Rattle.bits.specs.Refusals.{refusal_number};

use thiserror::Error;

// A caller's mistake: why a call was refused. A refused call changes nothing.
#[derive(Clone, Copy, PartialEq, Eq, Debug, Error)]
pub enum Refusal {
    // More bits are asked for than one call reads or stores.
    #[error("more bits are asked for than one call takes")]
    TooWide = 31,
    // The bits asked for do not all lie in the source or the slice.
    #[error("the bits asked for go past the end")]
    PastEnd = 32,
    // A source would have more bits than any may have.
    #[error("a source would be too long")]
    TooLong = 33,
    // A window does not lie in its source.
    #[error("a window lies outside its source")]
    Outside = 34,
}

impl Refusal {
    // The number that the refusal is known by. Each enum whose cases have numbers has such a method, and no trait gives
    // it: `as` takes no type parameter, and each contract cites its own numbers.
    pub fn number(self) -> u16
        ensures { result ≡ refusal_number self }
    {
        self as u16
    }
}
