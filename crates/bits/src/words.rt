ghost use Rattle.std.proofs.Common.{rules, refl};
ghost use Rattle.bits.specs.Make.{most_words};

use crate::units::{Unit, Units};

// The bits of words of 32 bits, the most significant bit of each word first.
pub type Words<'a> = Units<'a, u32>;

// As many words as a source may have.
pub const MOST_WORDS: usize = 67_108_863;

impl Unit for u32 {
    const BITS: u32 = 32;

    const MOST: usize = MOST_WORDS;

    ghost BITS = { 32 };

    ghost MOST = { most_words };

    ghost value = { λ w. w };

    ghost width = { Prim.search rules };

    ghost most = { refl };

    fn value(self) -> u64 {
        u64::from(self)
    }
}
