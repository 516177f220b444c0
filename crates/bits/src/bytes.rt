ghost use Rattle.std.proofs.Common.{rules, refl};
ghost use Rattle.bits.specs.Make.{most_bytes};

use crate::units::{Unit, Units};

// The bits of bytes, the most significant bit of each byte first.
pub type Bytes<'a> = Units<'a, u8>;

// As many bytes as a source may have.
pub const MOST_BYTES: usize = 268_435_455;

impl Unit for u8 {
    const BITS: u32 = 8;

    const MOST: usize = MOST_BYTES;

    ghost BITS = { 8 };

    ghost MOST = { most_bytes };

    ghost value = { λ b. b };

    ghost width = { Prim.search rules };

    ghost most = { refl };

    fn value(self) -> u64 {
        u64::from(self)
    }
}
