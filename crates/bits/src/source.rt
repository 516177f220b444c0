ghost use Rattle.std.specs.Prelude.{◌≡◌, ◌≤◌, Bool, List, length};
ghost use Rattle.bits.specs.Bits.{longest};
ghost use Rattle.bits.specs.Get.{get_answer};

use crate::refusal::Refusal;

// As many bits as one `get` reads.
pub const WIDEST: u32 = 32;

// As many bits as a source may have.
pub const LONGEST: u32 = 2_147_483_647;

// A list of at most `LONGEST` bits that never changes. Places count from 0.
pub trait Source {
    // The bits.
    ghost bits: { Self → List Bool };

    // There are not too many.
    ghost short: { (s : Self) → length (bits s) ≤ longest };

    // How many bits there are.
    fn length(&self) -> u32
        ensures { result ≡ length (bits self.now) };

    // The n bits from place p as an unsigned number, the first bit the most significant; 0 for no
    // bits. Refuses `TooWide` where n is above `WIDEST`, then `PastEnd` where p + n is above the
    // length, and never otherwise.
    fn get(&self, p: u32, n: u32) -> Result<u64, Refusal>
        ensures { result ≡ get_answer (bits self.now) p n };
}
