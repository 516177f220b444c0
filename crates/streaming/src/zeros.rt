ghost use Rattle.std.specs.Prelude.{◌≡◌, ◌+◌, ◌≤◌, false, replicate};
ghost use Rattle.bits.specs.Bits.{longest};
ghost use Rattle.streaming.specs.Pages.{zeros_short};

use bits::place::check_place;
use bits::refusal::Refusal;
use bits::source::Source;

// A source of so many bits that are all 0.
#[derive(Drop)]
pub(crate) struct Zeros {
    pub(crate) count: u32,
    ghost few: { count ≤ longest },
}

impl Source for Zeros {
    ghost bits = { λ z. replicate z.count false };

    ghost short = { λ z. zeros_short z.count z.few };

    fn length(&self) -> u32 {
        self.count
    }

    fn get(&self, p: u32, n: u32) -> Result<u64, Refusal> {
        check_place(u64::from(self.count), p, n)?;
        Ok(0)
    }
}
