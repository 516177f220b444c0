ghost use Rattle.std.specs.Prelude.{◌≡◌, ◌-◌, ◌*◌, ◌/◌, ◌%◌, ◌^◌};
ghost use Rattle.bits.specs.Bits.{limited, limited_short};
ghost use Rattle.pending.specs.Trial.{trial_bits};

use crate::own::Own;
use bits::place::check_place;
use bits::refusal::Refusal;
use bits::source::{LONGEST, Source};

// A source of `length` bits that are all 0 but for an item's own bits, at a place.
#[derive(Clone, Copy)]
pub struct Trial {
    pub length: u32,
    pub place: u32,
    pub own: Own,
}

impl Source for Trial {
    ghost bits = { λ t. limited (trial_bits t.length t.place t.own.width t.own.value) };

    ghost short = { λ t. limited_short (trial_bits t.length t.place t.own.width t.own.value) };

    fn length(&self) -> u32 {
        self.length.min(LONGEST)
    }

    fn get(&self, p: u32, n: u32) -> Result<u64, Refusal> {
        check_place(u64::from(self.length()), p, n)?;
        let end = u64::from(self.place) + u64::from(self.own.width);
        let own = lowest(self.own.value, self.own.width);
        Ok(lowest(shifted(own, end, u64::from(p + n)), n))
    }
}

// The n lowest bits of a number.
fn lowest(value: u64, n: u32) -> u64
    ensures { result ≡ value % 2 ^ n }
{
    // by a match: in `map_or` the part with a power is a closure, which does not know that it is above 0
    match 1u64.checked_shl(n) {
        Some(above) => value & (above - 1),
        None => value,
    }
}

// The lowest bits of a number that ends at place `end`, up to place q: bits past it are shifted out, and bits that it
// has not are 0. The tests stand here since `checked_shl` takes no 64-bit amount.
fn shifted(value: u64, end: u64, q: u64) -> u64
    ensures { result ≡ value * 2 ^ (q - end) / 2 ^ (end - q) % 2 ^ 64 }
{
    if q >= end {
        let up = q - end;
        if up >= 64 { 0 } else { value << up }
    } else {
        let down = end - q;
        if down >= 64 { 0 } else { value >> down }
    }
}
