ghost use Rattle.std.specs.Prelude.{◌≡◌, ℕ, ◌+◌, ◌/◌, ◌*◌, ◌^◌, ◌<◌, ◌≤◌, List, length, ⊤};
ghost use Rattle.bits.specs.declared.refusal.Refusal.TheVariants.{TooLong};
ghost use Rattle.bits.specs.Bits.{longest, number, part};
ghost use Rattle.bits.specs.Get.{get_answer};
ghost use Rattle.bits.specs.Make.{Makes};
ghost use Rattle.bits.specs.Units.{IsWidth, units_bits, units_short};

use crate::field::field;
use crate::place::check_place;
use crate::refusal::Refusal;
use crate::source::Source;
use std::alloc::AllocError;

// A number of so many bits, of which the slices behind a source are made.
pub trait Unit: Copy {
    // How many bits a unit has.
    const BITS: u32;

    // As many units as a source may have.
    const MOST: usize;

    ghost BITS: { ℕ };

    ghost MOST: { ℕ };

    // The number that a unit is.
    ghost value: { Self → ℕ };

    // The unit as a number.
    fn value(self) -> u64
        ensures same { result ≡ value self }
        ensures fits { result < 2 ^ BITS };

    // Whole units fill 64 bits, and no unit is wider than a `get`.
    ghost width: { IsWidth BITS };

    // As many units as have at most `LONGEST` bits.
    ghost most: { MOST ≡ longest / BITS };
}

// The bits of a slice of units, the most significant bit of each unit first.
pub struct Units<'a, U: Unit> {
    units: &'a [U],
    ghost few: { length units.now * U.BITS ≤ longest },
}

// By hand: the derives take no generic struct with a ghost field, so they gave it neither `Clone` nor `Copy`.
impl<U: Unit> Copy for Units<'_, U> {}

impl<U: Unit> Clone for Units<'_, U> {
    ghost is_clone = { λ s t. t ≡ s };

    ghost is_infallible = { λ _. ⊤ };

    fn clone(&self) -> Result<Self, AllocError> {
        Ok(*self)
    }
}

impl<'a, U: Unit> Units<'a, U> {
    // The source of these units' bits. Refuses `TooLong` where there are more than `MOST`.
    pub fn new(units: &'a [U]) -> Result<Units<'a, U>, Refusal>
        ensures { Makes result (λ s. units_bits U.BITS U.value s.units.now)
            (units_bits U.BITS U.value units.now)
            (length units.now) U.MOST TooLong }
    {
        if units.len() > U::MOST {
            return Err(Refusal::TooLong);
        }
        Ok(Units { units })
    }
}

impl<U: Unit> Source for Units<'_, U> {
    ghost bits = { λ s. units_bits U.BITS U.value s.units.now };

    ghost short = { λ s. units_short U.BITS U.value s.units.now s.few };

    fn length(&self) -> u32 {
        self.units.len() as u32 * U::BITS
    }

    #[inline(always)]
    fn get(&self, p: u32, n: u32) -> Result<u64, Refusal> {
        check_place(u64::from(self.length()), p, n)?;
        let rest = &self.units[(p / U::BITS) as usize..];
        let reach = (u64::BITS / U::BITS) as usize;
        if rest.len() >= reach {
            return Ok(read(&rest[..reach], p % U::BITS, n));
        }
        Ok(read_last(rest, p % U::BITS, n))
    }
}

// The n bits from place p of units that have at most 64 bits, as a number.
#[inline(always)]
fn read<U: Unit>(units: &[U], p: u32, n: u32) -> u64
    requires few { length units.now * U.BITS ≤ 64 }
    requires inside { p + n ≤ length units.now * U.BITS }
    requires narrow { n < 64 }
    ensures { result ≡ number (part (units_bits U.BITS U.value units.now) p n) }
{
    let past = units.len() as u32 * U::BITS - p - n;
    field(gather(units), past, n)
}

// The same of the last units, of which there are fewer. A function of its own, so that a compiler does not make one of the
// two ways and lose that the first has a known number of units.
#[inline(never)]
fn read_last<U: Unit>(units: &[U], p: u32, n: u32) -> u64
    requires few { length units.now * U.BITS ≤ 64 }
    requires inside { p + n ≤ length units.now * U.BITS }
    requires narrow { n < 64 }
    ensures { result ≡ number (part (units_bits U.BITS U.value units.now) p n) }
{
    read(units, p, n)
}

// The number that units write that have at most 64 bits. Half by half: a compiler turns eight bytes into one load where
// no number is made of more than a few steps.
#[inline(always)]
fn gather<U: Unit>(units: &[U]) -> u64
    requires { length units.now * U.BITS ≤ 64 }
    ensures { result ≡ number (units_bits U.BITS U.value units.now) }
{
    let half = units.len() / 2;
    let low = &units[half..];
    gather_half(&units[..half]) << (low.len() as u32 * U::BITS) | gather_half(low)
}

// The same, unit by unit.
#[inline(always)]
fn gather_half<U: Unit>(units: &[U]) -> u64
    requires { length units.now * U.BITS ≤ 64 }
    ensures { result ≡ number (units_bits U.BITS U.value units.now) }
{
    units
        .iter()
        .fold(0, |whole, unit| whole << U::BITS | unit.value())
}
