ghost use Rattle.std.specs.Prelude.{◌≡◌, ◌+◌, ◌-◌, ◌<◌, ◌≤◌, length};
ghost use Rattle.bits.specs.declared.refusal.Refusal.TheVariants.{Outside};
ghost use Rattle.bits.specs.Bits.{part, part_short};
ghost use Rattle.bits.specs.Get.{get_answer};
ghost use Rattle.bits.specs.Make.{Makes};

use crate::place::check_place;
use crate::refusal::Refusal;
use crate::source::Source;

// The bits of a source from place `first` up to place `end`. That they lie in the source is no ghost
// field: the derives take no generic struct that has one, so it would take `Clone` and `Copy` away
// from windows over every source that has them now.
#[derive(Clone, Copy)]
pub struct Window<S> {
    inner: S,
    first: u32,
    end: u32,
}

impl<S: Source + Drop> Window<S> {
    // The `count` bits of a source from place `first`. Refuses `Outside` where they do not all lie
    // in the source.
    pub fn new(inner: S, first: u32, count: u32) -> Result<Window<S>, Refusal>
        ensures { Makes result (λ w. part (S.bits w.inner) w.first (w.end - w.first))
            (part (S.bits inner) first count)
            (first + count) (length (S.bits inner)) Outside }
    {
        let end = first
            .checked_add(count)
            .filter(|&end| end <= inner.length())
            .ok_or(Refusal::Outside)?;
        Ok(Window { inner, first, end })
    }
}

impl<S: Source> Source for Window<S> {
    ghost bits = { λ s. part (S.bits s.inner) s.first (s.end - s.first) };

    ghost short = { λ s. part_short (S.bits s.inner) s.first (s.end - s.first) (S.short s.inner) };

    fn length(&self) -> u32 {
        let end = self.end.min(self.inner.length());
        end.saturating_sub(self.first)
    }

    fn get(&self, p: u32, n: u32) -> Result<u64, Refusal> {
        check_place(u64::from(self.length()), p, n)?;
        if n == 0 {
            // The source need not reach to `first`, and would refuse a place past its end.
            return Ok(0);
        }
        self.inner.get(self.first + p, n)
    }
}
