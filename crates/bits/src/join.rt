ghost use Rattle.std.specs.Prelude.{◌≡◌, ◌+◌, ◌<◌, ◌≤◌, ◌++◌, length};
ghost use Rattle.bits.specs.declared.refusal.Refusal.TheVariants.{TooLong};
ghost use Rattle.bits.specs.Bits.{limited, limited_short, longest};
ghost use Rattle.bits.specs.Get.{get_answer};
ghost use Rattle.bits.specs.Make.{Makes};

use crate::place::check_place;
use crate::refusal::Refusal;
use crate::source::{LONGEST, Source};

// The bits of one source, and then those of another. That they are not too many is no ghost field:
// the derives take no generic struct that has one, so it would take `Clone` and `Copy` away from
// joins of all sources that have them now.
#[derive(Clone, Copy)]
pub struct Join<S, T> {
    front: S,
    back: T,
}

impl<S: Source + Drop, T: Source + Drop> Join<S, T> {
    // The bits of `front`, and then those of `back`. Refuses `TooLong` where they are more than
    // `LONGEST` in all.
    pub fn new(front: S, back: T) -> Result<Join<S, T>, Refusal>
        ensures { Makes result (λ j. limited (S.bits j.front ++ T.bits j.back))
            (S.bits front ++ T.bits back)
            (length (S.bits front) + length (T.bits back)) longest TooLong }
    {
        if front.length() > LONGEST - back.length() {
            return Err(Refusal::TooLong);
        }
        Ok(Join { front, back })
    }
}

impl<S: Source, T: Source> Source for Join<S, T> {
    ghost bits = { λ s. limited (S.bits s.front ++ T.bits s.back) };

    ghost short = { λ s. limited_short (S.bits s.front ++ T.bits s.back) };

    fn length(&self) -> u32 {
        let both = self.front.length() + self.back.length();
        both.min(LONGEST)
    }

    fn get(&self, p: u32, n: u32) -> Result<u64, Refusal> {
        check_place(u64::from(self.length()), p, n)?;
        let middle = self.front.length();
        if p + n <= middle {
            return self.front.get(p, n);
        }
        if p >= middle {
            return self.back.get(p - middle, n);
        }
        let past = p + n - middle;
        let high = self.front.get(p, middle - p)?;
        let low = self.back.get(0, past)?;
        Ok(high << past | low)
    }
}
