ghost use Rattle.std.specs.Prelude.{◌≡◌, ℕ, ◌+◌, ◌^◌, ◌<◌, ◌≤◌, length, IfOk};
ghost use Rattle.rules.specs.Steps.{taken, aligned, ends, next_multiple};

use crate::view::View;
use bits::source::Source;
use bits::zero::is_zero;
use rules::faults::{Failure, ReadingCause};
use rules::steps::Window;

// The failure of a window that has too few bits.
fn ends(window: Window) -> Failure
    ensures { result ≡ ends window }
{
    let cause = if window.object {
        ReadingCause::ObjectEnds
    } else {
        ReadingCause::SourceEnds
    };
    cause.into()
}

// The first multiple at or after a place; every place is one of 0.
#[tactic(auto, using(crate::proofs::Multiples::first_multiple, crate::proofs::Multiples::near))]
pub fn next_multiple(of: u16, p: u32) -> u32
    requires { p ≤ 2147483647 }
    ensures value { result ≡ next_multiple of p }
    ensures bound { p ≤ result }
{
    if of == 0 {
        return p;
    }
    p.next_multiple_of(u32::from(of))
}

impl<S: Source> View<'_, S> {
    // The number of the next n bits.
    #[inline(always)]
    pub fn taken(&self, n: u32, p: u32) -> Result<u64, Failure>
        requires narrow { n ≤ 32 }
        ensures value { result ≡ taken (S.bits self.now.source.now) self.now.window n p }
        ensures bound { IfOk result (λ v. (v < 2 ^ n) × (p + n ≤ self.now.window.end)) }
    {
        if u64::from(p) + u64::from(n) > u64::from(self.window.end) {
            return Err(ends(self.window));
        }
        self.source.get(p, n).map_err(|_| ends(self.window))
    }

    // The place after alignment; the skipped bits must be there, and be 0.
    #[inline(always)]
    pub fn aligned(&self, to: u16, p: u32) -> Result<u32, Failure>
        requires place { p ≤ 2147483647 }
        ensures value { result ≡ aligned (S.bits self.now.source.now) self.now.window to p }
        ensures bound { IfOk result (λ q. (p ≤ q) × (q ≤ self.now.window.end)) }
    {
        let q = next_multiple(to, p);
        if q > self.window.end {
            return Err(ends(self.window));
        }
        if q == p {
            return Ok(q);
        }
        if is_zero(self.source, p, q - p).map_err(|_| ends(self.window))? {
            Ok(q)
        } else {
            Err(ReadingCause::SkippedBits.into())
        }
    }
}
