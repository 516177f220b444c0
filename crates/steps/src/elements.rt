ghost use Rattle.std.specs.Prelude.{◌≡◌, ◌+◌, ◌^◌, ◌<◌, ◌≤◌, ℤ, Bool, cond, pos, IfOk, if◌then◌else◌, nat_eq};
ghost use Rattle.rules.specs.Steps.{element, bounded, signed};
ghost use Rattle.values.specs.Scopes.{value_in};
ghost use Rattle.table.specs.Tests.{Answers};
ghost use Rattle.steps.specs.Took.{Took};

use crate::numbers::{natural, signed};
use crate::view::View;
use bits::source::Source;
use records::statements::ReadLine;
use rules::faults::{Failure, ReadingCause};
use rules::steps::Got;
use values::evaluate::Scope;

// A value must keep to a bound, which is worked out here; node 0 sets none.
#[inline(always)]
fn bounded<F: Fn(i64) -> bool>(scope: &Scope, node: u16, keeps: F) -> Result<(), Failure>
    requires { F.IsAlwaysCallable keeps }
    ensures { (kept : ℤ → Bool) → Answers F.post keeps kept → result ≡ bounded node (value_in scope.now node) kept }
{
    if node == 0 {
        return Ok(());
    }
    if keeps(scope.value(node)?) {
        Ok(())
    } else {
        Err(ReadingCause::OutsideBounds.into())
    }
}

// The value that so many bits give.
fn read_value(is_signed: bool, length: u32, raw: u64) -> i64
    requires { (length ≤ 32) × (raw < 2 ^ length) }
    ensures { result ≡ cond is_signed (signed length raw) (pos raw) }
{
    if is_signed {
        signed(length, raw)
    } else {
        raw as i64
    }
}

// The place after so many bits, or before them with look-ahead.
fn place_after(ahead: u16, place: u32, length: u32) -> u32
    requires { place + length ≤ 4294967295 }
    ensures value { result ≡ (if nat_eq ahead 0 then place + length else place) }
    ensures bound { (place ≤ result) × (result ≤ place + length) }
{
    if ahead == 0 { place + length } else { place }
}

impl<S: Source> View<'_, S> {
    // One element of a read: alignment, width, bits, lowest, highest; with look-ahead only the alignment is consumed.
    #[inline(always)]
    pub fn element(&self, scope: &Scope, line: ReadLine, p: u32) -> Result<Got, Failure>
        requires place { p ≤ 2147483647 }
        ensures value { result ≡ element (S.bits self.now.source.now) self.now.window line (value_in scope.now line.width) (value_in scope.now line.lowest) (value_in scope.now line.highest) p }
        ensures bound { IfOk result (λ g. Took p self.now.window.end g.place g.length g.after) }
    {
        let place = self.aligned(line.alignment, p)?;
        let length = natural(32, scope.value(line.width)?)?;
        let raw = self.taken(length, place)?;
        let value = read_value(line.signed, length, raw);
        bounded(scope, line.lowest, |lowest| lowest <= value)?;
        bounded(scope, line.highest, |highest| value <= highest)?;
        Ok(Got {
            value,
            place,
            length,
            after: place_after(line.ahead, place, length),
        })
    }
}
