ghost use Rattle.std.specs.Prelude.{◌≡◌, ◌-◌, ◌≤◌, ◌&&◌, length, drop, ◌==◌, nat_lt};
ghost use Rattle.bits.specs.Bits.{number};

use bits::source::Source;
use bits::zero::is_zero;

// Whether fewer than eight bits, all 0, are left from a place on.
pub(crate) fn at_end<S: Source>(source: &S, count: u32, p: u32) -> bool
    requires { count ≡ length (S.bits source.now) }
    ensures { result ≡ (nat_lt (length (S.bits source.now) - p) 8 && number (drop p (S.bits source.now)) == 0) }
{
    if p >= count {
        return true;
    }
    if count - p >= 8 {
        return false;
    }
    is_zero(source, p, count - p).unwrap_or(false)
}
