ghost use Rattle.std.specs.Prelude.{◌≡◌, ◌+◌, ◌/◌, ◌%◌, ◌^◌, ◌<◌, ◌≤◌};

// The n lowest bits of what stands above the lowest `past` bits.
pub(crate) fn field(whole: u64, past: u32, n: u32) -> u64
    requires { (n < 64) × (past + n ≤ 64) }
    ensures { result ≡ whole / 2 ^ past % 2 ^ n }
{
    // Where `past` is 64 the mask is 0, and hides that the shift is by 0.
    whole.wrapping_shr(past) & ((1 << n) - 1)
}
