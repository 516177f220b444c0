ghost use Rattle.std.specs.Prelude.{◌≡◌, ◌≤◌};

use crate::expected::expected_get;
use crate::tally::{Tally, compare};
use bits::bytes::Bytes;
use bits::join::Join;
use bits::refusal::Refusal;
use bits::source::Source;
use bits::window::Window;
use bits::words::Words;

// The gets over bytes, and over words of the same bits.
pub(crate) fn over_numbers(bytes: &[u8], words: &[u32]) -> Result<Tally, Refusal> {
    let first = compare_gets(&Bytes::new(bytes)?, bytes, 0, 96);
    Ok(first + compare_gets(&Words::new(words)?, bytes, 0, 96))
}

// The gets over a window of bytes.
pub(crate) fn over_window(bytes: &[u8]) -> Result<Tally, Refusal> {
    let window = Window::new(Bytes::new(bytes)?, 5, 77)?;
    Ok(compare_gets(&window, bytes, 5, 77))
}

// The gets over a join of a window of bytes and one of words, and over a reference to it.
pub(crate) fn over_join(bytes: &[u8], words: &[u32]) -> Result<Tally, Refusal> {
    let front = Window::new(Bytes::new(bytes)?, 0, 37)?;
    let back = Window::new(Words::new(words)?, 37, 59)?;
    let join = Join::new(front, back)?;
    let first = compare_gets(&join, bytes, 0, 96);
    Ok(first + compare_gets(&&join, bytes, 0, 96))
}

// The gets over a window of a join of windows.
pub(crate) fn over_window_of_join(bytes: &[u8], words: &[u32]) -> Result<Tally, Refusal> {
    let front = Window::new(Bytes::new(bytes)?, 3, 50)?;
    let back = Window::new(Words::new(words)?, 53, 43)?;
    let window = Window::new(Join::new(front, back)?, 10, 71)?;
    Ok(compare_gets(&window, bytes, 13, 71))
}

// The gets over a join of bytes and of a join of words and bytes, through references.
pub(crate) fn over_join_of_join(bytes: &[u8], words: &[u32]) -> Result<Tally, Refusal> {
    let whole = Bytes::new(bytes)?;
    let inner = Join::new(Words::new(words)?, &whole)?;
    let join = Join::new(Window::new(&whole, 80, 16)?, &inner)?;
    let window = Window::new(&join, 16, 96)?;
    Ok(compare_gets(&window, bytes, 0, 96))
}

// A window that goes one bit past the end of twelve bytes.
pub(crate) fn past_end(bytes: &[u8]) -> Result<u32, Refusal> {
    let window = Window::new(Bytes::new(bytes)?, 90, 7)?;
    Ok(window.length())
}

// Compares the gets at places 0 to 70 of widths 0 to 33 with readings bit by bit. The source
// should have the `length` bits of the bytes from place `first`.
fn compare_gets<S: Source>(source: &S, bytes: &[u8], first: u32, length: u32) -> Tally
    requires { first ≤ 1000 }
    ensures { (result.compared ≡ 2414) × (result.different ≤ 2414) }
{
    compare(
        71,
        34,
        |p: u32, n: u32|
            requires { (first ≤ 1000) × (p ≤ 1000) × (n ≤ 1000) }
        { source.get(p, n) != expected_get(bytes, first, length, p, n) },
    )
}
