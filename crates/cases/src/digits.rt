// Hexadecimal digits where cases are gone through line by line. Not by the library `hex`: here capital letters are no
// digits, and a digit that is left over at the end is not looked at.
ghost use Rattle.std.specs.Prelude.{◌<◌, IfSome};

use anyhow::Context;
use std::alloc::Global;

// The value of a hexadecimal digit.
pub(crate) fn digit(c: u8) -> Option<u8>
    ensures { IfSome result (λ d. d < 16) }
{
    match c {
        b'0'..=b'9' => Some(c - b'0'),
        b'a'..=b'f' => Some(c - b'a' + 10),
        _ => None,
    }
}

// The byte that two digits write.
fn byte(high: u8, low: u8) -> Option<u8> {
    Some(digit(high)? * 16 + digit(low)?)
}

// The bytes that a text in hexadecimal writes; '-' is no byte.
pub(crate) fn bytes_of(heap: Global, text: &str) -> anyhow::Result<Vec<u8>> {
    let mut bytes = Vec::new(heap);
    if text == "-" {
        return Ok(bytes);
    }
    let digits = text.as_bytes();
    for i in 0..digits.len() / 2 {
        let b = byte(digits[2 * i], digits[2 * i + 1]).context("not hexadecimal")?;
        bytes.push(b)?;
    }
    Ok(bytes)
}
