// Bits as the cases write them, kept in the way that each make of source wants them.
ghost use Rattle.std.specs.Prelude.{◌≤◌};

use crate::lines::{bytes_of, words_after};
use anyhow::Context;
use std::alloc::{AllocError, Global};
use std::iter::once;

// Where the bits begin that stand inside other bytes.
pub(crate) const FIRST: u32 = 3;

#[derive(Drop)]
pub(crate) struct Stream {
    // how many bits there are
    pub(crate) length: u32,
    // the bits in bytes, the last of them padded
    pub(crate) bytes: Vec<u8>,
    // the bits in words, the last of them padded
    pub(crate) words: Vec<u32>,
    // the bits in bytes from place `FIRST` on, with ones before and after
    pub(crate) inside: Vec<u8>,
}

impl Stream {
    // The bits that stand in a case.
    pub(crate) fn of(heap: Global, case: &str) -> anyhow::Result<Stream> {
        let mut words = words_after(case, "bits");
        let length = words.next().context("a case without bits")?.parse::<u32>()?;
        let digits = words.next().context("bits without digits")?;
        let bytes = bytes_of(heap, digits)?;
        let words = bytes
            .chunks(4)
            .map(|part| word(part))
            .collect::<Vec<u32>>(heap)?;
        let inside = moved(heap, bytes.as_slice())?;
        Ok(Stream {
            length,
            bytes,
            words,
            inside,
        })
    }

    // A place near the middle that is no byte boundary, if there is one.
    pub(crate) fn middle(&self) -> u32
        ensures { result ≤ self.now.length }
    {
        let half = self.length / 2;
        if half % 8 == 0 && half < self.length {
            half + 1
        } else {
            half
        }
    }
}

// The word that begins with the bits of at most four bytes.
fn word(bytes: &[u8]) -> u32 {
    match bytes {
        [a, b, c, d, ..] => u32::from_be_bytes([*a, *b, *c, *d]),
        [a, b, c] => u32::from_be_bytes([*a, *b, *c, 0]),
        [a, b] => u32::from_be_bytes([*a, *b, 0, 0]),
        [a] => u32::from_be_bytes([*a, 0, 0, 0]),
        [] => 0,
    }
}

// The bits of some bytes, moved to place `FIRST`, with ones before and after.
fn moved(heap: Global, bytes: &[u8]) -> Result<Vec<u8>, AllocError> {
    let mut moved = Vec::new(heap);
    let mut before = 0xFFu8;
    for byte in bytes.iter().copied().chain(once(0xFF)) {
        moved.push(before << (8 - FIRST) | byte >> FIRST)?;
        before = byte;
    }
    Ok(moved)
}
