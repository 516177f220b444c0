// Gets of each make of source, many at once, to measure them.
ghost use Rattle.std.specs.Prelude.{◌≡◌, ◌+◌, ◌++◌, length};
ghost use Rattle.bits.specs.Bits.{part};
ghost use Rattle.bits.specs.Make.{most_bytes, most_words};
ghost use Rattle.bits.specs.Units.{units_bits};
ghost use Rattle.embed.specs.Gets.{places_swept, rounds_swept, swept, swept_of, taken};
ghost use Rattle.embed.specs.Sources.{byte_bits, no_window, too_long};

use crate::over::{join, window};
use bits::bytes::Bytes;
use bits::refusal::Refusal;
use bits::source::Source;
use bits::words::Words;

// The gets of so many rounds; nothing for a source that was refused.
fn gets<S: Source + Drop>(source: Result<S, Refusal>, rounds: u32) -> u64
    ensures { result ≡ swept_of S.bits source rounds }
{
    match source {
        Ok(source) => sweep(&source, rounds),
        Err(_) => 0,
    }
}

// The exclusive or of what the gets of so many rounds give.
fn sweep<S: Source>(source: &S, rounds: u32) -> u64
    ensures { result ≡ rounds_swept (S.bits source.now) rounds }
{
    let mut all = 0;
    for round in 0..rounds {
        all = sweep_places(source, round, all);
    }
    all
}

// With 8000 gets more, at places 0 to 7999 and of widths 1 to 32.
fn sweep_places<S: Source>(source: &S, round: u32, before: u64) -> u64
    ensures { result ≡ places_swept (S.bits source.now) round before 8000 }
{
    let mut all = before;
    for place in 0..8000u32 {
        all = taken(all, source.get(place, 1 + (place ^ round) % 32));
    }
    all
}

// A number with what a get gave.
fn taken(all: u64, given: Result<u64, Refusal>) -> u64
    ensures { result ≡ taken all given }
{
    match given {
        Ok(value) => all ^ value,
        Err(_) => all,
    }
}

#[unsafe(no_mangle)]
pub extern "C" fn jilafotra_gets(bytes: &[u8], rounds: u32) -> u64
    ensures { result ≡ swept (byte_bits bytes.now) (too_long most_bytes (length bytes.now)) rounds }
{
    gets(Bytes::new(bytes), rounds)
}

#[unsafe(no_mangle)]
pub extern "C" fn jilafotra_gets_words(words: &[u32], rounds: u32) -> u64
    ensures { result ≡ swept (units_bits 32 (λ w. w) words.now) (too_long most_words (length words.now)) rounds }
{
    gets(Words::new(words), rounds)
}

#[unsafe(no_mangle)]
pub extern "C" fn jilafotra_gets_window(bytes: &[u8], first: u32, count: u32, rounds: u32) -> u64
    ensures { result ≡ swept (part (byte_bits bytes.now) first count) (no_window (length bytes.now) first count) rounds }
{
    gets(window(bytes, first, count), rounds)
}

#[unsafe(no_mangle)]
pub extern "C" fn jilafotra_gets_join(front: &[u8], back: &[u8], rounds: u32) -> u64
    ensures { result ≡ swept (byte_bits front.now ++ byte_bits back.now) (too_long most_bytes (length front.now + length back.now)) rounds }
{
    gets(join(front, back), rounds)
}
