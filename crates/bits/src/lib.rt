// Sources of bits: lists of bits that never change, read some bits at a time as numbers.
//
// - `source`: the trait `Source`, with `length` and `get`.
// - `units`: the bits of a slice of units; `bytes`, `words`: those of bytes or of 32-bit words.
// - `window`, `join`, `reference`: sources made of sources, in any order.
// - `refusal`: the mistakes of callers that calls refuse.
// - `place`: whether bits lie where they are asked for.
// - `put`: storing bits into bytes.
// - `zero`: whether bits are all 0.
// - `laws`: the laws of lists of bits.
#![tactic(auto)]

pub mod bytes;
mod field;
pub mod join;
pub mod laws;
pub mod place;
pub mod put;
pub mod reference;
pub mod refusal;
pub mod source;
pub mod units;
pub mod window;
pub mod words;
pub mod zero;
