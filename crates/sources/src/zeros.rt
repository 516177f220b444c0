use crate::expected::expected_zero;
use crate::tally::{Tally, compare};
use bits::bytes::Bytes;
use bits::refusal::Refusal;
use bits::zero::is_zero;

// Compares the test for zero bits with readings bit by bit, at places 0 to 99 of 0 to 99 bits.
pub(crate) fn over_zeros(bytes: &[u8]) -> Result<Tally, Refusal> {
    let source = Bytes::new(bytes)?;
    Ok(compare(100, 100, |from, count| {
        is_zero(&source, from, count) != expected_zero(bytes, from, count)
    }))
}
