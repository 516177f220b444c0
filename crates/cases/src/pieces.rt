// Readings of a stream that comes piece by piece.
use crate::outcome::Outcome;
use anyhow::anyhow;
use checked::checked::Checked;
use std::alloc::Global;
use streaming::state::Streaming;

// What a streaming reading hands out that is lent just the bytes that it wants, at each call.
pub(crate) fn by_pieces(
    heap: Global,
    description: &Checked,
    bytes: &[u8],
) -> anyhow::Result<Outcome> {
    let mut items = Vec::new(heap);
    let mut reading = Streaming::open(description, bytes.len() as u64)?;
    for _ in 0..u64::MAX {
        let wanted = reading.wanted();
        let piece = bytes
            .get(wanted.first as usize..wanted.end as usize)
            .unwrap_or_default();
        match reading.next(wanted.first, piece) {
            None => {}
            Some(Ok(Some(item))) => items.push(item)?,
            Some(Ok(None)) => return Ok(Outcome { items, fault: None }),
            Some(Err(fault)) => {
                let fault = Some(fault);
                return Ok(Outcome { items, fault });
            }
        }
    }
    Err(anyhow!("more items than a number can count"))
}
