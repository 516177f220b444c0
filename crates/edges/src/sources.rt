// The longest sources.
use crate::read::read;
use anyhow::anyhow;
use bits::bytes::{Bytes, MOST_BYTES};
use bits::join::Join;
use bits::refusal::Refusal;
use bits::window::Window;
use checked::checked::Checked;
use std::fs;

// How long an object with the greatest size is, with its id and its three size bytes.
const GREATEST: usize = 65_539;

// The size of what is left for the last object.
const LAST: u16 = 53_246;

// Prints what comes of the longest source and join, and of what is longer, by the description of the edge `uses`.
pub(crate) fn longest(rt: &HostRuntime) -> anyhow::Result<()> {
    let description = fs::read(rt, "uses.sdt")?;
    let mut bytes = vec![in rt.alloc(); 0u8; MOST_BYTES + 1]?;
    fill(&mut bytes);
    match Checked::load(rt.alloc(), description.as_slice()) {
        Ok(checked) => read_longest(rt, &checked, bytes.as_slice()),
        Err(_) => Err(anyhow!("uses.sdt is refused")),
    }
}

// The id and the size bytes of an object.
fn head(size: u16) -> [u8; 4] {
    [
        9,
        0x80 | (size >> 14) as u8,
        0x80 | (size >> 7 & 127) as u8,
        (size & 127) as u8,
    ]
}

// Writes the heads of objects that fill the longest source: each of the greatest size, and a last one.
fn fill(bytes: &mut [u8]) {
    let count = MOST_BYTES / GREATEST;
    for i in 0..=count {
        let head = if i < count { head(65_535) } else { head(LAST) };
        let at = i * GREATEST;
        if let Some(place) = bytes.get_mut(at..at + 4) {
            place.copy_from_slice(&head);
        }
    }
}

// The same of so many bytes and one more.
fn read_longest(rt: &HostRuntime, checked: &Checked, bytes: &[u8]) -> anyhow::Result<()> {
    let Some(most) = bytes.get(..MOST_BYTES) else {
        return Err(anyhow!("too few bytes"));
    };
    read(rt, "longest", checked, Bytes::new(most)?)?;
    refusal(rt, "one-byte-more", Bytes::new(bytes).err())?;
    let source = Bytes::new(most)?;
    let seven = Window::new(Bytes::new(&[0])?, 0, 7)?;
    let eight = Window::new(Bytes::new(&[0])?, 0, 8)?;
    read(rt, "longest-join", checked, Join::new(source, seven)?)?;
    refusal(rt, "one-bit-more", Join::new(source, eight).err())
}

// Prints why a source was refused.
fn refusal(rt: &HostRuntime, name: &str, refused: Option<Refusal>) -> anyhow::Result<()> {
    match refused {
        Some(refusal) => println!(rt; "{name}: refused {}", refusal.number())?,
        None => println!(rt; "{name}: made")?,
    }
    Ok(())
}
