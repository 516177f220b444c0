// Items, faults and descriptions where cases are gone through line by line. Apart from `lines`, which reads other
// digits, and says other things of what it can't read.
use crate::digits::bytes_of;
use anyhow::{Context, anyhow};
use checked::checked::Checked;
use rules::faults::{ReadingCause, ReadingFault};
use rules::items::{Item, Kind};
use std::alloc::Global;
use table::load::load;

// The description that a text in hexadecimal writes, checked.
pub(crate) fn description_of(heap: Global, text: &str) -> anyhow::Result<Checked> {
    let bytes = bytes_of(heap, text)?;
    let loaded = load(heap, bytes.as_slice())
        .ok()
        .context("a description that does not load")?;
    Checked::new(loaded)
        .ok()
        .context("a description that is refused")
}

// The numbers of a line.
fn numbers_of(heap: Global, line: &str) -> anyhow::Result<Vec<i64>> {
    let mut numbers = Vec::new(heap);
    for word in line.split_whitespace() {
        numbers.push(word.parse::<i64>()?)?;
    }
    Ok(numbers)
}

// The item that seven numbers write.
pub(crate) fn item_of(heap: Global, line: &str) -> anyhow::Result<Item> {
    let numbers = numbers_of(heap, line)?;
    let [kind, line, class, index, value, place, length] = numbers.as_slice() else {
        return Err(anyhow!("an item of other than seven numbers"));
    };
    Ok(Item {
        kind: kind_of(*kind).context("no such kind of item")?,
        line: u16::try_from(*line)?,
        class: u16::try_from(*class)?,
        index: u16::try_from(*index)?,
        value: *value,
        place: u32::try_from(*place)?,
        length: u32::try_from(*length)?,
    })
}

// The kind of item with a number.
fn kind_of(number: i64) -> Option<Kind> {
    Kind::try_from(u16::try_from(number).ok()?).ok()
}

// A fault of the line, node and place that four numbers write. Striking asks nothing of the cause.
pub(crate) fn fault_of(heap: Global, line: &str) -> anyhow::Result<ReadingFault> {
    let numbers = numbers_of(heap, line)?;
    let [_, line, node, place] = numbers.as_slice() else {
        return Err(anyhow!("a fault of other than four numbers"));
    };
    Ok(ReadingFault {
        cause: ReadingCause::Unchecked,
        line: u16::try_from(*line)?,
        node: u16::try_from(*node)?,
        place: u32::try_from(*place)?,
    })
}
