// What the lines of a case write: descriptions and items.
use anyhow::{Context, anyhow};
use checked::checked::Checked;
use rules::items::{Item, Kind};
use std::alloc::Global;
use std::str::{Lines, SplitWhitespace};

// The words of a case after the first that is a name.
pub(crate) fn words_after<'a>(case: &'a str, name: &str) -> SplitWhitespace<'a> {
    let mut words = case.split_whitespace();
    let _ = words.find(|word| *word == name);
    words
}

// The lines of a case after the first that begins with a heading.
pub(crate) fn lines_after<'a>(case: &'a str, heading: &str) -> Lines<'a> {
    let mut lines = case.lines();
    let _ = lines.find(|line| line.starts_with(heading));
    lines
}

// The bytes that a text in hexadecimal writes; '-' is no byte.
pub(crate) fn bytes_of(heap: Global, text: &str) -> anyhow::Result<Vec<u8>> {
    let digits = if text == "-" { "" } else { text };
    hex::decode(heap, digits).context("not hexadecimal")
}

// The description that stands in a case after a name, checked.
pub(crate) fn description_after(heap: Global, case: &str, name: &str) -> anyhow::Result<Checked> {
    let text = words_after(case, name)
        .next()
        .context("a case without a description")?;
    let bytes = bytes_of(heap, text)?;
    Checked::load(heap, bytes.as_slice()).map_err(|fault| anyhow!(
        "a description that is refused: {fault}"
    ))
}

// The numbers of a line, where it has so many.
fn numbers_of<const N: usize>(line: &str) -> Option<[i64; N]> {
    let mut numbers = [0; N];
    let mut words = line.split_whitespace();
    for number in numbers.iter_mut() {
        *number = words.next()?.parse().ok()?;
    }
    words.next().is_none().then_some(numbers)
}

// The item that seven numbers write.
pub(crate) fn item_of(line: &str) -> anyhow::Result<Item> {
    let [kind, line, class, index, value, place, length] = numbers_of::<7>(line).context(
        "a line that is not seven numbers",
    )?;
    Ok(Item {
        kind: Kind::try_from(u16::try_from(kind)?)?,
        line: u16::try_from(line)?,
        class: u16::try_from(class)?,
        index: u16::try_from(index)?,
        value,
        place: u32::try_from(place)?,
        length: u32::try_from(length)?,
    })
}
