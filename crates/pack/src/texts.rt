// Items as a text writes them.
use anyhow::{Context, anyhow};
use rules::items::{Item, Kind};

// The numbers of a line, which has so many.
fn numbers_of<const N: usize>(line: &str) -> anyhow::Result<[i64; N]> {
    let mut numbers = [0; N];
    let mut words = line.split_whitespace();
    for number in numbers.iter_mut() {
        let word = words.next().context("a line with too few numbers")?;
        *number = word.parse::<i64>()?;
    }
    if words.next().is_some() {
        return Err(anyhow!("a line with too many numbers"));
    }
    Ok(numbers)
}

// The item that seven numbers write.
pub(crate) fn item_of(line: &str) -> anyhow::Result<Item> {
    let [kind, line, class, index, value, place, length] = numbers_of::<7>(line)?;
    Ok(Item {
        kind: Kind::try_from(u16::try_from(kind)?)?,
        line: u16::try_from(line)?,
        class: u16::try_from(class)?,
        index: u16::try_from(index)?,
        value,
        place: u32::try_from(place)?,
        length: u32::try_from(length)?,
    })
}

// The items of a text, without a last line `end`.
pub(crate) fn without_end(text: &str) -> &str {
    let lines = text.trim_end();
    lines.strip_suffix("end").unwrap_or(lines)
}

// The place of the last item, rounded up to whole bytes.
pub(crate) fn default_length(items: &str) -> u64 {
    let mut place = 0;
    for line in items.lines() {
        if let Ok(item) = item_of(line) {
            place = item.place;
        }
    }
    u64::from(place.div_ceil(8)) * 8
}
