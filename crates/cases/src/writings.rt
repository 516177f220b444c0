// Cases of writings: a description, a length, a buffer, calls with their answers, and the buffer after them. Where the
// opening is refused, a line 'open' says why.
use crate::lines::{bytes_of, description_after, item_of, lines_after, words_after};
use anyhow::Context;
use checked::checked::Checked;
use std::alloc::Global;
use writing::finish::Unfinished;
use writing::refusal::WritingRefusal;
use writing::state::{Duty, Writing};

// Whether each call answers what the case says, and leaves the buffer that it says.
pub(crate) fn written_agrees(heap: Global, case: &str) -> anyhow::Result<bool> {
    let checked = description_after(heap, case, "description")?;
    let length = words_after(case, "length")
        .next()
        .context("a case without a length")?
        .parse::<u64>()?;
    let mut buffers = case.lines().filter_map(|line| line.strip_prefix("buffer "));
    let before = buffers.next().context("a case without a buffer")?;
    let after = buffers.next().context("a case with one buffer")?;
    let mut buffer = bytes_of(heap, before)?;
    let expected = bytes_of(heap, after)?;
    let agrees = calls_agree(case, checked, length, &mut buffer)?;
    Ok(agrees && buffer == expected)
}

// Whether each call answers what the case says.
fn calls_agree(
    case: &str,
    checked: Checked,
    length: u64,
    buffer: &mut [u8],
) -> anyhow::Result<bool> {
    match Writing::open(checked, length) {
        Ok((mut writing, duty)) => {
            let puts = puts_agree(&mut writing, case, buffer);
            let refusal = finished(writing, duty, buffer);
            let word = words_after(case, "finish").next().context("no finish")?;
            Ok(puts? && says(word, refusal))
        }
        Err(unopened) => {
            let word = words_after(case, "open").next().context("not opened")?;
            Ok(says(word, Some(unopened.refusal)))
        }
    }
}

// Whether each put of a case answers what it says.
fn puts_agree(writing: &mut Writing, case: &str, buffer: &mut [u8]) -> anyhow::Result<bool> {
    for line in case.lines() {
        if let Some(put) = line.strip_prefix("put ") {
            let (item, word) = put.rsplit_once(' ').context("a put without an answer")?;
            if !says(word, put_refused(writing, item, buffer)) {
                return Ok(false);
            }
        }
    }
    Ok(true)
}

// Why a put is refused. Numbers that are no item's can't come next.
fn put_refused(writing: &mut Writing, item: &str, buffer: &mut [u8]) -> Option<WritingRefusal> {
    match item_of(item) {
        Ok(item) => writing.put(item, buffer).err(),
        Err(_) => Some(WritingRefusal::NotNext),
    }
}

// Why a finish is refused; the writing is then given up.
fn finished(writing: Writing, duty: Duty, buffer: &mut [u8]) -> Option<WritingRefusal> {
    match writing.finish(duty, buffer) {
        Ok(_) => None,
        Err(
            Unfinished {
                refusal,
                writing,
                duty,
            },
        ) => {
            let _ = writing.give_up(duty);
            Some(refusal)
        }
    }
}

// Whether a word says that a call was accepted, or refused with this number.
fn says(word: &str, refusal: Option<WritingRefusal>) -> bool {
    match refusal {
        None => word == "ok",
        Some(refusal) => word.parse::<u16>() == Ok(refusal.number()),
    }
}
