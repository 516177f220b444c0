// Description files, one a line in hexadecimal, each with the answer of the check: ok, or refused and three numbers.
use crate::digits::bytes_of;
use crate::tally::Tally;
use anyhow::Context;
use checked::checked::Checked;
use std::alloc::{AllocError, Global};
use std::fs;

// Runs the cases of a file, and prints which differ and how many there are.
pub(crate) fn run(rt: &HostRuntime, name: &str) -> anyhow::Result<()> {
    let text = fs::read_to_string(rt, name)?;
    let mut tally = Tally::default();
    for line in text.as_str().lines() {
        tally.begin();
        if !agrees(rt.alloc(), line)? {
            let case = tally.differs();
            println!(rt; "{name}, case {case} differs")?;
        }
    }
    println!(rt; "{name}: {tally}")?;
    Ok(())
}

// Whether a case gives the answer that stands beside it.
fn agrees(heap: Global, line: &str) -> anyhow::Result<bool> {
    let (file, expected) = line.split_once(' ').context("a case without an answer")?;
    let bytes = bytes_of(heap, file)?;
    let answer = answer(heap, bytes.as_slice())?;
    Ok(answer.as_str() == expected)
}

// What the check says of a file, as the cases write it.
fn answer(heap: Global, bytes: &[u8]) -> Result<String, AllocError> {
    match Checked::load(heap, bytes) {
        Ok(_) => String::from_str(heap, "ok"),
        Err(fault) => format!(in heap; "refused {fault}"),
    }
}
