// pack: writes a stream by a description, item by item.
#![tactic(auto)]

mod files;
mod packing;
mod texts;

use anyhow::{Context, anyhow};
use bits::source::LONGEST;
use checked::checked::Checked;
use files::{Job, named_job};
use packing::{Refused, pack};
use programs::{refuse, run};
use std::process::ExitCode;
use std::{fmt, fs};
use texts::{default_length, without_end};
use writing::refusal::WritingRefusal;

const HELP: &str = "usage: pack [DESCRIPTION ITEMS LENGTH STREAM]

Writes a stream of LENGTH bits by a description, item by item. If none are given, the files are
description.sdt, items.txt and stream.bin in the current folder, and the length is the last item's
place, rounded up to whole bytes.

ITEMS has an item on each line, as the seven numbers that items prints; a last line 'end' may stand.
STREAM is written only where all items are accepted.

It prints how many items, bits and bytes it wrote, or 'refused' and the numbers of the refusal: its
number, and the line of ITEMS where it came (0 for none; where the stream can't be finished, the line
after the last item), or, for a fault of the description, cause, table and record. One sentence on
what the number means goes to standard error. The status is 0 if the stream was written, else 1.";

fn main(rt: HostRuntime) -> ExitCode {
    run(
        &rt,
        "pack",
        HELP,
        named_job(&rt),
        |job: Job| pack_files(&rt, &job),
    )
}

// What is written by a job's files, and to its stream.
fn pack_files(rt: &HostRuntime, job: &Job) -> anyhow::Result<()> {
    let description = match fs::read(rt, job.description.as_str()) {
        Ok(bytes) => bytes,
        Err(error) => return fail(rt, job.description.as_str(), &error),
    };
    let text = match fs::read_to_string(rt, job.items.as_str()) {
        Ok(text) => text,
        Err(error) => return fail(rt, job.items.as_str(), &error),
    };
    match Checked::load(rt.alloc(), description.as_slice()) {
        Ok(checked) => pack_items(rt, job, checked, without_end(text.as_str())),
        Err(fault) => refuse(rt, &fault, &fault.cause),
    }
}

// Writes the items of a text into a buffer, and the buffer to the job's stream.
fn pack_items(rt: &HostRuntime, job: &Job, checked: Checked, items: &str) -> anyhow::Result<()> {
    let length = job.length.unwrap_or(default_length(items));
    let bytes = length.min(LONGEST as u64).div_ceil(8) as usize;
    let mut buffer = vec![in rt.alloc(); 0u8; bytes]?;
    match pack(checked, length, items, &mut buffer) {
        Ok(count) => {
            fs::write(rt, job.stream.as_str(), buffer.as_slice()).context(
                "the stream can't be written",
            )?;
            println!(rt; "{count} items, {length} bits, {bytes} bytes")?;
            Ok(())
        }
        Err(refused) => refuse(rt, &refused, &refused.refusal),
    }
}

// Says that a file can't be read.
fn fail<E: fmt::Display>(rt: &HostRuntime, name: &str, error: &E) -> anyhow::Result<()> {
    eprintln!(rt; "pack: {name}: {error}")?;
    Err(anyhow!("unreadable"))
}
