// items: reads a stream by a description, piece by piece, and prints its items, and the end or the fault.
#![tactic(auto)]

mod pieces;

use crate::pieces::Pieces;
use anyhow::anyhow;
use checked::checked::Checked;
use programs::{refuse, run};
use std::process::ExitCode;
use std::{env, fs, io};
use streaming::state::Streaming;

const HELP: &str = "usage: items [DESCRIPTION STREAM]

Reads a stream of bits by a description; the files are description.sdt and stream.bin in the current
folder if none are given.

It prints each item as seven numbers (kind: 1 value, 2 open, 3 close; line, class, index, value,
place, length), then 'end', or 'refused' and the numbers of the fault: cause, line, node and place,
or, for a fault of the description, cause, table and record. One sentence on what the cause means
goes to standard error. The status is 0 if the end was reached, else 1.";

// The files to read.
#[derive(Drop)]
struct Files {
    description: String,
    stream: String,
}

fn main(rt: HostRuntime) -> ExitCode {
    run(&rt, "items", HELP, named_files(&rt), |files: Files| {
        items(&rt, &files)
    })
}

// The files that the arguments name, or none where they ask for help.
fn named_files(rt: &HostRuntime) -> anyhow::Result<Option<Files>> {
    let mut args = env::args(rt)?;
    let _ = args.next();
    let Some(description) = args.next() else {
        return Ok(Some(Files {
            description: String::from_str(rt.alloc(), "description.sdt")?,
            stream: String::from_str(rt.alloc(), "stream.bin")?,
        }));
    };
    if description.as_str() == "--help" {
        return Ok(None);
    }
    let Some(stream) = args.next() else {
        return Err(anyhow!("a description and no stream: see items --help"));
    };
    if args.next().is_some() {
        return Err(anyhow!("more than two files: see items --help"));
    }
    Ok(Some(Files {
        description,
        stream,
    }))
}

// What a file gives; where it can't be read, that is said. Each program has its own: what is public has a contract,
// and none can speak of what a file holds.
fn read_or_say<T: Drop>(rt: &HostRuntime, name: &str, read: io::Result<T>) -> anyhow::Result<T> {
    match read {
        Ok(what) => Ok(what),
        Err(error) => {
            eprintln!(rt; "items: {name}: {error}")?;
            Err(anyhow!("unreadable"))
        }
    }
}

// Reads the stream by the description, and prints what comes of it.
fn items(rt: &HostRuntime, files: &Files) -> anyhow::Result<()> {
    let name = files.description.as_str();
    let bytes = read_or_say(rt, name, fs::read(rt, name))?;
    let checked = match Checked::load(rt.alloc(), bytes.as_slice()) {
        Ok(checked) => checked,
        Err(fault) => return refuse(rt, &fault, &fault.cause),
    };
    let name = files.stream.as_str();
    let (pieces, length) = read_or_say(rt, name, Pieces::open(rt, name))?;
    match Streaming::open(&checked, length) {
        Ok(reading) => print_items(rt, name, reading, pieces),
        Err(refusal) => refuse(rt, &refusal.number(), &refusal),
    }
}

// Prints the items of a reading, and how it ends.
fn print_items(
    rt: &HostRuntime,
    name: &str,
    mut reading: Streaming,
    mut pieces: Pieces,
) -> anyhow::Result<()> {
    for _ in 0..u64::MAX {
        match reading.next(pieces.first(), pieces.bytes()) {
            None => read_or_say(rt, name, pieces.go_to(reading.wanted()))?,
            Some(Ok(Some(item))) => println!(rt; "{item}")?,
            Some(Ok(None)) => {
                println!(rt; "end")?;
                return Ok(());
            }
            Some(Err(fault)) => return refuse(rt, &fault, &fault.cause),
        }
    }
    Err(anyhow!("more items than a number can count"))
}
