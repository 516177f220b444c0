// compare: reads a stream by an older and by a newer description side by side, and prints what the older's reader sees.
#![tactic(auto)]

use anyhow::anyhow;
use bits::bytes::Bytes;
use checked::checked::Checked;
use comparison::comparison::{Comparison, Seen};
use programs::{refuse, run};
use reading::walk::Answer;
use rules::items::Item;
use std::process::ExitCode;
use std::{env, fs};

const HELP: &str = "usage: compare [OLDER NEWER STREAM]

Reads a stream by an older and by a newer description side by side; the files are older.sdt,
newer.sdt and stream.bin in the current folder if none are given.

The first line is 'grown yes' if the newer description has grown from the older, else 'grown no'.
Then come the items, seven numbers each (kind, line, class, index, value, place, length), after a
word: 'both' for one that the older's reader sees and that is left of the newer's, 'struck' for one
of the newer's of which nothing is left for the older, 'older' and 'newer' for one that only this
side has. Then 'older' and 'newer' with how each reading ended: 'end', or 'refused' and the numbers
of the fault; and 'inside yes' if the newer's fault lies inside what the older lacks, else 'inside
no'. The status is 0 if the comparison was made, 1 if a file was refused or can't be read.";

// The files to read.
#[derive(Drop)]
struct Files {
    older: String,
    newer: String,
    stream: String,
}

fn main(rt: HostRuntime) -> ExitCode {
    run(&rt, "compare", HELP, named_files(&rt), |files: Files| {
        compare(&rt, &files)
    })
}

// The files that the arguments name, or none where they ask for help.
fn named_files(rt: &HostRuntime) -> anyhow::Result<Option<Files>> {
    let mut args = env::args(rt)?;
    let _ = args.next();
    let Some(older) = args.next() else {
        return Ok(Some(Files {
            older: String::from_str(rt.alloc(), "older.sdt")?,
            newer: String::from_str(rt.alloc(), "newer.sdt")?,
            stream: String::from_str(rt.alloc(), "stream.bin")?,
        }));
    };
    if older.as_str() == "--help" {
        return Ok(None);
    }
    let Some(newer) = args.next() else {
        return Err(anyhow!("one file and not three: see compare --help"));
    };
    let Some(stream) = args.next() else {
        return Err(anyhow!("two files and not three: see compare --help"));
    };
    if args.next().is_some() {
        return Err(anyhow!("more than three files: see compare --help"));
    }
    Ok(Some(Files {
        older,
        newer,
        stream,
    }))
}

// The bytes of a file; where it can't be read, that is said. Each program has its own: what is public has a contract,
// and none can speak of what a file holds.
fn bytes_of(rt: &HostRuntime, name: &str) -> anyhow::Result<Vec<u8>> {
    match fs::read(rt, name) {
        Ok(bytes) => Ok(bytes),
        Err(error) => {
            eprintln!(rt; "compare: {name}: {error}")?;
            Err(anyhow!("unreadable"))
        }
    }
}

// The checked description that a file holds; a fault is said.
fn description_of(rt: &HostRuntime, name: &str) -> anyhow::Result<Checked> {
    let bytes = bytes_of(rt, name)?;
    match Checked::load(rt.alloc(), bytes.as_slice()) {
        Ok(checked) => Ok(checked),
        Err(fault) => {
            let cause = fault.cause;
            println!(rt; "refused {fault}")?;
            eprintln!(rt; "compare: {name}: {cause}")?;
            Err(anyhow!("refused"))
        }
    }
}

// Reads the stream by both descriptions, and prints what comes of it.
fn compare(rt: &HostRuntime, files: &Files) -> anyhow::Result<()> {
    let older = description_of(rt, files.older.as_str())?;
    let newer = description_of(rt, files.newer.as_str())?;
    let bits = bytes_of(rt, files.stream.as_str())?;
    match Bytes::new(bits.as_slice()) {
        Ok(source) => print_all(rt, Comparison::open(&older, &newer, source, source)),
        Err(refusal) => refuse(rt, &refusal.number(), &refusal),
    }
}

// Prints what comes of both readings, up to the end of both.
fn print_all(rt: &HostRuntime, mut comparison: Comparison<Bytes, Bytes>) -> anyhow::Result<()> {
    let grown = yes_or_no(comparison.has_grown());
    println!(rt; "grown {grown}")?;
    for _ in 0..u64::MAX {
        match comparison.next() {
            Seen::Struck(item) => println!(rt; "struck {item}")?,
            Seen::Both {
                older: Ok(Some(older)),
                newer: Ok(Some(newer)),
            } => print_both(rt, older, newer)?,
            Seen::Both {
                older: Ok(Some(item)),
                ..
            } => println!(rt; "older {item}")?,
            Seen::Both {
                newer: Ok(Some(item)),
                ..
            } => println!(rt; "newer {item}")?,
            Seen::Both { older, newer } => return print_end(rt, &comparison, older, newer),
        }
    }
    Err(anyhow!("more items than a number can count"))
}

// Prints the older's next item and what is left of the newer's.
fn print_both(rt: &HostRuntime, older: Item, newer: Item) -> anyhow::Result<()> {
    if older == newer {
        println!(rt; "both {older}")?;
    } else {
        println!(rt; "older {older}")?;
        println!(rt; "newer {newer}")?;
    }
    Ok(())
}

// Prints how both readings ended.
fn print_end(
    rt: &HostRuntime,
    comparison: &Comparison<Bytes, Bytes>,
    older: Answer,
    newer: Answer,
) -> anyhow::Result<()> {
    print_ending(rt, "older", older)?;
    print_ending(rt, "newer", newer)?;
    let inside = yes_or_no(newer.is_err_and(|fault| comparison.lacks(fault)));
    println!(rt; "inside {inside}")?;
    Ok(())
}

// Prints how a reading ended.
fn print_ending(rt: &HostRuntime, side: &str, ending: Answer) -> anyhow::Result<()> {
    match ending {
        Ok(_) => println!(rt; "{side} end")?,
        Err(fault) => println!(rt; "{side} refused {fault}")?,
    }
    Ok(())
}

fn yes_or_no(answer: bool) -> &'static str {
    if answer { "yes" } else { "no" }
}
