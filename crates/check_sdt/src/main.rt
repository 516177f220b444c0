// check: says whether a description file is accepted, or which rule it breaks first.
#![tactic(auto)]

use anyhow::anyhow;
use checked::checked::Checked;
use programs::{refuse, run};
use records::counts::Counts;
use std::process::ExitCode;
use std::{env, fs};

const HELP: &str = "usage: check [FILE]

Checks a description of a bit stream; FILE is description.sdt in the current folder if none is given.

It prints 'accepted' and how many classes, names, extensions, lines, nodes, maps and rows there are,
or 'refused' and three numbers: the rule that is broken, the table (1 to 7 in that order, 0 for the
file as a whole or its top class) and the record. One sentence on what the number means goes to
standard error. The status is 0 if the description is accepted, else 1.";

fn main(rt: HostRuntime) -> ExitCode {
    run(&rt, "check", HELP, file_name(&rt), |name: String| {
        check(&rt, name.as_str())
    })
}

// The file that the arguments name, or none where they ask for help.
fn file_name(rt: &HostRuntime) -> anyhow::Result<Option<String>> {
    let mut args = env::args(rt)?;
    let _ = args.next();
    let Some(name) = args.next() else {
        return Ok(Some(String::from_str(rt.alloc(), "description.sdt")?));
    };
    if args.next().is_some() {
        return Err(anyhow!("more than one file: see check --help"));
    }
    if name.as_str() == "--help" {
        return Ok(None);
    }
    Ok(Some(name))
}

// The bytes of a file; where it can't be read, that is said. Each program has its own: what is public has a contract,
// and none can speak of what a file holds.
fn bytes_of(rt: &HostRuntime, name: &str) -> anyhow::Result<Vec<u8>> {
    match fs::read(rt, name) {
        Ok(bytes) => Ok(bytes),
        Err(error) => {
            eprintln!(rt; "check: {name}: {error}")?;
            Err(anyhow!("unreadable"))
        }
    }
}

// Checks the file of this name, and prints what came of it.
fn check(rt: &HostRuntime, name: &str) -> anyhow::Result<()> {
    let bytes = bytes_of(rt, name)?;
    match Checked::load(rt.alloc(), bytes.as_slice()) {
        Ok(checked) => accept(rt, checked.tables().counts()),
        Err(fault) => refuse(rt, &fault, &fault.cause),
    }
}

fn accept(rt: &HostRuntime, counts: Counts) -> anyhow::Result<()> {
    println!(rt; "accepted {counts}")?;
    Ok(())
}
