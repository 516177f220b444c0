// cases: runs the kept cases with known answers, and says how many there are and which of them differ.
#![tactic(auto)]

mod by_line;
mod descriptions;
mod digits;
mod growth_cases;
mod lines;
mod makes;
mod operators;
mod outcome;
mod pieces;
mod readings;
mod run;
mod stream;
mod tally;
mod writings;

use makes::Make;
use outcome::Call;
use readings::{NEWER, OLDER, ONLY};
use run::run;
use writings::written_agrees;

fn main(rt: HostRuntime) -> anyhow::Result<()> {
    run_all(&rt)
}

fn run_all(rt: &HostRuntime) -> anyhow::Result<()> {
    run_by_line(rt)?;
    let heap = rt.alloc();
    // writings, call by call; and refusals that those cases lack
    for file in ["write.txt", "refusals.txt"] {
        run(rt, file, "", |case| Ok(Some(written_agrees(heap, case)?)))?;
    }
    for make in Make::ALL {
        for call in Call::ALL {
            read_all(rt, make, call)?;
        }
    }
    read_by_pieces(rt)
}

// Runs the cases that are gone through line by line: is a description accepted, what are its nodes' values, and what is
// there for an older description in a newer one?
fn run_by_line(rt: &HostRuntime) -> anyhow::Result<()> {
    // answers that two independent models of the rules agree on
    descriptions::run(rt, "check.txt")?;
    // each table at its largest count, and with one record more
    descriptions::run(rt, "limits.txt")?;
    // the value of one operator in each case
    operators::run(rt)?;
    // whether a newer description has grown from an older one
    growth_cases::run(rt, "grown.txt")?;
    // and what is struck of the newer's items
    growth_cases::run(rt, "grow.txt")
}

// Runs the cases of readings of whole bytes, piece by piece.
fn read_by_pieces(rt: &HostRuntime) -> anyhow::Result<()> {
    let heap = rt.alloc();
    for file in ["read.txt", "operators.txt"] {
        run(
            rt,
            file,
            ", piece by piece",
            |case| ONLY.agrees_by_pieces(heap, case),
        )?;
    }
    for told in [NEWER, OLDER] {
        let how = format!(in heap; ", by the {} piece by piece", told.name)?;
        run(
            rt,
            "grow.txt",
            how.as_str(),
            |case| told.agrees_by_pieces(heap, case),
        )?;
    }
    Ok(())
}

// Runs the cases of readings, from a make of source, by a call.
fn read_all(rt: &HostRuntime, make: Make, call: Call) -> anyhow::Result<()> {
    let heap = rt.alloc();
    let how = format!(in heap; ", from {make} by {call}")?;
    let how = how.as_str();
    // readings of random descriptions
    run(
        rt,
        "read.txt",
        how,
        |case| Ok(Some(ONLY.agrees(heap, case, make, call)?)),
    )?;
    // and of those of one operator
    run(
        rt,
        "operators.txt",
        how,
        |case| Ok(Some(ONLY.agrees(heap, case, make, call)?)),
    )?;
    // readings by an older and a newer description
    run(
        rt,
        "grow.txt",
        how,
        |case| Ok(Some(
            NEWER.agrees(heap, case, make, call)? && OLDER.agrees(heap, case, make, call)?,
        )),
    )
}
