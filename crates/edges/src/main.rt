// edges: reads what lies at the limits: full tables, the deepest nesting, the most elements, rounds and objects, and
// the shortest and longest sources. The descriptions and their bytes lie in data/, each edge under its name of
// edges.txt; the longest sources are made here.
#![tactic(auto)]

mod read;
mod sources;

use bits::bytes::Bytes;
use checked::checked::Checked;
use read::read;
use sources::longest;
use std::fs;

fn main(rt: HostRuntime) -> anyhow::Result<()> {
    let names = fs::read_to_string(&rt, "edges.txt")?;
    for name in names.as_str().lines() {
        edge(&rt, name)?;
    }
    longest(&rt)
}

// Checks an edge's description, reads its bytes by it, and prints what comes of both.
fn edge(rt: &HostRuntime, name: &str) -> anyhow::Result<()> {
    let table = format!(in rt.alloc(); "{name}.sdt")?;
    let description = fs::read(rt, table.as_str())?;
    let bytes = format!(in rt.alloc(); "{name}.bin")?;
    let stream = fs::read(rt, bytes.as_str())?;
    match Checked::load(rt.alloc(), description.as_slice()) {
        Ok(checked) => read(rt, name, &checked, Bytes::new(stream.as_slice())?),
        Err(fault) => {
            println!(rt; "{name}: refused {fault}")?;
            Ok(())
        }
    }
}
