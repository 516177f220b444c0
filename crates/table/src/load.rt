ghost use Rattle.std.specs.Prelude.{◌≡◌, ◌≤◌, true, length, IfOk};
ghost use Rattle.table.specs.Description.{description};
ghost use Rattle.table.specs.Loading.{has_mark, has_version, has_counts, counts_fit, counts_at, names_from, extensions_from, lines_from, nodes_from, maps_from, rows_from, file_length, file_fault, description_at, loaded, Loads};

use crate::loaded::Loaded;
use crate::record::{read_table, word};
use records::counts::Counts;
use records::faults::{Cause, Fault};
use std::alloc::{AllocError, Global};

// What every description file begins with.
const MARK: &[u8; 3] = b"SDT";

fn has_mark(bytes: &[u8]) -> bool
    ensures { result ≡ has_mark bytes.now }
{
    bytes.starts_with(MARK)
}

fn has_version(bytes: &[u8]) -> bool
    ensures { result ≡ has_version bytes.now }
{
    bytes.len() >= 5 && word(bytes, 3) == 1
}

// The counts that a file states, after its mark and version.
fn counts_at(bytes: &[u8]) -> Counts
    requires { 19 ≤ length bytes.now }
    ensures { result ≡ counts_at bytes.now }
{
    Counts {
        classes: word(bytes, 5),
        names: word(bytes, 7),
        extensions: word(bytes, 9),
        lines: word(bytes, 11),
        nodes: word(bytes, 13),
        maps: word(bytes, 15),
        rows: word(bytes, 17),
    }
}

// Whether there is a class, and no table has more records than it may.
fn counts_fit(counts: Counts) -> bool
    ensures { result ≡ counts_fit counts }
{
    (1..=32).contains(&counts.classes)
        && counts.names <= 128
        && counts.extensions <= 32
        && counts.lines <= 512
        && counts.nodes <= 256
        && counts.maps <= 16
        && counts.rows <= 256
}

fn has_counts(bytes: &[u8]) -> bool
    ensures { result ≡ has_counts bytes.now }
{
    bytes.len() >= 19 && counts_fit(counts_at(bytes))
}

// Where each table of a file begins after the classes, and where the last one ends.
#[derive(Clone, Copy)]
struct Places {
    names: usize,
    extensions: usize,
    lines: usize,
    nodes: usize,
    maps: usize,
    rows: usize,
    end: usize,
}

impl Places {
    // The tables follow one another, each by the size of its records.
    fn of(counts: Counts) -> Places
        ensures { result ≡ record { names = names_from counts; extensions = extensions_from counts; lines = lines_from counts; nodes = nodes_from counts; maps = maps_from counts; rows = rows_from counts; end = file_length counts } }
    {
        let names = 21 + counts.classes as usize * 20;
        let extensions = names + counts.names as usize * 2;
        let lines = extensions + counts.extensions as usize * 6;
        let nodes = lines + counts.lines as usize * 16;
        let maps = nodes + counts.nodes as usize * 6;
        let rows = maps + counts.maps as usize * 6;
        let end = rows + counts.rows as usize * 6;
        Places {
            names,
            extensions,
            lines,
            nodes,
            maps,
            rows,
            end,
        }
    }
}

// The first thing wrong with a file: its mark, its version, a count, its length.
fn file_fault(bytes: &[u8]) -> Option<Cause>
    ensures { result ≡ file_fault bytes.now }
{
    if !has_mark(bytes) {
        return Some(Cause::Mark);
    }
    if !has_version(bytes) {
        return Some(Cause::Version);
    }
    if !has_counts(bytes) {
        return Some(Cause::Count);
    }
    if bytes.len() != Places::of(counts_at(bytes)).end {
        return Some(Cause::Length);
    }
    None
}

// The top class and the tables of a file that is long enough for them.
fn read_tables(heap: Global, bytes: &[u8], counts: Counts) -> Result<Loaded, AllocError>
    requires { (file_length counts ≤ length bytes.now) × (counts_fit counts ≡ true) }
    ensures { IfOk result (λ l. description l ≡ description_at bytes.now counts) }
{
    let from = Places::of(counts);
    let classes = read_table(heap, bytes, 21, counts.classes)?;
    let names = read_table(heap, bytes, from.names, counts.names)?;
    let extensions = read_table(heap, bytes, from.extensions, counts.extensions)?;
    let lines = read_table(heap, bytes, from.lines, counts.lines)?;
    let nodes = read_table(heap, bytes, from.nodes, counts.nodes)?;
    let maps = read_table(heap, bytes, from.maps, counts.maps)?;
    let rows = read_table(heap, bytes, from.rows, counts.rows)?;
    let top = word(bytes, 19);
    Ok(Loaded {
        top,
        classes,
        names,
        extensions,
        lines,
        nodes,
        maps,
        rows,
    })
}

// The description that a file holds, or what is wrong with the file as a whole.
pub fn load(heap: Global, bytes: &[u8]) -> Result<Loaded, Fault>
    ensures { Loads (loaded bytes.now) result }
{
    if let Some(cause) = file_fault(bytes) {
        return Err(Fault::of_file(cause));
    }
    read_tables(heap, bytes, counts_at(bytes)).map_err(|_| Fault::of_file(Cause::Memory))
}
