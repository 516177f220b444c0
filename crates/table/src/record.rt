ghost use Rattle.std.specs.Prelude.{◌≡◌, ℕ, ◌+◌, ◌*◌, ◌≤◌, Bool, List, length, IfOk, vec_len};
ghost use Rattle.std.specs.Option.{option_copied, unwrap_or};
ghost use Rattle.records.specs.declared.counts.Counts.{Counts};
ghost use Rattle.table.specs.Description.{entry};
ghost use Rattle.table.specs.First.{first_upto};
ghost use Rattle.table.specs.Fields.{broken_at};
ghost use Rattle.table.specs.Words.{word_at, words_at, records_at};

use records::counts::Counts;
use std::alloc::{AllocError, Global};

// A kind of record: how many 16-bit numbers it has, the record that they make, and the rule for the fields of one
// record. What stands for a record that is not there is its default.
pub trait Record: Copy + Drop + Default {
    const FIELDS: usize;

    // how many numbers a record has
    ghost FIELDS: { ℕ };

    // the record that these numbers make
    ghost decoded: { List ℕ → Self };

    // what stands for a record that is not there
    ghost none: { Self };

    // whether record number n breaks the rule for its fields, by how many records each table has
    ghost broken: { Counts → ℕ → Self → Bool };

    // The record at a place of a file.
    fn read(bytes: &[u8], at: usize) -> Self
        requires { at + 2 * FIELDS ≤ length bytes.now }
        ensures { result ≡ decoded (words_at bytes.now at FIELDS) };

    fn breaks(&self, counts: Counts, n: usize) -> bool
        ensures { result ≡ broken counts n self.now };

    // a record has at most ten numbers
    ghost few: { FIELDS ≤ 10 };

    // the default stands for a record that is not there
    ghost absent: { (x : Self) → Self.is_default x → x ≡ none };
}

// The 16-bit number at `at`, most significant byte first.
pub fn word(bytes: &[u8], at: usize) -> u16
    requires { at + 2 ≤ length bytes.now }
    ensures { result ≡ word_at bytes.now at }
{
    u16::from_be_bytes([bytes[at], bytes[at + 1]])
}

// The table of `count` records at `at`, whatever their kind. By their places, as the definition goes: `chunks_exact`
// would ask of every kind that it has a number at all, and give each record anew a place in its own bytes.
pub(crate) fn read_table<R: Record>(
    heap: Global,
    bytes: &[u8],
    at: usize,
    count: u16,
) -> Result<Vec<R>, AllocError>
    requires { at + count * (2 * R.FIELDS) ≤ length bytes.now }
    ensures items { IfOk result (λ v. v.items ≡ records_at R.decoded R.FIELDS bytes.now at count) }
    ensures len { IfOk result (λ v. vec_len v ≡ count) }
{
    let mut table = Vec::new(heap);
    let step = 2 * R::FIELDS;
    for i in 0..count as usize {
        table.push(R::read(bytes, at + i * step))?;
    }
    Ok(table)
}

// Item number n of a list that is counted from 1, if it is there.
pub fn numbered<T>(items: &[T], n: usize) -> Option<&T>
    ensures { (none : T) → entry items.now n none ≡ unwrap_or (option_copied result) none }
{
    items.get(n.checked_sub(1)?)
}

// Record number n of a table, or what stands for one that is not there.
pub fn record_at<R: Record>(table: &[R], n: usize) -> R
    ensures { result ≡ entry table.now n R.none }
{
    numbered(table, n).copied().unwrap_or_default()
}
