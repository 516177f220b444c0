ghost use Rattle.std.specs.Prelude.{◌≡◌, ◌^◌, ◌<◌, ◌≤◌};
ghost use Rattle.bits.specs.Bits.{bits_of};
ghost use Rattle.records.specs.Statements.{statement};
ghost use Rattle.table.specs.Description.{description, line_at};
ghost use Rattle.roundtrip.specs.Own.{complement, value_bits, SensibleValue};
ghost use Rattle.pending.specs.Owned.{Answers, Narrow};

use crate::maps::map_bits;
use crate::own::Own;
use records::statements::Statement;
use table::loaded::Loaded;

// A number in two's complement.
fn complement(n: u32, value: i64) -> u64
    requires { n ≤ 32 }
    ensures { result ≡ complement n value }
{
    if value >= 0 {
        value as u64
    } else {
        ((1 << n) + value).max(0) as u64
    }
}

// The bits of a value that is read as a number.
fn read_bits(value: i64, length: u32) -> Option<Own>
    ensures { Answers (bits_of length (complement length value)) ((length ≤ 32) × (complement length value < 2 ^ length)) result }
{
    if length > 32 {
        return None;
    }
    let number = complement(length, value);
    if number >= 1 << length {
        return None;
    }
    Some(Own {
        width: length,
        value: number,
    })
}

// The bits of a value that a line reads.
pub(crate) fn value_bits(tables: &Loaded, line: u16, value: i64, length: u32) -> Option<Own>
    requires narrow { Narrow (description tables.now) }
    ensures { Answers (value_bits (description tables.now) (statement (line_at (description tables.now) line)) value length) (SensibleValue (description tables.now) (statement (line_at (description tables.now) line)) value length) result }
{
    match tables.statement(line as usize)? {
        Statement::Read(_) => read_bits(value, length),
        Statement::MapRead { map, .. } => map_bits(tables, tables.map(map as usize), value),
        _ => None,
    }
}
