ghost use Rattle.std.specs.Prelude.{◌≡◌, ◌^◌, ◌<◌, ◌≤◌};
ghost use Rattle.bits.specs.Bits.{bits_of};
ghost use Rattle.table.specs.Description.{description};
ghost use Rattle.rules.specs.Lookups.{find_row};
ghost use Rattle.roundtrip.specs.Own.{lowest_index};
ghost use Rattle.pending.specs.Indices.{index_giving};
ghost use Rattle.pending.specs.Owned.{Answers};

use crate::own::Own;
use records::records::Map;
use records::stretches::Stretch;
use rules::lookups::output;
use steps::maps::find_row;
use table::loaded::Loaded;

// The index of row i of a map, if the row gives a value; none where an earlier row has that index.
fn index_giving(tables: &Loaded, map: Map, i: u16, value: i64) -> Option<u32>
    ensures { result ≡ index_giving (description tables.now) map.first value i }
{
    let row = tables.row(map.first as usize + i as usize);
    let before = Stretch {
        first: map.first,
        number: i,
    };
    let gives = output(row) == value
        && find_row(&tables.rows, before, u64::from(row.index)).is_err();
    gives.then_some(u32::from(row.index))
}

// The lowest index of a map that gives a value, or `end`, the first number that is no index of it.
fn lowest_index(tables: &Loaded, map: Map, end: u32, value: i64) -> u32
    requires { end ≡ 2 ^ map.width }
    ensures { result ≡ lowest_index map.width (find_row (description tables.now) map.first map.number) value }
{
    (0..map.number)
        .filter_map(|i| index_giving(tables, map, i, value))
        .fold(end, |lowest, index| lowest.min(index))
}

// The bits of a value that is read by a map: the lowest index that gives it.
pub(crate) fn map_bits(tables: &Loaded, map: Map, value: i64) -> Option<Own>
    requires { map.width ≤ 16 }
    ensures { Answers (bits_of map.width (lowest_index map.width (find_row (description tables.now) map.first map.number) value)) (lowest_index map.width (find_row (description tables.now) map.first map.number) value < 2 ^ map.width) result }
{
    let end = 1 << map.width;
    let index = lowest_index(tables, map, end, value);
    if index >= end {
        return None;
    }
    Some(Own {
        width: u32::from(map.width),
        value: u64::from(index),
    })
}
