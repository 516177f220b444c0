ghost use Rattle.std.specs.Prelude.{◌≡◌, ℕ, ◌+◌, ◌<◌};
ghost use Rattle.table.specs.Description.{description};
ghost use Rattle.blocks.specs.Nesting.{has_blocks, in_first, in_second, taken, block_sound, line_sound};

use records::statements::Statement;
use table::loaded::Loaded;

// How many blocks may stand inside one another, and how many levels a node may have.
pub(crate) const DEEPEST: usize = 8;

// Whether a line has blocks.
pub(crate) fn has_blocks(s: Option<Statement>) -> bool
    ensures { result ≡ has_blocks s }
{
    matches!(s, Some(Statement::If { .. } | Statement::While { .. }))
}

// The lines in a line's first block.
pub(crate) fn in_first(s: Option<Statement>) -> usize
    ensures value { result ≡ in_first s }
    ensures bound { result < 65536 }
{
    match s {
        Some(Statement::If { first, .. }) => first as usize,
        Some(Statement::While { lines, .. }) => lines as usize,
        _ => 0,
    }
}

// The lines in its second block.
pub(crate) fn in_second(s: Option<Statement>) -> usize
    ensures value { result ≡ in_second s }
    ensures bound { result < 65536 }
{
    match s {
        Some(Statement::If { second, .. }) => second as usize,
        _ => 0,
    }
}

// The lines that a line takes with its blocks.
pub(crate) fn taken(s: Option<Statement>) -> usize
    ensures value { result ≡ taken s }
    ensures bound { result < 131072 }
{
    1 + in_first(s) + in_second(s)
}

// Whether the `count` lines from `first` on, inside `depth` blocks, are a sound block: each of its lines is sound.
#[cycle(block_sound_line_sound)]
#[tactic(auto, using(crate::proofs::Steps::sound_none, crate::proofs::Steps::past_unsound, crate::proofs::Steps::past_sound))]
pub(crate) fn block_sound(loaded: &Loaded, first: usize, count: usize, depth: usize) -> bool
    requires { (first + count < 4294967296) × (depth + count < 4294967296) }
    ensures { result ≡ block_sound (description loaded.now) first count depth }
{
    if count == 0 {
        return true;
    }
    if !line_sound(loaded, first, count, depth) {
        return false;
    }
    let taken = taken(loaded.statement(first));
    block_sound(loaded, first + taken, count - taken, depth)
}

// Whether the line `first`, with `room` lines left in what holds it, is sound: each of its blocks is.
#[cycle(block_sound_line_sound)]
fn line_sound(loaded: &Loaded, first: usize, room: usize, depth: usize) -> bool
    requires { (0 < room) × ((first + room < 4294967296) × (depth + room < 4294967296)) }
    ensures { result ≡ line_sound (description loaded.now) first room depth }
{
    let line = loaded.statement(first);
    let b = in_first(line);
    if taken(line) > room {
        return false;
    }
    if has_blocks(line) && depth >= DEEPEST {
        return false;
    }
    if !block_sound(loaded, first + 1, b, depth + 1) {
        return false;
    }
    block_sound(loaded, first + 1 + b, in_second(line), depth + 1)
}
