ghost use Rattle.std.specs.Prelude.{◌≡◌, ℕ, ◌+◌, ◌<◌};
ghost use Rattle.table.specs.Description.{description, statement_at};
ghost use Rattle.records.specs.Stretches.{in_stretch};
ghost use Rattle.blocks.specs.Nesting.{taken};
ghost use Rattle.blocks.specs.Stretches.{ends_before, past_block, past_in, past, line_stretch, holds, deep_in, line_depth};

use crate::blocks::{DEEPEST, has_blocks, in_first, in_second, taken};
use crate::stretches::{in_one, some_stretch};
use passes::first::{count, some};
use records::stretches::Stretch;
use table::loaded::Loaded;

// Whether the `count` lines from `start` on hold line n, and end before `end`.
fn ends_before(start: usize, count: usize, n: usize, end: usize) -> bool
    requires { (start < 4294967296) × (count < 4294967296) }
    ensures { result ≡ ends_before start count n end }
{
    (start..start + count).contains(&n) && start + count < end
}

// The end of line n's blocks.
fn end_of(loaded: &Loaded, n: usize) -> usize
    requires { n < 4294967296 }
    ensures { result ≡ n + taken (statement_at (description loaded.now) n) }
{
    n + taken(loaded.statement(n))
}

// Whether line m of a stretch has a block that holds line n, and ends before `end`.
fn past_block(loaded: &Loaded, stretch: Stretch, n: usize, end: usize, m: usize) -> bool
    ensures { result ≡ past_block (description loaded.now) stretch.first stretch.number n end m }
{
    if !stretch.has(m) {
        return false;
    }
    let line = loaded.statement(m);
    let b = in_first(line);
    ends_before(m + 1, b, n, end) || ends_before(m + 1 + b, in_second(line), n, end)
}

// Whether line n is in a stretch that ends before its blocks do, or in a block there that does.
fn past_in(loaded: &Loaded, stretch: Stretch, n: usize) -> bool
    ensures { result ≡ past_in (description loaded.now) stretch.first stretch.number n }
{
    if !stretch.has(n) {
        return false;
    }
    let end = end_of(loaded, n);
    stretch.first as usize + (stretch.number as usize) < end
        || some(
            loaded.lines.len(),
            |m| past_block(loaded, stretch, n, end, m),
        )
}

// Whether line n has a block past what holds the line.
fn past(loaded: &Loaded, n: usize) -> bool
    ensures { result ≡ past (description loaded.now) n }
{
    some_stretch(loaded, |stretch| past_in(loaded, stretch, n))
}

// Whether line n is not in exactly one stretch, or has a block past what holds it.
pub fn line_stretch(loaded: &Loaded, n: usize) -> bool
    ensures { result ≡ line_stretch (description loaded.now) n }
{
    !in_one(loaded, n) || past(loaded, n)
}

// Whether line m of a stretch has a block that holds line n.
fn holds(loaded: &Loaded, stretch: Stretch, n: usize, m: usize) -> bool
    ensures { result ≡ holds (description loaded.now) stretch.first stretch.number n m }
{
    if !stretch.has(m) {
        return false;
    }
    (m + 1..end_of(loaded, m)).contains(&n)
}

// Whether line n is in a stretch, and in blocks of at least eight of its lines.
fn deep_in(loaded: &Loaded, stretch: Stretch, n: usize) -> bool
    ensures { result ≡ deep_in (description loaded.now) stretch.first stretch.number n }
{
    if !stretch.has(n) {
        return false;
    }
    count(loaded.lines.len(), |m| holds(loaded, stretch, n, m)) >= DEEPEST
}

// Whether an if or while line n stands inside at least eight blocks.
pub fn line_depth(loaded: &Loaded, n: usize) -> bool
    ensures { result ≡ line_depth (description loaded.now) n }
{
    has_blocks(loaded.statement(n)) && some_stretch(loaded, |stretch| deep_in(loaded, stretch, n))
}
