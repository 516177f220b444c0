// What is left of a newer description's items for an older one.
ghost use Rattle.std.specs.Prelude.{◌≡◌, ℕ, ◌<◌, ◌||◌, nat_lt};
ghost use Rattle.table.specs.Description.{description};
ghost use Rattle.rules.specs.Growth.{new_line, new_class, own_depth, next_depth, deeper, masked, left_of, lacks};
ghost use Rattle.growth.specs.Left.{listed};

use rules::faults::ReadingFault;
use rules::items::{Item, Kind};
use table::loaded::Loaded;

// How deep the items taken so far lead inside what is struck; 0 is outside. The older description is no field, but
// lent to each call: a striker is then a plain value, with no lifetime for those who hold one.
#[derive(Clone, Copy)]
pub struct Striker {
    pub depth: u32,
}

// Whether a line's number is above the older's count.
fn new_line(older: &Loaded, line: u16) -> bool
    ensures { result ≡ new_line (description older.now) line }
{
    line as usize > older.lines.len()
}

// Whether a class's number is above the older's count.
fn new_class(older: &Loaded, class: u16) -> bool
    ensures { result ≡ new_class (description older.now) class }
{
    class as usize > older.classes.len()
}

// Whether the inside of what such a line opens, or of such a class, is struck.
fn is_new(older: &Loaded, line: u16, class: u16) -> bool
    ensures { result ≡ (new_line (description older.now) line || new_class (description older.now) class) }
{
    new_line(older, line) || new_class(older, class)
}

// The item, where an open or close of a new class gets class 0.
fn masked(older: &Loaded, item: Item) -> Item
    ensures { result ≡ masked (description older.now) item.kind item }
{
    match item.kind {
        Kind::Value => item,
        _ => {
            if new_class(older, item.class) {
                Item { class: 0, ..item }
            } else {
                item
            }
        }
    }
}

// The depth after an item; the inside of what is new is struck.
fn next_depth(kind: Kind, new: bool, depth: u32) -> u32
    ensures { depth < 4294967295 → result ≡ next_depth kind new depth }
{
    match kind {
        Kind::Value => depth,
        Kind::Open => {
            if depth > 0 || new {
                depth.saturating_add(1)
            } else {
                0
            }
        }
        Kind::Close => depth.saturating_sub(1),
    }
}

impl Striker {
    // Before the first item.
    pub fn new() -> Striker
        ensures { result.depth ≡ 0 }
    {
        Striker { depth: 0 }
    }

    // The depth at which an item stands: a close stands where its open did.
    fn own_depth(self, kind: Kind) -> u32
        ensures { result ≡ own_depth kind self.depth }
    {
        match kind {
            Kind::Close => self.depth.saturating_sub(1),
            _ => self.depth,
        }
    }

    // Whether nothing is left of an item.
    fn strikes(self, older: &Loaded, item: Item) -> bool
        ensures { result ≡ (nat_lt 0 (own_depth item.kind self.depth) || new_line (description older.now) item.line) }
    {
        self.own_depth(item.kind) > 0 || new_line(older, item.line)
    }

    // Takes the newer's next item, and says what is left of it for the older.
    pub fn take(&mut self, older: &Loaded, item: Item) -> Option<Item>
        ensures left { listed result ≡ left_of (description older.now) self.old.depth item }
        ensures depth { self.old.depth < 4294967295 → self.new.depth ≡ deeper (description older.now) self.old.depth item }
    {
        let struck = self.strikes(older, item);
        self.depth = next_depth(item.kind, is_new(older, item.line, item.class), self.depth);
        if struck {
            None
        } else {
            Some(masked(older, item))
        }
    }

    // Whether the newer's fault, after the items taken, lies inside what the older lacks.
    pub fn lacks(self, older: &Loaded, fault: ReadingFault) -> bool
        ensures { result ≡ lacks (description older.now) self.depth fault }
    {
        new_line(older, fault.line) || self.depth > 0
    }
}
