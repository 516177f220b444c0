// Offering an item to a reading that may go on in many ways.
ghost use Rattle.std.specs.Prelude.{◌≡◌, ◌≢◌, true, false, Ok, Some, length};
ghost use Rattle.table.specs.Description.{description};
ghost use Rattle.objects.specs.Ahead.{Readable};
ghost use Rattle.reading.specs.Offers.{Advanced, Attempted, Offered, saved_of, restored, Over};
ghost use Rattle.reading.specs.Pushes.{hands_on};
ghost use Rattle.reading.specs.Walks.{Sound, EnclosedWalk, from_of};

use crate::open_object::OpenObject;
use crate::walk::{Answer, MOST, Walk};
use bits::source::Source;
use rules::items::Item;
use table::loaded::Loaded;

// Where a walk stands: the innermost object, and the walk's numbers.
#[derive(Clone, Copy)]
pub(crate) struct Saved {
    pub(crate) inner: OpenObject,
    pub(crate) depth: usize,
    pub(crate) place: u32,
    pub(crate) started: bool,
}

// Whether an answer is an item.
fn gives(answer: Answer, wanted: Item) -> bool
    ensures yes { result ≡ true → answer ≡ Ok (Some wanted) }
    ensures no { result ≡ false → answer ≢ Ok (Some wanted) }
{
    match answer {
        Ok(Some(item)) => item == wanted,
        _ => false,
    }
}

impl Walk {
    // Where the walk stands.
    fn saved(&self) -> Saved
        ensures { result ≡ saved_of self.now }
    {
        let open = self.depth.min(MOST);
        Saved {
            inner: self.objects[open.saturating_sub(1)],
            depth: self.depth,
            place: self.place,
            started: self.started,
        }
    }

    // Puts the innermost object and the walk's numbers back.
    fn restore(&mut self, saved: Saved)
        ensures back { self.new ≡ restored saved self.old }
        ensures long { length self.old.objects ≡ 16 }
    {
        if !saved.started {
            self.depth = 0;
            self.place = 0;
            self.started = false;
            return;
        }
        let open = saved.depth.min(MOST);
        self.objects[open.saturating_sub(1)] = saved.inner;
        self.depth = saved.depth;
        self.place = saved.place;
        self.started = true;
    }

    // The next answer; silent steps are passed over.
    #[inline(always)]
    fn advance<S: Source>(&mut self, source: &S, tables: &Loaded) -> Answer
        requires sound { Sound (description tables.now) self.old }
        requires readable { Readable (description tables.now) }
        requires enclosed { EnclosedWalk (length (S.bits source.now)) self.old }
        ensures { Advanced (description tables.now) (S.bits source.now) self.old result self.new }
    {
        loop {
            if let Some(answer) = self.step(source, tables) {
                return answer;
            }
        }
    }

    // Whether the innermost object's end gives a value to the object around it.
    fn hands_on(&self) -> bool
        ensures { result ≡ hands_on self.now }
    {
        self.objects[self.depth.min(MOST).saturating_sub(1)]
            .opened
            .used
            .receiving
            != 0
    }

    // Takes an item where it comes next over a source's bits; else all is as before but for the value that the object
    // around the innermost may have taken.
    #[inline(always)]
    fn attempt<S: Source>(&mut self, source: &S, tables: &Loaded, wanted: Item) -> bool
        requires sound { Sound (description tables.now) self.old }
        requires readable { Readable (description tables.now) }
        requires enclosed { EnclosedWalk (length (S.bits source.now)) self.old }
        ensures { Attempted (description tables.now) (S.bits source.now) self.old wanted result self.new }
    {
        let saved = self.saved();
        if gives(self.advance(source, tables), wanted) {
            return true;
        }
        self.restore(saved);
        false
    }

    // Takes an item where the innermost object's end gives a value to the object around it, which is put back too where
    // the item is not taken. Apart from `offer`: few objects hand a value on.
    #[inline(never)]
    fn offer_handing<S: Source>(&mut self, source: &S, tables: &Loaded, wanted: Item) -> bool
        requires sound { Sound (description tables.now) self.old }
        requires readable { Readable (description tables.now) }
        requires enclosed { EnclosedWalk (length (S.bits source.now)) self.old }
        requires handing { hands_on self.old ≡ true }
        ensures { Offered (description tables.now) (S.bits source.now) self.old wanted result self.new }
    {
        let around = self.depth.min(MOST).saturating_sub(2);
        let outer = self.objects[around];
        if self.attempt(source, tables, wanted) {
            return true;
        }
        self.objects[around] = outer;
        false
    }

    // Takes an item where it comes next over a source's bits; else the walk goes on as before.
    pub fn offer<S: Source>(&mut self, source: &S, tables: &Loaded, wanted: Item) -> bool
        requires sound { Sound (description tables.now) self.old }
        requires readable { Readable (description tables.now) }
        requires enclosed { EnclosedWalk (length (S.bits source.now)) self.old }
        ensures { Offered (description tables.now) (S.bits source.now) self.old wanted result self.new }
    {
        if self.hands_on() {
            return self.offer_handing(source, tables, wanted);
        }
        self.attempt(source, tables, wanted)
    }

    // Where the walk takes its next bits.
    pub fn place(&self) -> u32
        ensures { result ≡ from_of self.now }
    {
        if self.started { self.place } else { 0 }
    }

    // Whether all objects are closed.
    pub fn is_over(&self) -> bool
        ensures { Over self.now result }
    {
        self.started && self.depth == 0
    }
}
