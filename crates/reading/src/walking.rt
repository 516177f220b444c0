// One step of a reading.
ghost use Rattle.std.specs.Prelude.{◌≡◌, suc, ◌+◌, ◌-◌, ◌*◌, ◌<◌, ◌≤◌, min, Bool, true, false, cond, List, [], ◌∷◌, length, if◌then◌else◌, Ok, Some, nat_eq};
ghost use Rattle.table.specs.Description.{Description, description, class_at};
ghost use Rattle.rules.specs.Lookups.{greatest as greatest_in};
ghost use Rattle.rules.specs.Order.{declared_at};
ghost use Rattle.rules.specs.Trace.{Run};
ghost use Rattle.rules.specs.Reading.{open_item, close_item, inner as inner_window, reading};
ghost use Rattle.rules.specs.Steps.{header as header_at};
ghost use Rattle.objects.specs.Ahead.{Readable, inner_of};
ghost use Rattle.objects.specs.Starts.{Begun};
ghost use Rattle.reading.specs.Walks.{by_none, objects_of, cut, walk_ahead, Sound, Enclosed, Walked, Begins, Stepped};
ghost use Rattle.reading.specs.Pushes.{Entered, Leaving, Kept, Leaves};

use crate::ending::at_end;
use crate::lookups::object_class;
use crate::open_object::{OpenObject, Opened, Using};
use crate::walk::{Answer, MOST, Walk};
use bits::source::Source;
use objects::inside::{About, Inside};
use objects::moves::Move;
use objects::scene::Scene;
use rules::faults::{Failure, ReadingCause};
use rules::items::{Item, Kind};
use rules::lookups::greatest;
use rules::steps::{Header, Window};
use steps::view::View;
use table::loaded::Loaded;

// An object of a class that no line uses.
fn used_by_none(class: u16) -> Using
    ensures { result ≡ by_none class }
{
    Using {
        line: 0,
        class,
        index: 0,
        carried: 0,
        receiving: 0,
    }
}

// An object's window reaches no further than so many bits.
fn within(about: About, count: u32) -> About
    ensures { result ≡ cut count about }
{
    About {
        window: Window {
            end: about.window.end.min(count),
            object: about.window.object,
        },
        ..about
    }
}

// The window inside an object: an expandable one is its own.
fn inner(greatest: u16, header: Header, window: Window) -> Window
    requires { header.after + 8 * header.size ≤ 2147483647 }
    ensures { (d : Description) (bits : List Bool) → result ≡ inner_window d bits greatest header window }
{
    if greatest == 0 {
        return window;
    }
    Window {
        end: header.after + 8 * header.size,
        object: true,
    }
}

// The place after an object: the end of an expandable one.
fn place_after(opened: Opened, p: u32) -> u32
    ensures { result ≡ (if nat_eq opened.greatest 0 then p else opened.about.window.end) }
{
    if opened.greatest == 0 {
        return p;
    }
    opened.about.window.end
}

// Which of the open objects is the innermost.
fn innermost(depth: usize) -> usize
    requires { 0 < depth }
    ensures { min depth 16 ≡ suc result }
{
    depth.min(MOST) - 1
}

// The item of an object's beginning.
fn open_item(class: u16, used: Using, header: Header) -> Item
    ensures { result ≡ open_item class used.line used.index header }
{
    Item {
        kind: Kind::Open,
        line: used.line,
        class,
        index: used.index,
        value: i64::from(header.id),
        place: header.place,
        length: header.size,
    }
}

// The item of an object's end.
fn close_item(opened: Opened, place: u32) -> Item
    ensures { result ≡ close_item opened.about.class opened.used.line opened.used.index place }
{
    Item {
        kind: Kind::Close,
        line: opened.used.line,
        class: opened.about.class,
        index: opened.used.index,
        value: 0,
        place,
        length: 0,
    }
}

impl OpenObject {
    // Becomes an object at its beginning.
    fn begin(&mut self, tables: &Loaded, opened: Opened)
        requires { Readable (description tables.now) }
        ensures is { self.new.opened ≡ opened }
        ensures begun { Begun (description tables.now) opened.about.class (inner_of self.new.inside) }
    {
        self.opened = opened;
        self.inside.begin(tables, opened.about.class);
    }
}

// That the description is readable is a field of `Reading` and of `Scene`; the steps between hand it on as a
// `requires`, for a wrapper of the tables would be taken off again at each look-up. That the walk is sound by the
// description is a field of `Reading` too, which alone has both: a struct that lends them together would be a second
// `Reading`, to be sound at each of the writes in `push`, `step_inside` and `leave`. The source's length is asked once a step,
// and handed on with its source.
impl Walk {
    // A reading that has not begun.
    pub fn new() -> Walk
        ensures { (((d : Description) (bits : List Bool) → walk_ahead d bits result ≡ reading d bits)) × (((d : Description) → Sound d result)) × (result.started ≡ false) }
    {
        let window = Window {
            end: 0,
            object: false,
        };
        let opened = Opened {
            about: About {
                class: 0,
                size: 0,
                window,
            },
            greatest: 0,
            used: used_by_none(0),
        };
        let object = OpenObject {
            opened,
            inside: Inside::idle(0),
        };
        Walk {
            objects: [object; MOST],
            depth: 0,
            place: 0,
            started: false,
        }
    }

    // Opens an object inside the others, in the place that it takes in the table.
    fn push(&mut self, tables: &Loaded, opened: Opened, place: u32)
        requires room { length (objects_of self.old) < 16 }
        requires readable { Readable (description tables.now) }
        ensures { Entered (description tables.now) opened place self.old self.new }
    {
        self.objects[self.depth].begin(tables, opened);
        self.depth += 1;
        self.place = place;
        self.started = true;
    }

    // Opens an object whose beginning was read.
    fn enter(
        &mut self,
        tables: &Loaded,
        window: Window,
        used: Using,
        greatest: u16,
        header: Header,
    ) -> Answer
        requires sound { Sound (description tables.now) self.old }
        requires room { length (objects_of self.old) < 16 }
        requires readable { Readable (description tables.now) }
        requires most { greatest ≡ greatest_in (description tables.now) used.class }
        requires declared { declared_at (description tables.now) used.line ≡ used.class }
        requires short { (header.after + 8 * header.size ≤ window.end) × (window.end ≤ 2147483647) }
        requires placed { (self.old.place ≤ header.place) × (header.place ≤ header.after) }
        ensures moved { (bits : List Bool) → window.end ≤ length bits → Ok header ≡ header_at bits window (class_at (description tables.now) used.class) (greatest_in (description tables.now) used.class) self.old.place → Begins (description tables.now) bits used window self.old result self.new }
        ensures kept { Kept self.old.depth self.old self.new }
    {
        let class = object_class(tables, used.class, header.id);
        if class == 0 && greatest == 0 {
            return Err(Failure::from(ReadingCause::UnknownId).at(used.line, self.place));
        }
        let opened = Opened {
            about: About {
                class,
                size: header.size,
                window: inner(greatest, header, window),
            },
            greatest,
            used,
        };
        self.push(tables, opened, header.after);
        Ok(Some(open_item(class, used, header)))
    }

    // Begins an object: reads its beginning, and opens it.
    fn begin<S: Source>(&mut self, view: &View<S>, tables: &Loaded, used: Using) -> Answer
        requires sound { Sound (description tables.now) self.old }
        requires readable { Readable (description tables.now) }
        requires declared { declared_at (description tables.now) used.line ≡ used.class }
        ensures moved { Begins (description tables.now) (S.bits view.now.source.now) used view.now.window self.old result self.new }
        ensures kept { Kept self.old.depth self.old self.new }
    {
        let place = self.place;
        if self.depth >= MOST {
            return Err(Failure::from(ReadingCause::Unchecked).at(used.line, place));
        }
        let greatest = greatest(tables, used.class as usize);
        let header = view
            .header(tables.class(used.class as usize), greatest, place)
            .map_err(|failure| failure.at(used.line, place))?;
        self.enter(tables, view.window, used, greatest, header)
    }

    // Ends the reading, once the top object is closed.
    fn finish<S: Source>(&self, source: &S, count: u32) -> Answer
        requires begun { self.now.started ≡ true }
        requires none { objects_of self.now ≡ [] }
        requires count { count ≡ length (S.bits source.now) }
        ensures { (d : Description) → Sound d self.now → Stepped d (S.bits source.now) self.now (Some result) self.now }
    {
        if at_end(source, count, self.place) {
            return Ok(None);
        }
        Err(Failure::from(ReadingCause::BitsLeft).at(0, self.place))
    }

    // Closes the innermost object, which has nothing left to do.
    fn leave(&mut self, i: usize, opened: Opened) -> Answer
        requires innermost { min self.old.depth 16 ≡ suc i }
        requires started { self.old.started ≡ true }
        ensures moved { (d : Description) (bits : List Bool) (from : List Bool → Run (Unit {0})) → ((B : List Bool) → length bits ≡ length B → Leaving d B i opened self.old (from B)) → Walked d bits self.old.place from (Enclosed (length bits) (objects_of self.old) self.old.place) (Some result) self.new }
        ensures kept { Kept (i - cond (nat_eq opened.used.receiving 0) 0 1) self.old self.new }
    {
        let place = place_after(opened, self.place);
        self.place = place;
        self.depth = i;
        if i == 0 {
            return Ok(Some(close_item(opened, place)));
        }
        if opened.used.receiving == 0 {
            return Ok(Some(close_item(opened, place)));
        }
        let value = self.objects[i].inside.name(opened.used.carried);
        self.objects[i - 1]
            .inside
            .receive(opened.used.receiving, value);
        Ok(Some(close_item(opened, place)))
    }

    // One step of the reading; nothing is handed out where it answers none.
    pub fn step<S: Source>(&mut self, source: &S, tables: &Loaded) -> Option<Answer>
        requires sound { Sound (description tables.now) self.old }
        requires readable { Readable (description tables.now) }
        ensures moved { Stepped (description tables.now) (S.bits source.now) self.old result self.new }
        ensures leaves { Leaves self.old result self.new }
    {
        let count = source.length();
        if !self.started {
            return Some(self.start(source, tables, count));
        }
        if self.depth == 0 {
            return Some(self.finish(source, count));
        }
        self.step_inside(source, tables, count)
    }

    // One step inside the innermost object.
    fn step_inside<S: Source>(&mut self, source: &S, tables: &Loaded, count: u32) -> Option<Answer>
        requires sound { Sound (description tables.now) self.old }
        requires readable { Readable (description tables.now) }
        requires begun { self.old.started ≡ true }
        requires some { 0 < self.old.depth }
        requires whole { count ≡ length (S.bits source.now) }
        ensures moved { Stepped (description tables.now) (S.bits source.now) self.old result self.new }
        ensures leaves { Leaves self.old result self.new }
    {
        let i = innermost(self.depth);
        let scene = Scene {
            source,
            tables,
            about: within(self.objects[i].opened.about, count),
            place: self.place,
        };
        match self.objects[i].inside.step(&scene) {
            Ok(Move::Quiet { place }) => {
                self.place = place;
                None
            }
            Ok(Move::Give { item, place }) => {
                self.place = place;
                Some(Ok(Some(item)))
            }
            Ok(
                Move::Begin {
                    line,
                    fields,
                    index,
                },
            ) => {
                let used = Using {
                    line,
                    class: fields.class,
                    index,
                    carried: fields.carried,
                    receiving: fields.receiving,
                };
                Some(self.begin(&scene.view(), tables, used))
            }
            Ok(Move::Leave) => {
                let opened = self.objects[i].opened;
                let about = scene.about;
                Some(self.leave(i, Opened { about, ..opened }))
            }
            Err(fault) => Some(Err(fault)),
        }
    }

    // Begins the top object.
    fn start<S: Source>(&mut self, source: &S, tables: &Loaded, count: u32) -> Answer
        requires readable { Readable (description tables.now) }
        requires whole { count ≡ length (S.bits source.now) }
        ensures { Walked (description tables.now) (S.bits source.now) 0 (reading (description tables.now)) (Unit {0}) (Some result) self.new }
    {
        self.depth = 0;
        self.place = 0;
        let view = View {
            source,
            window: Window {
                end: count,
                object: false,
            },
        };
        self.begin(&view, tables, used_by_none(tables.top))
    }
}
