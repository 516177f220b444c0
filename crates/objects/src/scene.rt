ghost use Rattle.std.specs.Prelude.{◌≤◌, length};
ghost use Rattle.table.specs.Description.{description};
ghost use Rattle.objects.specs.Ahead.{Readable, readable_prop};

use crate::inside::About;
use bits::source::Source;
use table::loaded::Loaded;

// Where a step inside an open object is taken: the source and the description, the object, and the place.
#[derive(Drop)]
pub struct Scene<'a, S: Source> {
    pub source: &'a S,
    pub tables: &'a Loaded,
    pub about: About,
    pub place: u32,
    ghost readable: { Readable (description tables.now) } by { readable_prop (description tables.now) },
    ghost within: { about.window.end ≤ length (S.bits source.now) },
    ghost near: { place ≤ 2147483647 },
}
