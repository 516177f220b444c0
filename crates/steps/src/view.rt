ghost use Rattle.std.specs.Prelude.{◌≤◌, length};

use bits::source::Source;
use rules::steps::Window;

// A window of a source, which has all the window's bits. The place is no field, since a step goes from place to
// place; what it asks of the place where it begins stands in its contract.
#[derive(Drop)]
pub struct View<'s, S: Source> {
    pub source: &'s S,
    pub window: Window,
    ghost within: { window.end ≤ length (S.bits source.now) },
}
