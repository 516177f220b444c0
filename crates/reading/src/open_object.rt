ghost use Rattle.std.specs.Prelude.{◌≤◌};

use objects::inside::{About, Inside};

// An object as a line uses it: the line, the declared class, which of the line's objects it is, and its name
// `carried`, whose value goes to the name `receiving` of the object around it. Both are 0 for none, as in the line that
// they come from: name 0 has the value 0, and takes none.
#[derive(Clone, Copy)]
pub(crate) struct Using {
    pub(crate) line: u16,
    pub(crate) class: u16,
    pub(crate) index: u16,
    pub(crate) carried: u16,
    pub(crate) receiving: u16,
    ghost named: { receiving ≤ 128 },
}

// What stands of an open object from its beginning to its end.
#[derive(Clone, Copy)]
pub(crate) struct Opened {
    pub(crate) about: About,
    // the greatest size; above 0 the object is expandable, as the look-up answers
    pub(crate) greatest: u16,
    // what it is to the line that uses it
    pub(crate) used: Using,
}

// An open object.
#[derive(Clone, Copy)]
pub struct OpenObject {
    pub(crate) opened: Opened,
    pub(crate) inside: Inside,
}
