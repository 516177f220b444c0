use crate::frames::Frames;
use rules::steps::Window;

// As many names as a description may have.
pub const NAMES: usize = 128;

// What stands of an open object from its beginning to its end. Class and size are 0 for none, as the items that hand
// them out have them.
#[derive(Clone, Copy)]
pub struct About {
    // its class, 0 if the id is unknown
    pub class: u16,
    // its size in bytes, 0 if it has none
    pub size: u32,
    // the window inside it
    pub window: Window,
}

// What changes in an open object: what it still has to do, the next extension to look at, and the values of its names.
#[derive(Clone, Copy)]
pub struct Inside {
    pub(crate) frames: Frames,
    pub(crate) extension: usize,
    // in a fixed array, as nothing is allocated after opening
    pub(crate) names: [i64; NAMES],
}
