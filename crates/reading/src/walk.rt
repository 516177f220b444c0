use crate::open_object::OpenObject;
use rules::faults::ReadingFault;
use rules::items::Item;

// As many objects as may be open at once.
pub(crate) const MOST: usize = 16;

// Where a reading stands: the open objects, the innermost last, and the place. No `ArrayVec`: it asks a `Default` of
// its elements, which would be an object that stands for none, and lends the innermost as an Option, so that each
// step would have to write a case that cannot come.
#[derive(Clone, Copy)]
pub struct Walk {
    pub(crate) objects: [OpenObject; MOST],
    pub(crate) depth: usize,
    pub(crate) place: u32,
    // whether the top object has begun; the depth does not say it, as it is 0 again once that has ended
    pub(crate) started: bool,
}

// What a reading answers: the next item, or none at the end, or why it is refused.
pub type Answer = Result<Option<Item>, ReadingFault>;
