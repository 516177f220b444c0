// What the steps of a reading answer.

// What bits may be taken from: the innermost open expandable object, else the source. No enum of the two: either has an
// end, by which every step goes, and `object` only tells the cause where the bits are too few.
#[derive(Clone, Copy)]
pub struct Window {
    // the place where it ends
    pub end: u32,
    // whether it is an object
    pub object: bool,
}

// What an element gives: its value, where its bits stand and how many, and the place after it.
#[derive(Clone, Copy)]
pub struct Got {
    pub value: i64,
    pub place: u32,
    pub length: u32,
    pub after: u32,
}

// An object's beginning: its id and its size, where they stand and where its content begins.
#[derive(Clone, Copy)]
pub struct Header {
    pub id: u16,
    pub size: u32,
    pub place: u32,
    pub after: u32,
}
