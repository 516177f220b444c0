// How many records each of the seven tables has.
#[derive(Clone, Copy)]
pub struct Counts {
    pub classes: u16,
    pub names: u16,
    pub extensions: u16,
    pub lines: u16,
    pub nodes: u16,
    pub maps: u16,
    pub rows: u16,
}
