// What putting one item takes: its own bits, a source that is all 0 but for them, and storing bits of a source.
//
// - `own`: an item's own bits as a number.
// - `trial`: a source that is all 0 but for them.
// - `store`: storing bits of a source into bytes.
#![tactic(auto)]

mod headers;
mod maps;
pub mod own;
pub mod store;
pub mod trial;
mod values_of;
