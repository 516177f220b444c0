// Readings of a stream that comes piece by piece, in memory that does not grow with it.
//
// - `state`, `next`: `Streaming`, a reading that is lent the bytes which it wants next.
// - `page`, `zeros`: a source that has the bytes of a piece at their place, and 0 elsewhere.
#![tactic(auto)]

mod making;
pub mod next;
mod page;
pub mod state;
mod zeros;
