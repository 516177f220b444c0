// Readings of a source by a checked description: items are handed out one by one.
#![tactic(auto)]

mod ending;
mod lookups;
pub mod next;
pub mod offering;
pub mod open_object;
mod positions;
pub mod state;
pub mod walk;
mod walking;
