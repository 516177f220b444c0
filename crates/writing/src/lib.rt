// Writings of a stream by a checked description: items are put one by one.
#![tactic(auto)]

pub mod finish;
mod lines;
pub mod open;
pub mod put;
pub mod refusal;
pub mod state;
