// The rules for the ranks of used classes, and for the names that are a line's to take.
#![tactic(auto)]

pub mod faults;
pub mod lines;
pub mod names;
pub mod nodes;
pub mod ranks;
mod reach;
