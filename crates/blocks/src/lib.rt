// The rules for stretches and blocks of lines, and for how deep blocks and nodes nest.
#![tactic(auto)]

pub mod blocks;
pub mod deep;
pub mod faults;
pub mod holders;
pub mod stretches;
