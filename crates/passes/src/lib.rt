// Passes over the records of a loaded description by a test of their numbers, and what several rules ask of a class.
#![tactic(auto)]

pub mod families;
pub mod first;
pub mod naming;
