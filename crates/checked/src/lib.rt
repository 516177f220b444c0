// The check of a description: its first fault, and descriptions that have none.
#![tactic(auto)]

pub mod checked;
pub mod field_faults;
pub mod first;
pub mod laws;
pub mod make;
