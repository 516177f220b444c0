// What a reading by a description does, as definitions in specs/, and the laws about it.
#![tactic(auto)]

pub mod faults;
pub mod items;
pub mod laws;
pub mod lookups;
pub mod messages;
pub mod steps;
pub mod terms;
