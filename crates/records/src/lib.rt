// The records of a description's seven tables, stretches of a table, a view of lines with their fields by name, and the
// faults of a description.
#![tactic(auto)]

pub mod classes;
pub mod counts;
pub mod faults;
pub mod messages;
pub mod records;
pub mod statements;
pub mod stretches;
