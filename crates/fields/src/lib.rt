// The rule for the fields of one record: each has one of its values, and names records that are there.
// It needs the record, how many records each table has, and for a node its own number.
#![tactic(auto)]

pub mod lines;
pub mod nodes;
pub mod tables;
mod values;
