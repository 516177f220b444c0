// Descriptions of bit streams as loaded from a file: seven tables, each read by one function for every kind of record.
#![tactic(auto)]

pub mod kinds;
pub mod load;
pub mod loaded;
pub mod looks;
pub mod record;
