// The rule for ids, id widths, sizes, uses, extensions, map indices and look-aheads: each where it belongs.
#![tactic(auto)]

pub mod classes;
pub mod faults;
pub mod rows;
pub mod uses;
