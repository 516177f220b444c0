// Two readings of the same bits side by side, one by an older description and one by a newer, and the law of how they
// compare.
#![tactic(auto)]

pub mod beside;
pub mod comparison;
