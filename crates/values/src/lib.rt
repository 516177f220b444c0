// Evaluation of nodes.
#![tactic(auto)]

pub mod evaluate;
pub mod operators;
