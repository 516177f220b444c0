// What a writing may put next, what it then appends, and what readings make of it: the laws, over meanings.
#![tactic(auto)]

pub mod laws;
