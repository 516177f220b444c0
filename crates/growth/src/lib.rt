// Whether a newer description has grown from an older one, and what is left of the newer's items for the older.
#![tactic(auto)]

pub mod grown;
mod same;
pub mod striker;
