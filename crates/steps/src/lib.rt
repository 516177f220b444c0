// The steps of a reading that hand out nothing, over any source of bits.
#![tactic(auto)]

pub mod bits_taken;
pub mod elements;
pub mod headers;
pub mod maps;
pub mod numbers;
pub mod view;
