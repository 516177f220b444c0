// What a reading does inside one open object: what the object still has to do, and each step of it.
#![tactic(auto)]

pub mod frame;
pub mod frames;
pub mod inside;
mod kinds;
mod lines;
pub mod making;
pub mod moves;
mod rounds;
pub mod scene;
mod scenes;
pub mod step;
mod upcoming;
pub mod values_of;
