// The library for programs in C, Rust and other languages, as a static library: checking a description, reading a
// stream by it, writing one. `bench/embed/jilafotra.h` declares it for C, `bench/embed` wraps it for Rust. Nothing
// compares those declarations with the exports here: who changes one changes the others.
//
// - `answers`: the structs that cross.
// - `check`, `read`, `write`: the calls.
// - `folds`: a number over all items of a stream. `over`: the same over the other makes of sources.
// - `gets`: many gets of each make of source, to measure them.
#![tactic(auto)]

mod answers;
mod check;
mod folds;
mod gets;
mod over;
mod read;
mod write;
