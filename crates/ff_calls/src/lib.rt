//! The calls of a program, asked of the memory over any device of lines, and that with the history of their answers they
//! are those of a flat byte array.
#![tactic(auto)]

mod asking;

pub use asking::access;
