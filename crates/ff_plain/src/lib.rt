//! A device of lines in memory, for users and tests that want no flash.
#![tactic(auto)]

mod plain;

pub use plain::{Plain, PlainPage};
