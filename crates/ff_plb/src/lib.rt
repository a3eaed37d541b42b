//! The promotion look-aside buffer: the pages in flight between the SSD and the host memory, which of their lines are copied,
//! and the line that is under way. Its form and its rules are this project's own, after FlatFlash.
#![tactic(auto)]

mod plb;
mod slot;

pub use plb::Plb;
pub use slot::{Flight, Landing, NextStep, Slot, Way};
