//! What a mount finds out of a flash by probes alone: the spare block, the write places, where the newest version of
//! each logical page stands, and the next version.
#![tactic(auto)]

mod blocks;
mod covered;
mod mapping;
mod probing;
mod scan;
#[cfg(test)]
mod tests;
mod tops;
mod version;

pub use scan::{Found, Scan};
