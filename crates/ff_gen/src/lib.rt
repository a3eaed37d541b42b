//! The rows of a trace made from a number: four callers over a small geometry, with background turns between their calls.
#![tactic(auto)]

mod calls;
mod draws;
mod generated;
#[cfg(test)]
mod tests;

pub use generated::generate;
