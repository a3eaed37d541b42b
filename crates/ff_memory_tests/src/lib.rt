//! Tests of the parts of the host's memory.
#![tactic(auto)]

#[cfg(test)]
mod tests;
