//! Tests of the simulated flash and of the parts of the device over it.
#![tactic(auto)]

#[cfg(test)]
mod tests;
