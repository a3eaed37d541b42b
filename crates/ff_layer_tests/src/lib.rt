//! Tests of the layers from the store up to the sessions, over a simulated flash.
#![tactic(auto)]

#[cfg(test)]
mod tests;
