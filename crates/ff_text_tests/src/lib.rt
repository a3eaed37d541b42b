//! Tests of numbers and calls, and of the texts that they are read from and written as.
#![tactic(auto)]

#[cfg(test)]
mod tests;
