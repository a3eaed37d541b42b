//! The rows of a trace, read from CSV.
#![tactic(auto)]

mod calls;
mod fields;
mod hex_pairs;
mod row;
mod tally;
mod trace_rows;

pub use fields::CALLERS;
pub use row::Row;
pub use tally::{Limits, MAX_LOSSES, MAX_ROWS, MAX_TURNS};
pub use trace_rows::{BadTrace, trace};
