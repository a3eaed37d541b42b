//! What an input asks for: its bytes, read whole, its settings and the rows of its trace.
#![tactic(auto)]

mod input_bytes;
mod reading;

pub use input_bytes::INPUT_LIMIT;
pub use reading::{Asked, BadInput, read_asked};
