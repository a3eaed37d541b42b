//! The block table of a flash store: the state, the write place and the mapped pages of every block, where the next
//! page is programmed, and which block is collected next.
#![tactic(auto)]

mod block;
mod scans;
mod table;

pub use table::{BlockTable, Place};
