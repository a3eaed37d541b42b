//! The page table: where each page is at home, the persist marks of its lines, and which pages are born.
#![tactic(auto)]

mod table;

pub use table::{Home, Table};
