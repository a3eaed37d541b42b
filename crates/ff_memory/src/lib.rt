//! Loads and stores on a memory of page frames over a device of lines, and the migration of pages between them: a page is
//! served at every moment of its copy. The rules of the copy are this project's own, after FlatFlash.
#![tactic(auto)]

mod access;
mod address;
mod advance;
mod begin;
mod load;
mod mark;
mod memory;
mod store;

pub use access::{Access, Side, What};
pub use memory::Memory;
