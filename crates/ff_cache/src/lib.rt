//! The device's battery-backed cache: sets of ways, each a slot for a page, with a table of re-reference values a set.
#![tactic(auto)]

mod cache;
mod slot;

pub use cache::Cache;
pub use cache::nv::{Nv, NvParts};
pub use slot::CacheSlot;
