//! The flash store: a map of logical pages to their bytes, over a flash with faults and power cuts. A page is fetched,
//! flushed and sealed, and space is collected, in steps of at most one flash operation.
#![tactic(auto)]

mod collecting;
mod flushing;
mod pending;
mod remount;
mod store;
mod writing;

pub use pending::Pending;
pub use remount::{StoreBack, StoreStop};
pub use store::{FlushStep, PageStore};
