//! Where the logical pages of a flash store lie: a one to one map from pages to flash places, with its inverse, and
//! the version of each mapping.
#![tactic(auto)]

mod owners;
mod page_map;
mod places;

pub use page_map::PageMap;
pub use places::{Mapping, Move};
