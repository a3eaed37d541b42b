//! What every crate of the product speaks of: places and pages, a page's bytes, persist marks, and the geometry.
#![tactic(auto)]

mod geometry;
mod limits;
mod marks;
mod memory;
mod numbers;
mod page;
mod reserved;

pub use geometry::Geometry;
pub use limits::{Limit, LimitName};
pub use marks::Marks;
pub use memory::NoMemory;
pub use numbers::{Block, Caller, LAST_EVENT, LINE_BYTES, PAGE_BYTES, PAGE_LINES, PageNo, Ppn};
pub use page::PageBuf;
pub use reserved::append_reserved;
