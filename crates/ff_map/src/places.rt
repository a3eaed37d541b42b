// What is known of a page's place, and a move of a page.
use ff_base::{PageNo, Ppn};

/// Where a logical page is, and since which version.
#[derive(Clone, Copy, Debug, PartialEq, Eq)]
pub struct Mapping {
    pub at: Ppn,
    pub version: u64,
}

/// A page that was copied from one place to another.
#[derive(Clone, Copy, Debug, PartialEq, Eq)]
pub struct Move {
    pub page: PageNo,
    pub from: Ppn,
    pub to: Ppn,
}
