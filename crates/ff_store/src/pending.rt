// A flush between its program and its seal.
use ff_base::{PageNo, Ppn};

/// A page that was programmed at a place and is to be sealed.
#[derive(Clone, Copy, Debug, PartialEq, Eq)]
pub struct Pending {
    pub page: PageNo,
    pub at: Ppn,
    pub version: u64,
}
