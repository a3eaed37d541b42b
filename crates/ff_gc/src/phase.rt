// What a collector does next.
use ff_base::{Block, PageNo, Ppn};

/// A collection that copies: the block that is collected, the one that the copies go to, and how many pages of the
/// victim are seen, which are those up to the last sealed copy.
#[derive(Clone, Copy)]
pub struct Job {
    pub victim: Block,
    pub into: Block,
    pub seen: u32,
}

/// A page of the victim that is copied: its place there, and its version.
#[derive(Clone, Copy)]
pub struct Original {
    pub page: PageNo,
    pub from: Ppn,
    pub version: u64,
}

/// What the collector does next.
#[derive(Clone, Copy)]
pub enum Phase {
    /// No collection runs.
    Idle,
    /// The next page of the victim is read.
    Reading(Job),
    /// The copy of the page that was read is programmed.
    Programming(Job, Original),
    /// The copy, at this place, is sealed.
    Sealing(Job, Original, Ppn),
    /// The copies take the place of their originals.
    Commit(Job),
    /// The victim is erased.
    Erasing(Block),
    /// The destination of a collection that was given up is erased.
    Aborting(Block),
}
