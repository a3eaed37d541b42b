//! The garbage collector of a flash store: it moves the mapped pages of a block elsewhere and erases it, in steps of at
//! most one flash operation.
#![tactic(auto)]

mod beginning;
mod collector;
mod copying;
mod counts;
mod ending;
mod originals;
mod phase;

pub use collector::{Collector, GcStep};
pub use counts::{FlashCounts, OperationKind};
