//! Which way of a cache set to replace: static re-reference interval prediction with values of two bits. A way that was
//! hit is expected again soon, one that was filled late, and the least of those that are expected last gives way.
#![tactic(auto)]

mod values;
mod ways;

pub use ways::Ways;
