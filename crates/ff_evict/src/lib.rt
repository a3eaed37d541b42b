//! Which page goes back to the SSD where a frame is wanted: the one whose frame has the least score, by a rule of the
//! caller's. The rule's form and the order of equal scores are this project's own.
#![tactic(auto)]

mod evictor;
mod picker;

pub use evictor::Evictor;
pub use picker::{Pick, Picker};
