//! The page frames of the host memory: the page that each holds, its bytes, its dirty lines, and whether it was referred
//! to.
#![tactic(auto)]

mod frame;
mod frames;
mod used;

pub use frame::Frame;
pub use frames::Frames;
