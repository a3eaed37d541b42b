//! The window of posted stores that wait for the device's cache, first in, first out.
#![tactic(auto)]

mod window;

pub use ff_lines::Post;
pub use window::Window;
