//! Masks of a page's lines, the overlay of a piece on a line, posted stores, and what is asked of a device of lines.
#![tactic(auto)]

mod device;
mod line_bytes;
mod line_mask;
mod post;

pub use device::{LineDevice, Work};
pub use line_bytes::{overlay, overlay_page};
pub use line_mask::LineMask;
pub use post::Post;
