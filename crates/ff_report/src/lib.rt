//! The texts of a session: what was called and answered, what was counted, and the image that the
//! remount after it found. A line of text is one write, and no call takes memory.
#![tactic(auto)]

mod calls;
mod counts;
mod entry;
mod image;
mod image_lines;
mod line;
mod parts;
mod session;
mod summary;
mod writing;

pub use line::{LINE_ROOM, Line};
pub use parts::{Remounted, SessionParts};
pub use session::write_session;
pub use summary::write_summary;
