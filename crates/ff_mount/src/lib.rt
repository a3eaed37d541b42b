//! What the battery and the flash hold together after a power loss, its mount, and the image of it.
#![tactic(auto)]

mod image;
mod mounting;
mod page;
mod stop;

pub use image::{Mounted, image_of};
pub use mounting::{MountBack, mount};
pub use stop::MountStop;
