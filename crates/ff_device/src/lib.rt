//! The device of lines over the flash store: a window of posts over a cache over the store.
#![tactic(auto)]

mod device;
mod store_steps;

pub use device::{Device, DeviceOwn, DeviceParts, SlotPages};
