//! The settings of a run, read from TOML.
#![tactic(auto)]

mod bounds;
mod cuts;
mod document;
mod given;
mod keys;
mod kinds;
mod names;
mod reading;
mod values;

pub use given::{BadSettings, Settings};
pub use names::SettingName;
pub use reading::settings;
