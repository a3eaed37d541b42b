// The settings of a run, and why they are refused.

use crate::names::SettingName;
use ff_base::Geometry;
use ff_flash::Plan;

/// The settings of a run.
#[derive(Debug, Drop)]
pub struct Settings {
    pub geometry: Geometry,
    /// At which operations the flash fails, and at which the power is cut.
    pub plan: Plan,
    /// The event number at which threads lose power, if they do.
    pub power_event: Option<u64>,
    /// How many of the waiting posts arrive then.
    pub power_arrive: u32,
}

/// Why settings are refused.
#[derive(Clone, Copy, Debug, PartialEq, Eq)]
pub enum BadSettings {
    NoMemory,
    /// The bytes aren't a TOML document.
    Text,
    /// A key of the document or of a cut isn't known.
    Key,
    /// The first setting whose value has another kind.
    Kind(SettingName),
    /// The first setting that is out of its bounds.
    Bound(SettingName),
}
