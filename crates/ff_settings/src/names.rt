// The names of the settings.

ghost use Rattle.std.specs.Prelude.{◌≡◌};
ghost use Rattle.ff_settings.specs.Names.{key_names, name_of, setting_names, text_of};

use ff_base::LimitName;

/// The settings, in the order in which they are looked at.
#[derive(Clone, Copy, Debug, PartialEq, Eq)]
pub enum SettingName {
    Blocks,
    PerBlock,
    Pages,
    Sets,
    Ways,
    Frames,
    Plb,
    Window,
    Low,
    /// `blocks * per_block`, which is no key.
    FlashPages,
    /// `sets * ways`, which is no key.
    CacheWays,
    Fail,
    Cut,
    PowerEvent,
    PowerArrive,
}

static NAMES: [SettingName; 15] = [
    SettingName::Blocks,
    SettingName::PerBlock,
    SettingName::Pages,
    SettingName::Sets,
    SettingName::Ways,
    SettingName::Frames,
    SettingName::Plb,
    SettingName::Window,
    SettingName::Low,
    SettingName::FlashPages,
    SettingName::CacheWays,
    SettingName::Fail,
    SettingName::Cut,
    SettingName::PowerEvent,
    SettingName::PowerArrive,
];

static KEYS: [SettingName; 13] = [
    SettingName::Blocks,
    SettingName::PerBlock,
    SettingName::Pages,
    SettingName::Sets,
    SettingName::Ways,
    SettingName::Frames,
    SettingName::Plb,
    SettingName::Window,
    SettingName::Low,
    SettingName::Fail,
    SettingName::Cut,
    SettingName::PowerEvent,
    SettingName::PowerArrive,
];

// So many of the keys are common to all runs.
const COMMON_KEYS: usize = 11;

impl SettingName {
    /// The name as it is written.
    pub fn text(self) -> &'static str
        ensures { result.now ≡ text_of self }
    {
        match self {
            SettingName::Blocks => "blocks",
            SettingName::PerBlock => "per_block",
            SettingName::Pages => "pages",
            SettingName::Sets => "sets",
            SettingName::Ways => "ways",
            SettingName::Frames => "frames",
            SettingName::Plb => "plb",
            SettingName::Window => "window",
            SettingName::Low => "low",
            SettingName::FlashPages => "flash_pages",
            SettingName::CacheWays => "cache_ways",
            SettingName::Fail => "fail",
            SettingName::Cut => "cut",
            SettingName::PowerEvent => "power_event",
            SettingName::PowerArrive => "power_arrive",
        }
    }
}

/// The setting of a geometry's number.
pub(crate) fn name_of(limit: LimitName) -> SettingName
    ensures { result ≡ name_of limit }
{
    match limit {
        LimitName::Blocks => SettingName::Blocks,
        LimitName::PerBlock => SettingName::PerBlock,
        LimitName::Pages => SettingName::Pages,
        LimitName::Sets => SettingName::Sets,
        LimitName::Ways => SettingName::Ways,
        LimitName::Frames => SettingName::Frames,
        LimitName::Plb => SettingName::Plb,
        LimitName::Window => SettingName::Window,
        LimitName::Low => SettingName::Low,
        LimitName::FlashPages => SettingName::FlashPages,
        LimitName::CacheWays => SettingName::CacheWays,
    }
}

/// Every setting, in order.
pub(crate) fn setting_names() -> &'static [SettingName]
    ensures { result.now ≡ setting_names }
{
    &NAMES
}

/// The settings that may be keys of a document.
pub(crate) fn key_names(threads: bool) -> &'static [SettingName]
    ensures { result.now ≡ key_names threads }
{
    if threads { &KEYS } else { &KEYS[..COMMON_KEYS] }
}
