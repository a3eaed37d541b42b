// Documents that are refused.
use ff_settings::{BadSettings, SettingName};

/// A document, whether it is for threads, and why it is refused.
pub type Refused = (&'static str, bool, BadSettings);

pub static REFUSED: [Refused; 76] = [
    ("blocks", false, BadSettings::Text),
    ("= 3", false, BadSettings::Text),
    ("blocks = 8 pages = 16", false, BadSettings::Text),
    ("blocks = 8\nblocks = 8", false, BadSettings::Text),
    ("blocks = 9223372036854775808", false, BadSettings::Text),
    ("other = 1\nblocks", false, BadSettings::Text),
    ("block = 8", false, BadSettings::Key),
    ("Blocks = 8", false, BadSettings::Key),
    ("flash_pages = 32", false, BadSettings::Key),
    ("cache_ways = 4", false, BadSettings::Key),
    ("[geometry]\nblocks = 8", false, BadSettings::Key),
    ("power_event = 3", false, BadSettings::Key),
    ("power_arrive = 3", false, BadSettings::Key),
    ("at = 1", false, BadSettings::Key),
    ("power = 1", true, BadSettings::Key),
    (
        "[[cut]]\nat = 1\nmask = 0\narrive = 0\nwhen = 1",
        false,
        BadSettings::Key,
    ),
    (
        "cut = [{ at = 1, mask = 0, arrive = 0 }, { at = 2, marks = 0, arrive = 0 }]",
        false,
        BadSettings::Key,
    ),
    ("cut = [3, { at = 1, extra = 2 }]", false, BadSettings::Key),
    ("blocks = \"8\"\nother = 1", false, BadSettings::Key),
    ("blocks = 1\nother = 1", false, BadSettings::Key),
    (
        "blocks = \"8\"",
        false,
        BadSettings::Kind(SettingName::Blocks),
    ),
    (
        "per_block = 4.0",
        false,
        BadSettings::Kind(SettingName::PerBlock),
    ),
    ("low = true", false, BadSettings::Kind(SettingName::Low)),
    (
        "window = [4]",
        false,
        BadSettings::Kind(SettingName::Window),
    ),
    ("fail = 3", false, BadSettings::Kind(SettingName::Fail)),
    (
        "fail = [1, \"2\"]",
        false,
        BadSettings::Kind(SettingName::Fail),
    ),
    ("fail = [[1]]", false, BadSettings::Kind(SettingName::Fail)),
    ("cut = 3", false, BadSettings::Kind(SettingName::Cut)),
    (
        "cut = { at = 1, mask = 0, arrive = 0 }",
        false,
        BadSettings::Kind(SettingName::Cut),
    ),
    (
        "[cut]\nwhen = 1",
        false,
        BadSettings::Kind(SettingName::Cut),
    ),
    ("cut = [3]", false, BadSettings::Kind(SettingName::Cut)),
    (
        "cut = [{ at = 1, mask = 0 }]",
        false,
        BadSettings::Kind(SettingName::Cut),
    ),
    (
        "cut = [{ at = 1, mask = 0, arrive = \"0\" }]",
        false,
        BadSettings::Kind(SettingName::Cut),
    ),
    ("cut = [{}]", false, BadSettings::Kind(SettingName::Cut)),
    (
        "pages = 0\nframes = \"4\"",
        false,
        BadSettings::Kind(SettingName::Frames),
    ),
    (
        "frames = \"4\"\npages = false",
        false,
        BadSettings::Kind(SettingName::Pages),
    ),
    (
        "cut = 1\nfail = 1",
        false,
        BadSettings::Kind(SettingName::Fail),
    ),
    (
        "power_event = \"1\"",
        true,
        BadSettings::Kind(SettingName::PowerEvent),
    ),
    (
        "power_event = true\nfail = 1",
        true,
        BadSettings::Kind(SettingName::Fail),
    ),
    (
        "power_arrive = 1979-05-27",
        true,
        BadSettings::Kind(SettingName::PowerArrive),
    ),
    ("blocks = 2", false, BadSettings::Bound(SettingName::Blocks)),
    (
        "blocks = 4097",
        false,
        BadSettings::Bound(SettingName::Blocks),
    ),
    (
        "blocks = -1",
        false,
        BadSettings::Bound(SettingName::Blocks),
    ),
    (
        "blocks = 4294967304",
        false,
        BadSettings::Bound(SettingName::Blocks),
    ),
    (
        "blocks = 9223372036854775807",
        false,
        BadSettings::Bound(SettingName::Blocks),
    ),
    (
        "per_block = 257",
        false,
        BadSettings::Bound(SettingName::PerBlock),
    ),
    ("pages = 0", false, BadSettings::Bound(SettingName::Pages)),
    ("sets = 4097", false, BadSettings::Bound(SettingName::Sets)),
    (
        "frames = 4097",
        false,
        BadSettings::Bound(SettingName::Frames),
    ),
    (
        "frames = -1",
        false,
        BadSettings::Bound(SettingName::Frames),
    ),
    ("plb = 65", false, BadSettings::Bound(SettingName::Plb)),
    ("window = 0", false, BadSettings::Bound(SettingName::Window)),
    ("low = 9", false, BadSettings::Bound(SettingName::Low)),
    (
        "low = 9\nways = 17",
        false,
        BadSettings::Bound(SettingName::Ways),
    ),
    (
        "low = 9\nblocks = 4096\nper_block = 256",
        false,
        BadSettings::Bound(SettingName::Low),
    ),
    (
        "blocks = 4096\nper_block = 5",
        false,
        BadSettings::Bound(SettingName::FlashPages),
    ),
    (
        "sets = 4096\nways = 2\nblocks = 4096\nper_block = 256",
        false,
        BadSettings::Bound(SettingName::FlashPages),
    ),
    (
        "sets = 4096\nways = 2\nfail = [0]",
        false,
        BadSettings::Bound(SettingName::CacheWays),
    ),
    ("fail = [0]", false, BadSettings::Bound(SettingName::Fail)),
    (
        "fail = [2, 2]",
        false,
        BadSettings::Bound(SettingName::Fail),
    ),
    (
        "fail = [3, 2]",
        false,
        BadSettings::Bound(SettingName::Fail),
    ),
    ("fail = [-1]", false, BadSettings::Bound(SettingName::Fail)),
    (
        "fail = [4611686018427387905]",
        false,
        BadSettings::Bound(SettingName::Fail),
    ),
    (
        "fail = [1, 2, 3, 4, 5, 6, 7, 8, 9, 10, 11, 12, 13, 14, 15, 16, 17, 18, 19, 20, 21, 22, 23, 24, 25, 26, 27, 28, 29, 30, 31, 32, 33, 34, 35, 36, 37, 38, 39, 40, 41, 42, 43, 44, 45, 46, 47, 48, 49, 50, 51, 52, 53, 54, 55, 56, 57, 58, 59, 60, 61, 62, 63, 64, 65]",
        false,
        BadSettings::Bound(SettingName::Fail),
    ),
    (
        "cut = [{ at = 0, mask = 0, arrive = 0 }]",
        false,
        BadSettings::Bound(SettingName::Cut),
    ),
    (
        "cut = [{ at = 2, mask = 0, arrive = 0 }, { at = 2, mask = 1, arrive = 0 }]",
        false,
        BadSettings::Bound(SettingName::Cut),
    ),
    (
        "cut = [{ at = 4611686018427387905, mask = 0, arrive = 0 }]",
        false,
        BadSettings::Bound(SettingName::Cut),
    ),
    (
        "cut = [{ at = 1, mask = 4294967296, arrive = 0 }]",
        false,
        BadSettings::Bound(SettingName::Cut),
    ),
    (
        "cut = [{ at = 1, mask = 0, arrive = -1 }]",
        false,
        BadSettings::Bound(SettingName::Cut),
    ),
    (
        "cut = [{ at = 1, mask = 0, arrive = 0 }, { at = 2, mask = 0, arrive = 0 }, { at = 3, mask = 0, arrive = 0 }, { at = 4, mask = 0, arrive = 0 }, { at = 5, mask = 0, arrive = 0 }, { at = 6, mask = 0, arrive = 0 }, { at = 7, mask = 0, arrive = 0 }, { at = 8, mask = 0, arrive = 0 }, { at = 9, mask = 0, arrive = 0 }, { at = 10, mask = 0, arrive = 0 }, { at = 11, mask = 0, arrive = 0 }, { at = 12, mask = 0, arrive = 0 }, { at = 13, mask = 0, arrive = 0 }, { at = 14, mask = 0, arrive = 0 }, { at = 15, mask = 0, arrive = 0 }, { at = 16, mask = 0, arrive = 0 }, { at = 17, mask = 0, arrive = 0 }]",
        false,
        BadSettings::Bound(SettingName::Cut),
    ),
    (
        "fail = [4, 5]\ncut = [{ at = 5, mask = 0, arrive = 0 }]",
        false,
        BadSettings::Bound(SettingName::Cut),
    ),
    (
        "fail = [0]\ncut = [{ at = 0, mask = 0, arrive = 0 }]",
        false,
        BadSettings::Bound(SettingName::Fail),
    ),
    (
        "power_event = 4611686018427387905",
        true,
        BadSettings::Bound(SettingName::PowerEvent),
    ),
    (
        "power_event = -1\npower_arrive = -1",
        true,
        BadSettings::Bound(SettingName::PowerEvent),
    ),
    (
        "power_arrive = 4294967296",
        true,
        BadSettings::Bound(SettingName::PowerArrive),
    ),
    (
        "power_arrive = -1\ncut = [{ at = 0, mask = 0, arrive = 0 }]",
        true,
        BadSettings::Bound(SettingName::Cut),
    ),
];
