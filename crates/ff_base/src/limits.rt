// The numbers of a geometry that have bounds, and the bounds.
ghost use Rattle.std.specs.Prelude.{◌≡◌};
ghost use Rattle.ff_base.specs.Geometry.{least_of, greatest_of};

/// The numbers of a geometry that have bounds, in the order in which they are looked at.
#[derive(Clone, Copy, Debug, PartialEq, Eq)]
pub enum LimitName {
    Blocks,
    PerBlock,
    Pages,
    Sets,
    Ways,
    Frames,
    Plb,
    Window,
    Low,
    /// `blocks * per_block`.
    FlashPages,
    /// `sets * ways`.
    CacheWays,
}

/// A number of a geometry and the bounds that it must keep, both of them allowed.
#[derive(Clone, Copy, Debug, PartialEq, Eq)]
pub struct Limit {
    pub name: LimitName,
    pub value: u32,
    pub least: u32,
    pub greatest: u32,
}

impl Limit {
    /// A number's value beside its bounds, whether it keeps them or not.
    pub(crate) fn of(name: LimitName, value: u32) -> Limit
        ensures name { result.name ≡ name }
        ensures value { result.value ≡ value }
        ensures least { result.least ≡ least_of name }
        ensures greatest { result.greatest ≡ greatest_of name }
    {
        let (least, greatest) = match name {
            LimitName::Blocks => (3, 4096),
            LimitName::PerBlock => (2, 256),
            LimitName::Pages => (1, 65_536),
            LimitName::Sets => (1, 4096),
            LimitName::Ways => (1, 16),
            LimitName::Frames => (0, 4096),
            LimitName::Plb => (1, 64),
            LimitName::Window => (1, 64),
            LimitName::Low => (1, 8),
            LimitName::FlashPages => (6, 16_384),
            LimitName::CacheWays => (1, 4096),
        };
        Limit {
            name,
            value,
            least,
            greatest,
        }
    }
}
