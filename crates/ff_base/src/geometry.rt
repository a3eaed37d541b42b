// The sizes of the simulated device, and the check of their bounds.
ghost use Rattle.std.specs.Prelude.{◌≡◌, ◌<◌, IfErr, OnOk};
ghost use Rattle.ff_base.specs.Geometry.{AreAllowedBelow, IsAllowed, IsFirstBroken, IsWithinLimits, capacity_of, default_geometry, greatest_of, least_of};

use crate::limits::{Limit, LimitName};

// The numbers that are no products, in the order of `LimitName`.
const NUMBERS: [LimitName; 9] = [
    LimitName::Blocks,
    LimitName::PerBlock,
    LimitName::Pages,
    LimitName::Sets,
    LimitName::Ways,
    LimitName::Frames,
    LimitName::Plb,
    LimitName::Window,
    LimitName::Low,
];

/// The sizes of the simulated device and of the host memory before it.
#[derive(Clone, Copy, Debug, PartialEq, Eq)]
pub struct Geometry {
    /// Blocks of the flash.
    pub blocks: u32,
    /// Pages of a block.
    pub per_block: u32,
    /// Logical pages.
    pub pages: u32,
    /// Sets of the device's cache.
    pub sets: u32,
    /// Ways of a set.
    pub ways: u32,
    /// Page frames of the host memory.
    pub frames: u32,
    /// Entries of the promotion look-aside buffer.
    pub plb: u32,
    /// Posted stores that the window holds.
    pub window: u32,
    /// The collector runs where at most so many blocks are erased.
    pub low: u32,
}

impl Geometry {
    /// Whether every number, and the two products, are within their bounds. The error is the first that isn't,
    /// in the order of `LimitName`.
    pub fn check(&self) -> Result<(), Limit>
        ensures ok { OnOk result (IsWithinLimits self.now) }
        ensures err { IfErr result (IsFirstBroken self.now) }
    {
        self.check_numbers()?;
        within(LimitName::FlashPages, self.blocks * self.per_block)?;
        within(LimitName::CacheWays, self.sets * self.ways)
    }

    // The numbers alone, whose bounds keep the products small. A loop over a table, as each further step of
    // a chain would be proved with all that is before it.
    fn check_numbers(&self) -> Result<(), Limit>
        ensures ok { OnOk result (AreAllowedBelow self.now 9) }
        ensures err { IfErr result (IsFirstBroken self.now) }
    {
        let values = [
            self.blocks,
            self.per_block,
            self.pages,
            self.sets,
            self.ways,
            self.frames,
            self.plb,
            self.window,
            self.low,
        ];
        for i in 0..9 {
            within(NUMBERS[i], values[i])?;
        }
        Ok(())
    }

    /// How many logical pages the flash can hold and still be collected.
    pub fn capacity(&self) -> u32
        requires { IsWithinLimits self.now }
        ensures { result ≡ capacity_of self.now }
    {
        (self.blocks - 1) * self.per_block - 1
    }
}

impl Default for Geometry {
    ghost is_default = { λ g. g ≡ default_geometry };

    fn default() -> Self {
        Geometry {
            blocks: 8,
            per_block: 4,
            pages: 16,
            sets: 1,
            ways: 4,
            frames: 4,
            plb: 2,
            window: 4,
            low: 1,
        }
    }
}

fn within(name: LimitName, value: u32) -> Result<(), Limit>
    ensures ok { OnOk result (IsAllowed name value) }
    ensures name { IfErr result (λ limit. limit.name ≡ name) }
    ensures value { IfErr result (λ limit. limit.value ≡ value) }
    ensures least { IfErr result (λ limit. limit.least ≡ least_of name) }
    ensures greatest { IfErr result (λ limit. limit.greatest ≡ greatest_of name) }
    ensures broken { IfErr result (λ limit. IsAllowed name value → ⊥) }
{
    let limit = Limit::of(name, value);
    if value < limit.least || limit.greatest < value {
        return Err(limit);
    }
    Ok(())
}
