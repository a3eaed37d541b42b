// A cache of empty slots.
ghost use Rattle.std.specs.Prelude.{◌≡◌, ◌≤◌, ◌*◌, IfOk, replicate};
ghost use Rattle.ff_base.specs.Geometry.{IsWithinLimits};
ghost use Rattle.ff_cache.specs.Cache.{fresh_cache};
ghost use Rattle.ff_cache.specs.Slots.{empty_slot};
ghost use Rattle.ff_rrip.specs.Ways.{distant_value};

use crate::{Cache, CacheSlot};
use ff_base::{Geometry, NoMemory};
use ff_rrip::Ways;
use std::alloc::Global;

fn empty_slots(alloc: Global, count: u32) -> Result<Vec<CacheSlot>, NoMemory>
    ensures { IfOk result (λ slots. slots.items ≡ replicate count empty_slot) }
{
    let mut slots = Vec::new(alloc);
    for _ in 0..count {
        slots.push(CacheSlot::empty(alloc)?)?;
    }
    Ok(slots)
}

fn distant_values(alloc: Global, sets: u32, ways: u32) -> Result<Vec<Ways>, NoMemory>
    requires { ways ≤ 32 }
    ensures { IfOk result (λ values. values.items ≡ replicate sets (replicate ways distant_value)) }
{
    let mut values = Vec::new(alloc);
    for _ in 0..sets {
        values.push(Ways::new(alloc, ways)?)?;
    }
    Ok(values)
}

impl Cache {
    /// A cache of empty slots, all expected last.
    pub fn new(alloc: Global, geometry: &Geometry) -> Result<Cache, NoMemory>
        requires { IsWithinLimits geometry.now }
        ensures { IfOk result (λ cache. cache ≡ fresh_cache geometry.now.sets geometry.now.ways) }
    {
        let sets = geometry.sets;
        let ways = geometry.ways;
        let slots = empty_slots(alloc, sets * ways)?;
        let values = distant_values(alloc, sets, ways)?;
        Ok(Cache {
            slots,
            values,
            sets,
            ways,
        })
    }
}
