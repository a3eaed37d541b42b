// The cache of what the battery kept.
ghost use Rattle.std.specs.Prelude.{◌≡◌, ◌≢◌, ◌<◌, ◌≤◌, ◌+◌, ◌*◌, ℕ, IfErr, IfOk, length, slice_index, slice_set, if◌then◌else◌};
ghost use Rattle.ff_base.specs.Geometry.{IsWithinLimits};
ghost use Rattle.ff_cache.specs.Nv.{mounted_value, slot_of, slots_of, way_of, ways_of, AreMounted, IsFromNv};
ghost use Rattle.ff_cache.specs.Slots.{cache_slot_at, ArePlaced};
ghost use Rattle.ff_rrip.specs.Ways.{long_value};

use super::{Nv, NvParts};
use crate::{Cache, CacheSlot};
use ff_base::{Geometry, NoMemory};
use ff_rrip::Ways;
use std::alloc::Global;

fn calm_slot(slot: &mut CacheSlot)
    ensures { slot.new ≡ slot_of (way_of slot.old) }
{
    slot.touched = false;
    slot.pinned = false;
}

fn calm_at(slots: &mut Vec<CacheSlot>, k: usize)
    requires { k < length slots.old.items }
    ensures { slots.new.items
        ≡ slice_set slots.old.items k (slot_of (way_of (cache_slot_at slots.old.items k))) }
{
    calm_slot(&mut slots[k]);
}

#[tactic(auto, using(crate::proofs::Mounted::calmed))]
fn calm(slots: &mut Vec<CacheSlot>)
    ensures { slots.new.items ≡ slots_of (ways_of slots.old.items) }
{
    for k in 0..slots.len() {
        calm_at(slots, k);
    }
}

fn mount_way(made: &mut Ways, way: u32, empty: bool)
    requires { way < length made.old }
    ensures size { length made.new ≡ length made.old }
    ensures value { slice_index made.new way
        ≡ (if empty then slice_index made.old way else long_value) }
    ensures others { (k : ℕ) → k ≢ way → slice_index made.new k ≡ slice_index made.old k }
{
    if !empty {
        made.insert(way);
    }
}

fn mounted_ways(alloc: Global, slots: &[CacheSlot], from: u32, ways: u32) -> Result<Ways, NoMemory>
    requires within { from + ways ≤ length slots.now }
    requires few { ways ≤ 16 }
    requires fits { length slots.now ≤ 4096 }
    ensures size { IfOk result (λ made. length made ≡ ways) }
    ensures each { IfOk result (λ made. (way : ℕ) → way < ways
        → slice_index made way ≡ mounted_value (cache_slot_at slots.now (from + way))) }
{
    let mut made = Ways::new(alloc, ways)?;
    for way in 0..ways {
        mount_way(&mut made, way, slots[(from + way) as usize].is_empty());
    }
    Ok(made)
}

#[tactic(auto, using(crate::proofs::Sets::set_fits))]
fn mounted_values(
    alloc: Global,
    slots: &[CacheSlot],
    sets: u32,
    ways: u32,
) -> Result<Vec<Ways>, NoMemory>
    requires size { length slots.now ≡ sets * ways }
    requires few_ways { ways ≤ 16 }
    requires few { sets * ways ≤ 4096 }
    ensures { IfOk result (λ values. AreMounted sets ways slots.now values.items) }
{
    let mut values = Vec::new(alloc);
    for set in 0..sets {
        values.push(mounted_ways(alloc, slots, set * ways, ways)?)?;
    }
    Ok(values)
}

impl Cache {
    /// The cache of what the battery kept: each full way was filled, and none is touched or pinned. For want of
    /// memory the content is handed back.
    #[tactic(auto, using(crate::proofs::Mounted::mounted_sound))]
    pub fn from_nv(alloc: Global, nv: Nv, geometry: &Geometry) -> Result<NvParts, Nv>
        requires geometry { IsWithinLimits geometry.now }
        requires slots { ArePlaced geometry.now.sets geometry.now.ways (slots_of nv.slots) }
        ensures cache { IfOk result (λ parts.
            IsFromNv geometry.now.sets geometry.now.ways nv.slots parts.cache) }
        ensures marks { IfOk result (λ parts. parts.marks ≡ nv.marks) }
        ensures back { IfErr result (λ back. back ≡ nv) }
    {
        let Nv { mut slots, marks } = nv;
        calm(&mut slots);
        match mounted_values(alloc, &slots, geometry.sets, geometry.ways) {
            Ok(values) => Ok(NvParts {
                cache: Cache {
                    slots,
                    values,
                    sets: geometry.sets,
                    ways: geometry.ways,
                },
                marks,
            }),
            Err(_) => Err(Nv { slots, marks }),
        }
    }
}
