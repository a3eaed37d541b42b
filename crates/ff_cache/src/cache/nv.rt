// What the battery keeps over a power loss.
ghost use Rattle.std.specs.Prelude.{◌≡◌, IfOk};
ghost use Rattle.ff_cache.specs.Nv.{way_of, ways_of};

mod mounting;

use crate::{Cache, CacheSlot};
use ff_base::{Marks, NoMemory, PageBuf};
use std::alloc::Global;
use std::marker::Model;

/// The battery-backed content: each slot's page, dirty flag and bytes, and the persist marks.
#[derive(Drop)]
pub struct Nv {
    slots: Vec<CacheSlot>,
    marks: Marks,
}

impl Model for Nv {
    ghost use Rattle.ff_cache.specs.Nv.{NvView};

    ghost Value = { NvView };

    ghost use Rattle.ff_cache.specs.NvFields.{view_of};

    ghost view = { view_of };
}

/// The cache and the marks of what the battery kept.
#[derive(Drop)]
pub struct NvParts {
    pub cache: Cache,
    pub marks: Marks,
}

fn copy_slot(alloc: Global, slot: &CacheSlot) -> Result<CacheSlot, NoMemory>
    ensures { IfOk result (λ copy. way_of copy ≡ way_of slot.now) }
{
    let mut bytes = PageBuf::new(alloc)?;
    bytes.copy_from(slot.bytes.as_slice());
    Ok(CacheSlot {
        page: slot.page,
        dirty: slot.dirty,
        touched: false,
        pinned: false,
        bytes,
    })
}

fn copy_slots(alloc: Global, slots: &[CacheSlot]) -> Result<Vec<CacheSlot>, NoMemory>
    ensures { IfOk result (λ copies. ways_of copies.items ≡ ways_of slots.now) }
{
    let mut copies = Vec::new(alloc);
    for slot in slots {
        copies.push(copy_slot(alloc, slot)?)?;
    }
    Ok(copies)
}

impl Nv {
    /// Another with the same content.
    pub fn copy(&self, alloc: Global) -> Result<Nv, NoMemory>
        ensures { IfOk result (λ copy. copy ≡ self.now) }
    {
        let slots = copy_slots(alloc, &self.slots)?;
        let marks = self.marks.copy(alloc)?;
        Ok(Nv { slots, marks })
    }
}

impl Cache {
    /// What the battery keeps of a cache, with these marks. It takes no memory.
    pub fn into_nv(self, marks: Marks) -> Nv
        ensures { result ≡ record { slots = ways_of self.slots; marks = marks } }
    {
        let Cache { slots, .. } = self;
        Nv { slots, marks }
    }
}
