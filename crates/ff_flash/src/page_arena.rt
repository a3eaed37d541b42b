// The arena of programmed pages' bytes. Each place takes room when it is first programmed, out of what was reserved
// at the start, so that a program takes no memory.
ghost use Rattle.std.specs.Prelude.{◌≡◌, ◌<◌, ◌≤◌, ◌+◌, ◌*◌, ◌++◌, [], IfOk, length, vec_len, vec_capacity, replicate, slice_set, slice_index_or, take, drop, Some, None};
ghost use Rattle.ff_flash.specs.PageArena.{page_in};

use ff_base::{NoMemory, PAGE_BYTES, append_reserved};
use std::alloc::Global;
use std::marker::Model;

/// The bytes that each place was last programmed with. A place that never was holds none.
#[derive(Drop)]
pub struct PageArena {
    /// The number of the page in `bytes` that a place has.
    slots: Vec<Option<u32>>,
    used: u32,
    bytes: Vec<u8>,
}

impl Model for PageArena {
    ghost use Rattle.std.specs.Prelude.{List, ℕ};

    ghost Value = { List (List ℕ) };

    ghost use Rattle.ff_flash.specs.PageArenaFields.{IsKept, view_of};

    ghost view = { view_of };

    ghost invariant = { IsKept };
}

impl PageArena {
    /// So many places that were never programmed.
    pub fn new(alloc: Global, places: u32) -> Result<PageArena, NoMemory>
        ensures { IfOk result (λ arena. arena ≡ replicate places []) }
    {
        let slots = no_slots(alloc, places)?;
        let bytes = Vec::with_capacity(alloc, PAGE_BYTES * places as usize)?;
        Ok(PageArena {
            slots,
            used: 0,
            bytes,
        })
    }

    pub fn copy(&self, alloc: Global) -> Result<PageArena, NoMemory>
        ensures { IfOk result (λ arena. arena ≡ self.now) }
    {
        let mut slots = Vec::with_capacity(alloc, self.slots.len())?;
        slots.extend_from_slice(&self.slots)?;
        let mut bytes = Vec::with_capacity(alloc, PAGE_BYTES * self.slots.len())?;
        append_reserved(&mut bytes, &self.bytes);
        Ok(PageArena {
            slots,
            used: self.used,
            bytes,
        })
    }

    /// The bytes that a place was last programmed with.
    pub fn page(&self, place: u32) -> &[u8]
        requires { place < length self.now }
        ensures { result.now ≡ slice_index_or self.now place [] }
    {
        match self.slots[place as usize] {
            Some(slot) => page_of(&self.bytes, slot),
            None => &[],
        }
    }

    /// Programs a place with these bytes. It takes no memory.
    pub fn put(&mut self, place: u32, page: &[u8])
        requires place { place < length self.old }
        requires size { length page.now ≡ PAGE_BYTES }
        ensures { self.new ≡ slice_set self.old place page.now }
    {
        match self.slots[place as usize] {
            Some(slot) => overwrite(&mut self.bytes, slot, page),
            None => {
                append_reserved(&mut self.bytes, page);
                self.slots[place as usize] = Some(self.used);
                self.used += 1;
            }
        }
    }
}

fn no_slots(alloc: Global, places: u32) -> Result<Vec<Option<u32>>, NoMemory>
    ensures items { IfOk result (λ slots. slots.items ≡ replicate places None) }
    ensures len { IfOk result (λ slots. vec_len slots ≡ places) }
{
    let mut slots = Vec::with_capacity(alloc, places as usize)?;
    slots.resize(places as usize, None)?;
    Ok(slots)
}

fn page_of(bytes: &[u8], slot: u32) -> &[u8]
    requires { PAGE_BYTES * slot + PAGE_BYTES ≤ length bytes.now }
    ensures { result.now ≡ page_in bytes.now slot }
{
    let from = PAGE_BYTES * slot as usize;
    &bytes[from..from + PAGE_BYTES]
}

fn overwrite(bytes: &mut Vec<u8>, slot: u32, page: &[u8])
    requires within { PAGE_BYTES * slot + PAGE_BYTES ≤ vec_len bytes.old }
    requires size { length page.now ≡ PAGE_BYTES }
    ensures items { bytes.new.items ≡ take (PAGE_BYTES * slot) bytes.old.items ++ page.now
        ++ drop (PAGE_BYTES * slot + PAGE_BYTES) bytes.old.items }
    ensures len { vec_len bytes.new ≡ vec_len bytes.old }
    ensures capacity { vec_capacity bytes.new ≡ vec_capacity bytes.old }
{
    let from = PAGE_BYTES * slot as usize;
    bytes[from..from + PAGE_BYTES].copy_from_slice(page);
}
