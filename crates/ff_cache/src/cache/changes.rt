// What is done to one slot.
ghost use Rattle.std.specs.Prelude.{◌≡◌, ◌<◌, ◌≤◌, ◌+◌, false, length, slice_set};
ghost use Rattle.ff_base.specs.declared.numbers.TheConstants.{LINE_BYTES, PAGE_LINES};
ghost use Rattle.ff_cache.specs.Cache.{values_at, with_value, IsInSet};
ghost use Rattle.ff_cache.specs.Slots.{held, is_empty, cache_slot_at, slot_filled, slot_flushed, slot_flushing, slot_pinned, slot_written};
ghost use Rattle.ff_rrip.specs.Ways.{long_value};

use crate::{Cache, CacheSlot};
use ff_base::{PageBuf, PageNo};
use ff_model::Piece;
use ff_rrip::Ways;

fn write_at(slots: &mut Vec<CacheSlot>, k: u32, line: u8, from: u8, piece: &Piece)
    requires slot { k < length slots.old.items }
    requires line { line < PAGE_LINES }
    requires span { from + length piece.now ≤ LINE_BYTES }
    ensures { slots.new.items ≡ slice_set slots.old.items k
        (slot_written (cache_slot_at slots.old.items k) line from piece.now) }
{
    slots[k as usize].write(line, from, piece);
}

fn pin_at(slots: &mut Vec<CacheSlot>, k: u32, on: bool)
    requires { k < length slots.old.items }
    ensures { slots.new.items
        ≡ slice_set slots.old.items k (slot_pinned on (cache_slot_at slots.old.items k)) }
{
    slots[k as usize].pin(on);
}

fn begin_flush_at(slots: &mut Vec<CacheSlot>, k: u32)
    requires { k < length slots.old.items }
    ensures { slots.new.items
        ≡ slice_set slots.old.items k (slot_flushing (cache_slot_at slots.old.items k)) }
{
    slots[k as usize].begin_flush();
}

fn end_flush_at(slots: &mut Vec<CacheSlot>, k: u32)
    requires { k < length slots.old.items }
    ensures { slots.new.items
        ≡ slice_set slots.old.items k (slot_flushed (cache_slot_at slots.old.items k)) }
{
    slots[k as usize].end_flush();
}

fn fill_at(slots: &mut Vec<CacheSlot>, k: u32, page: PageNo, from: &PageBuf)
    requires { k < length slots.old.items }
    ensures { slots.new.items ≡ slice_set slots.old.items k (slot_filled page.0 from.now) }
{
    slots[k as usize].fill(page, from);
}

fn insert_at(values: &mut Vec<Ways>, set: u32, way: u32)
    requires set { set < length values.old.items }
    requires way { way < length (values_at values.old.items set) }
    ensures { values.new.items ≡ slice_set values.old.items set
        (slice_set (values_at values.old.items set) way long_value) }
{
    values[set as usize].insert(way);
}

impl Cache {
    /// Lays a piece over a line, one below 64, of the slot's page, which is dirty and touched then.
    pub fn write(&mut self, slot: u32, line: u8, from: u8, piece: &Piece)
        requires slot { slot < length self.old.slots }
        requires full { is_empty (cache_slot_at self.old.slots slot) ≡ false }
        requires line { line < PAGE_LINES }
        requires span { from + length piece.now ≤ LINE_BYTES }
        ensures { self.new ≡ record self.old {
          slots = slice_set self.old.slots slot
              (slot_written (cache_slot_at self.old.slots slot) line from piece.now);
        } }
    {
        write_at(&mut self.slots, slot, line, from, piece);
    }

    /// Whether the slot's page is not to give way, from now on.
    pub fn pin(&mut self, slot: u32, on: bool)
        requires slot { slot < length self.old.slots }
        requires full { is_empty (cache_slot_at self.old.slots slot) ≡ false }
        ensures { self.new ≡ record self.old {
          slots = slice_set self.old.slots slot
              (slot_pinned on (cache_slot_at self.old.slots slot));
        } }
    {
        pin_at(&mut self.slots, slot, on);
    }

    /// The slot's bytes were programmed.
    pub fn begin_flush(&mut self, slot: u32)
        requires slot { slot < length self.old.slots }
        requires full { is_empty (cache_slot_at self.old.slots slot) ≡ false }
        ensures { self.new ≡ record self.old {
          slots = slice_set self.old.slots slot
              (slot_flushing (cache_slot_at self.old.slots slot));
        } }
    {
        begin_flush_at(&mut self.slots, slot);
    }

    /// The slot's programmed bytes were sealed: it is clean unless it was touched since.
    pub fn end_flush(&mut self, slot: u32)
        requires slot { slot < length self.old.slots }
        requires full { is_empty (cache_slot_at self.old.slots slot) ≡ false }
        ensures { self.new ≡ record self.old {
          slots = slice_set self.old.slots slot
              (slot_flushed (cache_slot_at self.old.slots slot));
        } }
    {
        end_flush_at(&mut self.slots, slot);
    }

    /// Fills a slot of the page's set, empty or clean, with the page.
    #[tactic(auto, using(crate::proofs::Put::put_sound))]
    pub fn put(&mut self, slot: u32, page: PageNo, from: &PageBuf)
        requires slot { IsInSet self.old page.0 slot }
        requires clean { (cache_slot_at self.old.slots slot).dirty ≡ false }
        requires unpinned { (cache_slot_at self.old.slots slot).pinned ≡ false }
        requires absent { held self.old.slots page.0 ≡ None }
        ensures { self.new ≡ record self.old {
          slots = slice_set self.old.slots slot (slot_filled page.0 from.now);
          values = with_value self.old slot long_value;
        } }
    {
        fill_at(&mut self.slots, slot, page, from);
        insert_at(&mut self.values, slot / self.ways, slot % self.ways);
    }
}
