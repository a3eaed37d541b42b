// A cache's slots, found by their page's set, and what they hold.
ghost use Rattle.std.specs.Prelude.{◌≡◌, ◌<◌, ◌≤◌, ◌+◌, IfSome, length, MatchOption};
ghost use Rattle.std.specs.Option.{is_none};
ghost use Rattle.ff_base.specs.declared.numbers.TheConstants.{PAGE_LINES};
ghost use Rattle.ff_base.specs.Page.{line_of};
ghost use Rattle.ff_cache.specs.Cache.{first_of, is_full_set, IsCacheSound, IsEmptyWay, IsSlotOf};
ghost use Rattle.ff_cache.specs.Slots.{held, holds, is_empty, cache_slot_at, IsFirstThat, NonePasses};

mod changes;
mod fresh;
pub mod nv;
mod replacement;

use crate::CacheSlot;
use ff_base::{LINE_BYTES, PageBuf, PageNo};
use ff_rrip::Ways;
use std::marker::Model;

/// Sets of ways, each a slot for a page of the set. Page p belongs to set `p % sets`. A contract sees the slots as a
/// list, the ways of each set one after another.
#[derive(Drop)]
pub struct Cache {
    slots: Vec<CacheSlot>,
    values: Vec<Ways>,
    sets: u32,
    ways: u32,
}

impl Model for Cache {
    ghost use Rattle.ff_cache.specs.Cache.{CacheView};

    ghost Value = { CacheView };

    ghost use Rattle.ff_cache.specs.CacheFields.{view_of, IsKept};

    ghost view = { view_of };

    ghost invariant = { IsKept };
}

fn first_held(slots: &[CacheSlot], from: u32, to: u32, page: PageNo) -> Option<u32>
    requires { to ≤ length slots.now }
    ensures { MatchOption result
        (NonePasses (λ slot. holds slot page.0) slots.now from to)
        (IsFirstThat (λ slot. holds slot page.0) slots.now from to) }
{
    for k in from..to {
        if slots[k as usize].holds(page) {
            return Some(k);
        }
    }
    None
}

fn first_empty(slots: &[CacheSlot], from: u32, to: u32) -> Option<u32>
    requires { to ≤ length slots.now }
    ensures { MatchOption result
        (NonePasses is_empty slots.now from to)
        (IsFirstThat is_empty slots.now from to) }
{
    for k in from..to {
        if slots[k as usize].is_empty() {
            return Some(k);
        }
    }
    None
}

impl Cache {
    /// What every cache keeps. For the prover alone.
    pub fn known(&self)
        ensures { IsCacheSound self.now }
    {
        let _ = &self.ways;
    }

    /// How many ways a set has.
    pub fn ways(&self) -> u32
        ensures ways { result ≡ self.now.ways }
        ensures few { result ≤ 16 }
    {
        self.ways
    }

    /// The slot of way 0 of the page's set. The set's other ways are the slots after it.
    pub fn first_slot(&self, page: PageNo) -> u32
        ensures slot { result ≡ first_of self.now page.0 }
        ensures within { result + self.now.ways ≤ length self.now.slots }
        ensures size { length self.now.slots ≤ 4096 }
    {
        (page.0 % self.sets) * self.ways
    }

    /// The slot that holds the page.
    #[tactic(auto, using(crate::proofs::Sets::find_told))]
    pub fn find(&self, page: PageNo) -> Option<u32>
        ensures { MatchOption result (held self.now.slots page.0
            ≡ None) (IsSlotOf self.now page.0) }
    {
        let first = self.first_slot(page);
        first_held(&self.slots, first, first + self.ways, page)
    }

    /// The first slot of the page's set that is empty.
    #[tactic(auto, using(crate::proofs::Full::full_told, crate::proofs::Full::least_told))]
    pub fn empty_way(&self, page: PageNo) -> Option<u32>
        ensures full { is_none result ≡ is_full_set self.now page.0 }
        ensures least { IfSome result (IsEmptyWay self.now page.0) }
    {
        let first = self.first_slot(page);
        first_empty(&self.slots, first, first + self.ways)
    }

    /// The 64 bytes of a line, one below 64, of the slot's page.
    pub fn line(&self, slot: u32, line: u8) -> [u8; LINE_BYTES]
        requires slot { slot < length self.now.slots }
        requires line { line < PAGE_LINES }
        ensures { result ≡ line_of (cache_slot_at self.now.slots slot).bytes line }
    {
        self.slots[slot as usize].bytes.line(line)
    }

    /// Copies the slot's bytes.
    pub fn copy_out(&self, slot: u32, into: &mut PageBuf)
        requires { slot < length self.now.slots }
        ensures { into.new ≡ (cache_slot_at self.now.slots slot).bytes }
    {
        into.copy_from(self.slots[slot as usize].bytes.as_slice());
    }

    pub fn is_dirty(&self, slot: u32) -> bool
        requires { slot < length self.now.slots }
        ensures { result ≡ (cache_slot_at self.now.slots slot).dirty }
    {
        self.slots[slot as usize].dirty
    }

    pub fn is_pinned(&self, slot: u32) -> bool
        requires { slot < length self.now.slots }
        ensures { result ≡ (cache_slot_at self.now.slots slot).pinned }
    {
        self.slots[slot as usize].pinned
    }

    pub fn page(&self, slot: u32) -> Option<PageNo>
        requires { slot < length self.now.slots }
        ensures { result ≡ (cache_slot_at self.now.slots slot).page }
    {
        self.slots[slot as usize].page
    }
}
