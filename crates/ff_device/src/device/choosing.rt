// The way that gives way.
ghost use Rattle.std.specs.Prelude.{◌≡◌, ◌<◌, ◌==◌, ◌+◌, ℕ, None, Some, IfNone, true, false, length, MatchOption, if◌then◌else◌};
ghost use Rattle.ff_cache.specs.Cache.{is_full_set, way_at};
ghost use Rattle.ff_cache.specs.Slots.{cache_slot_at};
ghost use Rattle.ff_device.specs.Device.{parts_of};
ghost use Rattle.ff_device.specs.Steps.{chosen_way, may_go, may_go_at};
ghost use Rattle.ff_device.specs.WorkRows.{HasUnpinned, IsRaised};
ghost use Rattle.ff_rrip.specs.Ways.{is_allowed};

use super::slots::choose_way;
use crate::Device;
use ff_base::PageNo;
use ff_flash::Flash;

// The mask with a bit set for a way that may give way.
#[tactic(auto, using(crate::proofs::Masks::allowed_with))]
fn with_way(mask: u32, way: u32, may: bool) -> u32
    requires way { way < 32 }
    requires clear { is_allowed mask way ≡ false }
    ensures { (other : ℕ) → is_allowed result other
        ≡ (if other == way then may else is_allowed mask other) }
{
    if may { mask | 1 << way } else { mask }
}

impl<F: Flash> Device<F> {
    // Whether a slot may give way.
    fn may_go(&self, slot: u32) -> bool
        requires { slot < length self.now.cache.slots }
        ensures { result ≡ may_go self.now.window.posts (cache_slot_at self.now.cache.slots slot) }
    {
        if self.cache.is_pinned(slot) {
            return false;
        }
        match self.cache.page(slot) {
            Some(page) => !self.window.waits(page),
            None => true,
        }
    }

    // Whether a way of the page's set may give way.
    fn may_go_way(&self, page: PageNo, way: u32) -> bool
        requires { way < self.now.cache.ways }
        ensures { result ≡ may_go_at (parts_of self.now) page.0 way }
    {
        self.may_go(self.cache.first_slot(page) + way)
    }

    // Which ways of the page's set may give way: way w is bit w.
    fn allowed(&self, page: PageNo) -> u32
        ensures { (way : ℕ) → way < self.now.cache.ways
            → is_allowed result way ≡ may_go_at (parts_of self.now) page.0 way }
    {
        let mut mask = 0;
        for way in 0..self.cache.ways() {
            mask = with_way(mask, way, self.may_go_way(page, way));
        }
        mask
    }

    // The slot of the page's set that gives way, for which the values may be raised.
    pub(super) fn choose(&mut self, page: PageNo) -> Option<u32>
        ensures told { MatchOption result
            (chosen_way (parts_of self.old) page.0 ≡ None)
            (λ slot. IsRaised page.0 slot (parts_of self.old) (parts_of self.new)) }
        ensures kept { IfNone result (self.new.cache ≡ self.old.cache) }
        ensures same { self.new ≡ record self.old {
          cache = record self.old.cache { values = self.new.cache.values };
        } }
    {
        self.cache.known();
        let allowed = self.allowed(page);
        choose_way(&mut self.cache, page, allowed)
    }

    // Whether a way of the page's set isn't pinned.
    pub(super) fn has_unpinned(&self, page: PageNo) -> bool
        ensures some { result ≡ true → HasUnpinned page.0 (parts_of self.now) }
        ensures none { result ≡ false → (way : ℕ) → way < self.now.cache.ways
            → (way_at self.now.cache page.0 way).pinned ≡ true }
    {
        let first = self.cache.first_slot(page);
        for way in 0..self.cache.ways() {
            if !self.cache.is_pinned(first + way) {
                return true;
            }
        }
        false
    }

    // The page in a way of a full set.
    #[tactic(auto, using(crate::proofs::Frames::full_page))]
    pub(super) fn page_of_way(&self, page: PageNo, way: u32) -> PageNo
        requires full { is_full_set self.now.cache page.0 ≡ true }
        requires way { way < self.now.cache.ways }
        ensures { (way_at self.now.cache page.0 way).page ≡ Some result }
    {
        match self.cache.page(self.cache.first_slot(page) + way) {
            Some(named) => named,
            None => unreachable!(),
        }
    }
}
