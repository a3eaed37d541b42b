// A step of work for a page: the first of its rows that applies.
ghost use Rattle.std.specs.Prelude.{◌≡◌, ◌<◌, None, true, false, length};
ghost use Rattle.std.specs.Option.{is_some};
ghost use Rattle.ff_base.specs.Count.{HasCountLeft};
ghost use Rattle.ff_cache.specs.Cache.{is_full_set, IsCacheSound, IsInSet};
ghost use Rattle.ff_cache.specs.Slots.{held, cache_slot_at};
ghost use Rattle.ff_space.specs.BlockTable.{IsBlockTableSound};
ghost use Rattle.ff_store.specs.PageStore.{IsStoreSound};
ghost use Rattle.ff_device.specs.Device.{lines_in, parts_of};
ghost use Rattle.ff_device.specs.Parts.{IsDeviceSound};
ghost use Rattle.ff_device.specs.Steps.{may_go};
ghost use Rattle.ff_device.specs.StoreState.{seen_of, IsStoreStateSound};
ghost use Rattle.ff_device.specs.StoreSteps.{CallsOnce};
ghost use Rattle.ff_device.specs.WorkRows.{FetchRow, FlushRow, IsWorkStep, NoWayRow, stop_of_work};
ghost use Rattle.ff_lines.specs.Works.{IsIdle, KeepsLines, Works};

use crate::Device;
use crate::store_steps::store_known;
use ff_base::PageNo;
use ff_flash::Flash;
use ff_lines::Work;

impl<F: Flash> Device<F> {
    #[tactic(auto, using(crate::proofs::StoreCalls::still_calls))]
    // Where no way of the page's set may give way: drains the window, or tells which page keeps the set.
    fn make_way(&mut self, page: PageNo) -> Work
        requires full { is_full_set self.old.cache page.0 ≡ true }
        ensures row { NoWayRow page.0 result (parts_of self.old) (parts_of self.new) }
        ensures store { self.new.store ≡ self.old.store }
        ensures idle { IsIdle result → self.new ≡ self.old }
        ensures calls { CallsOnce self.old.store (stop_of_work result) self.new.store }
    {
        self.cache.known();
        if self.has_unpinned(page) {
            self.drain_window();
            Work::Stepped
        } else {
            Work::Pinned(self.page_of_way(page, 0))
        }
    }

    // Fetches the page in the place of the chosen slot, or flushes that first.
    fn clear(&mut self, page: PageNo, slot: u32) -> Work
        requires page { page.0 < length (seen_of self.old.store).pages }
        requires used { HasCountLeft (seen_of self.old.store).used }
        requires idle { (seen_of self.old.store).pending ≡ None }
        requires absent { held self.old.cache.slots page.0 ≡ None }
        requires in_set { IsInSet self.old.cache page.0 slot }
        requires goes { may_go self.old.window.posts (cache_slot_at self.old.cache.slots slot)
            ≡ true }
        ensures flushes { (cache_slot_at self.old.cache.slots slot).dirty ≡ true
            → FlushRow slot result (parts_of self.old) (parts_of self.new) }
        ensures fetches { (cache_slot_at self.old.cache.slots slot).dirty ≡ false
            → FetchRow page.0 slot result (parts_of self.old) (parts_of self.new) }
        ensures calls { CallsOnce self.old.store (stop_of_work result) self.new.store }
        ensures busy { IsIdle result → ⊥ }
    {
        if self.cache.is_dirty(slot) {
            self.flush(slot)
        } else {
            self.fetch_into(page, slot)
        }
    }

    // A step where the page's set is full.
    fn replace(&mut self, page: PageNo) -> Work
        requires page { page.0 < length (seen_of self.old.store).pages }
        requires used { HasCountLeft (seen_of self.old.store).used }
        requires idle { (seen_of self.old.store).pending ≡ None }
        requires absent { held self.old.cache.slots page.0 ≡ None }
        requires full { is_full_set self.old.cache page.0 ≡ true }
        ensures row { IsWorkStep page.0 (parts_of self.old) result (parts_of self.new) }
        ensures calls { CallsOnce self.old.store (stop_of_work result) self.new.store }
        ensures idle { IsIdle result → self.new ≡ self.old }
    {
        self.cache.known();
        match self.choose(page) {
            Some(slot) => self.clear(page, slot),
            None => self.make_way(page),
        }
    }

    // A step while no flush waits.
    #[tactic(auto, using(crate::proofs::Working::empty_goes))]
    fn fill(&mut self, page: PageNo) -> Work
        requires page { page.0 < length (seen_of self.old.store).pages }
        requires used { HasCountLeft (seen_of self.old.store).used }
        requires idle { (seen_of self.old.store).pending ≡ None }
        requires absent { held self.old.cache.slots page.0 ≡ None }
        ensures row { IsWorkStep page.0 (parts_of self.old) result (parts_of self.new) }
        ensures calls { CallsOnce self.old.store (stop_of_work result) self.new.store }
        ensures idle { IsIdle result → self.new ≡ self.old }
    {
        self.cache.known();
        match self.cache.empty_way(page) {
            Some(slot) => self.fetch_into(page, slot),
            None => self.replace(page),
        }
    }

    /// Whether a flush is to be sealed.
    pub fn is_pending(&self) -> bool
        ensures { result ≡ is_some self.now.store.waits }
    {
        self.store.pending().is_some()
    }

    pub(super) fn is_on(&self) -> bool
        ensures { result ≡ self.now.store.world.flash.on }
    {
        self.store.flash().is_on()
    }

    #[tactic(auto, using(crate::proofs::Working::pending_none))]
    fn step(&mut self, page: PageNo) -> Work
        requires page { page.0 < length (seen_of self.old.store).pages }
        requires used { HasCountLeft (seen_of self.old.store).used }
        requires absent { held self.old.cache.slots page.0 ≡ None }
        ensures row { IsWorkStep page.0 (parts_of self.old) result (parts_of self.new) }
        ensures calls { CallsOnce self.old.store (stop_of_work result) self.new.store }
        ensures idle { IsIdle result → self.new ≡ self.old }
    {
        if self.is_pending() {
            self.seal()
        } else {
            self.fill(page)
        }
    }

    // What every device keeps, and its parts as they are seen. For the prover alone.
    pub(super) fn parts_known(&self)
        ensures device { IsDeviceSound (parts_of self.now) }
        ensures cache { IsCacheSound self.now.cache }
        ensures seen { IsStoreStateSound (seen_of self.now.store) }
        ensures store { IsStoreSound self.now.store }
        ensures table { IsBlockTableSound self.now.store.world.table }
    {
        self.cache.known();
        store_known(&self.store);
    }

    // A step for a page that isn't resident, with the power on.
    #[tactic(auto, using(crate::proofs::Working::absent_of))]
    pub(super) fn work_for(&mut self, page: PageNo) -> Work
        requires page { page.0 < length (seen_of self.old.store).pages }
        requires used { HasCountLeft (seen_of self.old.store).used }
        requires absent { (lines_in self.old).resident page.0 ≡ false }
        requires on { (seen_of self.old.store).on ≡ true }
        ensures row { IsWorkStep page.0 (parts_of self.old) result (parts_of self.new) }
        ensures calls { CallsOnce self.old.store (stop_of_work result) self.new.store }
        ensures answer { Works page.0 result (lines_in self.old) (lines_in self.new) }
        ensures kept { KeepsLines (lines_in self.old) (lines_in self.new) }
        ensures idle { IsIdle result → self.new ≡ self.old }
    {
        self.parts_known();
        let answer = self.step(page);
        self.parts_known();
        answer
    }
}
