// A store with room for all its pages, whose calls see to it that they may be made.
ghost use Rattle.std.specs.Prelude.{◌≡◌, ◌<◌, ◌≤◌, ◌^◌, IsTrue, None, is_some, length};
ghost use Rattle.ff_base.specs.Geometry.{IsWithinLimits, capacity_of};
ghost use Rattle.ff_flash.specs.FlashState.{HasOperationsLeft};
ghost use Rattle.ff_flash.specs.Plans.{IsPlan, planned_of};
ghost use Rattle.ff_store.specs.Pages.{HasRoomForAll, mapped_with, page_capacity};
ghost use Rattle.ff_store.specs.Remounted.{IsOfGeometry, IsRemountable};

use crate::tests::plans::{Fault, fresh_store, holds_all, plan_of};
use ff_base::{Geometry, PageBuf, PageNo};
use ff_flash::{Flash, FlashStop, Plan, SimFlash};
use ff_gc::GcStep;
use ff_store::{FlushStep, PageStore};
use std::alloc::Global;

/// What a step of a flush answers, where it may be made.
pub type Step = Option<Result<FlushStep, FlashStop>>;

#[derive(Drop)]
pub struct StoreRig {
    geometry: Geometry,
    store: PageStore<SimFlash>,
    ghost room: { HasRoomForAll store.world },
    ghost sizes: { IsOfGeometry geometry store.world },
}

#[tactic(auto, using(ff_store::proofs::Rooms::none_waits))]
fn may_begin(store: &PageStore<SimFlash>) -> bool
    ensures life { IsTrue result → HasOperationsLeft store.now.world.flash }
    ensures none { IsTrue result → store.now.waits ≡ None }
{
    store.flash().operation_count() < 1 << 63 && store.pending().is_none()
}

#[tactic(auto, using(ff_store::proofs::Rooms::some_waits))]
fn may_seal(store: &PageStore<SimFlash>) -> bool
    ensures life { IsTrue result → HasOperationsLeft store.now.world.flash }
    ensures waits { IsTrue result → IsTrue (is_some store.now.waits) }
{
    store.flash().operation_count() < 1 << 63 && store.pending().is_some()
}

#[tactic(auto, using(ff_store::proofs::Rooms::room_for, ff_store::proofs::Rooms::room_after, ff_store::proofs::Rooms::sizes_after))]
impl StoreRig {
    pub fn new(alloc: Global, geometry: &Geometry, fault: Fault) -> Option<StoreRig> {
        if !holds_all(geometry) {
            return None;
        }
        match plan_of(alloc, fault) {
            Ok(plan) => StoreRig::over(alloc, geometry, plan),
            Err(_) => None,
        }
    }

    fn over(alloc: Global, geometry: &Geometry, plan: Plan) -> Option<StoreRig>
        requires geometry { IsWithinLimits geometry.now }
        requires room { geometry.now.pages ≤ capacity_of geometry.now }
        requires plan { IsPlan (planned_of plan) }
    {
        let store = fresh_store(alloc, geometry, plan)?;
        Some(StoreRig {
            geometry: *geometry,
            store,
        })
    }

    pub fn store(&self) -> &PageStore<SimFlash> {
        &self.store
    }

    pub fn fetch(&mut self, page: u32, into: &mut PageBuf) -> Option<Result<(), FlashStop>> {
        if self.store.flash().operation_count() >= 1 << 63 {
            return None;
        }
        Some(self.store.fetch(PageNo(page), into))
    }

    pub fn flush_step(&mut self, page: u32, from: &PageBuf) -> Step {
        if !may_begin(&self.store) || !has_room(self, PageNo(page)) {
            return None;
        }
        Some(self.store.flush_step(PageNo(page), from))
    }

    pub fn seal_step(&mut self) -> Step {
        if !may_seal(&self.store) {
            return None;
        }
        Some(self.store.seal_step())
    }

    /// Makes the steps of a flush until it ends.
    pub fn flush(&mut self, page: u32, from: &PageBuf) -> Step {
        for _ in 0..16 {
            match self.flush_step(page, from) {
                Some(Ok(FlushStep::Collected)) => {}
                Some(Ok(FlushStep::Programmed)) => return self.seal_step(),
                other => return other,
            }
        }
        None
    }

    pub fn collect_step(&mut self) -> Option<Result<GcStep, FlashStop>> {
        if !may_begin(&self.store) {
            return None;
        }
        Some(self.store.collect_step())
    }

    pub fn power_off(&mut self) {
        self.store.power_off();
    }

    /// The rig over what a power loss leaves.
    pub fn remount(self, alloc: Global) -> Option<StoreRig> {
        let StoreRig { geometry, store } = self;
        mounted(alloc, left(store, &geometry), &geometry)
    }

    pub fn into_store(self) -> PageStore<SimFlash> {
        self.store
    }
}

// The flash that a power loss leaves of a store.
fn left(store: PageStore<SimFlash>, geometry: &Geometry) -> SimFlash
    requires { IsOfGeometry geometry.now store.world }
    ensures { IsRemountable geometry.now result }
{
    store.known();
    store.into_flash()
}

fn mounted(alloc: Global, flash: SimFlash, geometry: &Geometry) -> Option<StoreRig>
    requires { IsRemountable geometry.now flash }
{
    if !holds_all(geometry) || flash.operation_count() > 1 << 62 {
        return None;
    }
    over_remounted(alloc, flash, geometry)
}

#[tactic(auto, using(ff_store::proofs::Rooms::room_of, ff_store::proofs::Remounting::remounted_sizes))]
fn over_remounted(alloc: Global, flash: SimFlash, geometry: &Geometry) -> Option<StoreRig>
    requires geometry { IsWithinLimits geometry.now }
    requires room { geometry.now.pages ≤ capacity_of geometry.now }
    requires sound { IsRemountable geometry.now flash }
    requires life { flash.operations ≤ 2 ^ 62 }
{
    match PageStore::remount(alloc, flash, geometry) {
        Ok(store) => Some(StoreRig {
            geometry: *geometry,
            store,
        }),
        Err(_) => None,
    }
}

#[tactic(auto, using(ff_store::proofs::Rooms::room_for))]
fn has_room(rig: &StoreRig, page: PageNo) -> bool
    ensures page { IsTrue result → page.0 < length rig.now.store.world.places.pages }
    ensures room { IsTrue result
        → mapped_with rig.now.store.world.places page ≤ page_capacity rig.now.store.world }
{
    page.0 < rig.store.pages()
}
