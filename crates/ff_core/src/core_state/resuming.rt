// How a later session begins.
ghost use Rattle.std.specs.Prelude.{◌≡◌, MatchResult};
ghost use Rattle.ff_base.specs.Geometry.{IsWithinLimits};
ghost use Rattle.ff_cache.specs.Cache.{IsCacheSound};
ghost use Rattle.ff_mount.specs.Held.{held_content, nv_of};
ghost use Rattle.ff_store.specs.PageStore.{IsStoreSound};
ghost use Rattle.ff_store.specs.Recoverable.{IsRecoverable};
ghost use Rattle.ff_core.specs.Resume.{CanResume, resumed_core};

use super::{Core, Room};
use crate::resume::{ResumeBack, resumed_state};
use ff_base::Geometry;
use ff_evict::{Pick, Picker};
use ff_flash::Flash;
use ff_model::Image;
use ff_mount::Mounted;
use ff_policy::{Tune, Tuner};
use std::alloc::Global;

impl<F: Flash, T: Tune, E: Pick> Core<F, T, E> {
    /// A later session, over mounted parts and their image, from an event number on. The image is copied, and each page
    /// that it holds counts as stored. The error is want of memory, and hands the arguments back.
    pub fn resume(
        alloc: Global,
        mounted: Mounted<F>,
        base: &Image,
        geometry: Geometry,
        tuner: Tuner<T>,
        picker: Picker<E>,
        room: Room,
        from_event: u64,
    ) -> Result<Core<F, T, E>, ResumeBack<F, T, E>>
        requires limits { IsWithinLimits geometry }
        requires parts { CanResume geometry mounted.store mounted.cache mounted.marks from_event }
        requires base { base.now ≡ held_content geometry.pages
            (nv_of mounted.cache mounted.marks) mounted.store.world.flash.cells }
        ensures { MatchResult result
            (λ core. core ≡ resumed_core mounted.store mounted.cache mounted.marks base.now
            geometry tuner picker room from_event)
            (λ back. back ≡ record { mounted = mounted; tuner = tuner; picker = picker }) }
    {
        room.known();
        parts_known(&mounted);
        match resumed_state(
            alloc, mounted, base, geometry, tuner, picker, room, from_event,
        ) {
            Ok(state) => Ok(Core { state }),
            Err(back) => Err(back),
        }
    }
}

// What the store and the cache of all mounted parts keep. For the prover alone.
fn parts_known<F: Flash>(mounted: &Mounted<F>)
    ensures store { IsStoreSound mounted.now.store }
    ensures recoverable { IsRecoverable mounted.now.store }
    ensures cache { IsCacheSound mounted.now.cache }
{
    mounted.store.known();
    mounted.cache.known();
}
