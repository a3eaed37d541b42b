// The steps of the store, as the device sees them.
ghost use Rattle.std.specs.Prelude.{◌≡◌, ◌<◌, ◌≤◌, OnOk, IsSome, None, false, length};
ghost use Rattle.ff_base.specs.Count.{HasCountLeft};
ghost use Rattle.ff_flash.specs.Injected.{stop_of};
ghost use Rattle.ff_lines.specs.PageSets.{count_below, with_page};
ghost use Rattle.ff_map.specs.PageMap.{IsPageMapSound};
ghost use Rattle.ff_space.specs.BlockTable.{IsBlockTableSound};
ghost use Rattle.ff_store.specs.PageStore.{IsStoreSound};
ghost use Rattle.ff_device.specs.StoreState.{is_stored, seen_of, stored_bytes, IsStoreStateSound};
ghost use Rattle.ff_device.specs.StoreSteps.{CallsOnce, MakesFlushStep, SealsFlush};

use ff_base::{PageBuf, PageNo};
use ff_flash::{Flash, FlashStop};
use ff_store::{FlushStep, PageStore};

// What every store keeps. For the prover alone.
#[tactic(auto, using(crate::proofs::SeenPages::store_seen))]
pub fn store_known<F: Flash>(store: &PageStore<F>)
    ensures seen { IsStoreStateSound (seen_of store.now) }
    ensures store { IsStoreSound store.now }
    ensures table { IsBlockTableSound store.now.world.table }
    ensures map { IsPageMapSound store.now.world.places }
{
    store.known();
}

// Reads a page. One that isn't mapped is zeros.
#[tactic(auto, using(crate::proofs::SeenSteps::fetched_bytes, crate::proofs::SeenSteps::fetched_same, crate::proofs::SeenSteps::fetched_unmapped))]
pub fn fetch<F: Flash>(
    store: &mut PageStore<F>,
    page: PageNo,
    into: &mut PageBuf,
) -> Result<(), FlashStop>
    requires used { HasCountLeft (seen_of store.old).used }
    ensures bytes { OnOk result (into.new ≡ stored_bytes (seen_of store.old) page.0) }
    ensures pages { (seen_of store.new).pages ≡ (seen_of store.old).pages }
    ensures pending { (seen_of store.new).pending ≡ (seen_of store.old).pending }
    ensures unmapped { is_stored (seen_of store.old) page.0 ≡ false → store.new ≡ store.old }
    ensures calls { CallsOnce store.old (stop_of result) store.new }
{
    store.fetch(page, into)
}

// Makes one step of the flush of a page, while none is to be sealed.
pub fn flush_step<F: Flash>(
    store: &mut PageStore<F>,
    page: PageNo,
    from: &PageBuf,
) -> Result<FlushStep, FlashStop>
    requires page { page.0 < length (seen_of store.old).pages }
    requires idle { (seen_of store.old).pending ≡ None }
    requires room { count_below (with_page page.0 (is_stored (seen_of store.old)))
        (length (seen_of store.old).pages) ≤ (seen_of store.old).capacity }
    requires used { HasCountLeft (seen_of store.old).used }
    ensures step { MakesFlushStep page.0 from.now result (seen_of store.old) (seen_of store.new) }
    ensures pages { (seen_of store.new).pages ≡ (seen_of store.old).pages }
    ensures calls { CallsOnce store.old (stop_of result) store.new }
{
    store.flush_step(page, from)
}

// Seals the flush that waits. One that fails ends it.
#[tactic(auto, using(crate::proofs::SeenSteps::pending_is, crate::proofs::SeenSeals::sealed_seen))]
pub fn seal_step<F: Flash>(store: &mut PageStore<F>) -> Result<FlushStep, FlashStop>
    requires pending { IsSome (seen_of store.old).pending }
    requires used { HasCountLeft (seen_of store.old).used }
    ensures step { SealsFlush result (seen_of store.old) (seen_of store.new) }
    ensures calls { CallsOnce store.old (stop_of result) store.new }
{
    store.known();
    store.seal_step()
}
