// One page of an image: the cached bytes, or else those of the store.
ghost use Rattle.std.specs.Prelude.{◌≡◌, ◌||◌, ◌<◌, IfErr, IfOk, length, true};
ghost use Rattle.ff_cache.specs.Cache.{IsSlotOf};
ghost use Rattle.ff_cache.specs.Nv.{ways_of};
ghost use Rattle.ff_gc.specs.World.{page_bytes};
ghost use Rattle.ff_model.specs.Image.{with_held};
ghost use Rattle.ff_mount.specs.Filled.{stored_page, stored_reads, with_found};
ghost use Rattle.ff_mount.specs.Held.{image_page, page_reads};
ghost use Rattle.ff_mount.specs.Reading.{CanRead, GoesAsTold, Reads};
ghost use Rattle.ff_mount.specs.declared.stop.MountStop.TheVariants.{NoMemory};
ghost use Rattle.ff_store.specs.Pages.{is_mapped};

use crate::stop::{MountStop, stop_of};
use ff_base::{PageBuf, PageNo};
use ff_cache::Cache;
use ff_flash::Flash;
use ff_model::Image;
use ff_store::PageStore;

fn hold(image: &mut Image, page: PageNo, from: &PageBuf) -> Result<(), MountStop>
    requires { page.0 < length image.old.pages }
    ensures ok { IfOk result (λ _. image.new ≡ with_held image.old page.0 from.now) }
    ensures err { IfErr result (λ stop. stop ≡ NoMemory) }
{
    match image.put(page, from) {
        Ok(()) => Ok(()),
        Err(_) => Err(MountStop::NoMemory),
    }
}

// Reads a mapped page.
fn read_page<F: Flash>(
    store: &mut PageStore<F>,
    page: PageNo,
    into: &mut PageBuf,
) -> Result<(), MountStop>
    requires ready { CanRead 1 store.old }
    requires mapped { is_mapped store.old.world.places page ≡ true }
    ensures reads { Reads store.old 1 result store.new }
    ensures bytes { IfOk result (λ _. into.new ≡ page_bytes store.old.world page) }
    ensures planned { GoesAsTold store.old.world.flash 1 result }
{
    match store.fetch(page, into) {
        Ok(()) => Ok(()),
        Err(stop) => Err(stop_of(stop)),
    }
}

fn put_read<F: Flash>(
    store: &mut PageStore<F>,
    page: PageNo,
    image: &mut Image,
    buffer: &mut PageBuf,
) -> Result<(), MountStop>
    requires ready { CanRead 1 store.old }
    requires mapped { is_mapped store.old.world.places page ≡ true }
    requires page { page.0 < length image.old.pages }
    ensures ok { IfOk result (λ _.
        image.new ≡ with_held image.old page.0 (page_bytes store.old.world page)) }
    ensures reads { Reads store.old 1 result store.new }
    ensures planned { GoesAsTold store.old.world.flash 1 result }
{
    match read_page(store, page, buffer) {
        Ok(()) => hold(image, page, buffer),
        Err(stop) => Err(stop),
    }
}

// Puts a page into an image as the store has it.
fn put_stored<F: Flash>(
    store: &mut PageStore<F>,
    page: PageNo,
    image: &mut Image,
    buffer: &mut PageBuf,
) -> Result<(), MountStop>
    requires ready { CanRead 1 store.old }
    requires page { page.0 < length image.old.pages }
    ensures ok { IfOk result (λ _.
        image.new ≡ with_found image.old page.0 (stored_page store.old.world page)) }
    ensures reads { Reads store.old (stored_reads store.old.world page) result store.new }
    ensures planned { GoesAsTold store.old.world.flash (stored_reads store.old.world page) result }
{
    if store.is_mapped(page) {
        put_read(store, page, image, buffer)
    } else {
        Ok(())
    }
}

fn either(one: bool, other: bool) -> bool
    ensures { result ≡ (one || other) }
{
    one || other
}

// Puts a cached page into an image, where it is held.
fn put_cached<F: Flash>(
    store: &PageStore<F>,
    cache: &Cache,
    slot: u32,
    page: PageNo,
    image: &mut Image,
    buffer: &mut PageBuf,
) -> Result<(), MountStop>
    requires ready { CanRead 1 store.now }
    requires slot { IsSlotOf cache.now page.0 slot }
    requires page { page.0 < length image.old.pages }
    ensures ok { IfOk result (λ _. image.new ≡ with_found image.old page.0
        (image_page (ways_of cache.now.slots) store.now.world.flash.cells page.0)) }
    ensures err { IfErr result (λ stop. stop ≡ NoMemory) }
{
    store.known();
    if either(cache.is_dirty(slot), store.is_mapped(page)) {
        cache.copy_out(slot, buffer);
        hold(image, page, buffer)
    } else {
        Ok(())
    }
}

// Puts a page into an image, where it is held.
pub(crate) fn put_page<F: Flash>(
    store: &mut PageStore<F>,
    cache: &Cache,
    page: PageNo,
    image: &mut Image,
    buffer: &mut PageBuf,
) -> Result<(), MountStop>
    requires ready { CanRead 1 store.old }
    requires page { page.0 < length image.old.pages }
    ensures ok { IfOk result (λ _. image.new ≡ with_found image.old page.0
        (image_page (ways_of cache.now.slots) store.old.world.flash.cells page.0)) }
    ensures reads { Reads store.old
        (page_reads (ways_of cache.now.slots) store.old.world.flash.cells page.0) result
        store.new }
    ensures planned { GoesAsTold store.old.world.flash
        (page_reads (ways_of cache.now.slots) store.old.world.flash.cells page.0) result }
{
    store.known();
    match cache.find(page) {
        Some(slot) => put_cached(store, cache, slot, page, image, buffer),
        None => put_stored(store, page, image, buffer),
    }
}
