// The image of mounted parts.
ghost use Rattle.std.specs.Prelude.{◌≡◌, ◌+◌, ◌≤◌, ◌^◌, true, length, replicate, IfOk, IfErr, None};
ghost use Rattle.ff_base.specs.Geometry.{IsWithinLimits};
ghost use Rattle.ff_cache.specs.Nv.{ways_of};
ghost use Rattle.ff_model.specs.Image.{empty_content};
ghost use Rattle.ff_mount.specs.Held.{held_content, image_reads, nv_of};
ghost use Rattle.ff_mount.specs.Reading.{CanRead, GoesAsTold, Reads};
ghost use Rattle.ff_mount.specs.declared.stop.MountStop.TheVariants.{NoMemory};

use crate::page::put_page;
use crate::stop::MountStop;
use ff_base::{Geometry, Marks, PageBuf, PageNo};
use ff_cache::Cache;
use ff_flash::Flash;
use ff_model::Image;
use ff_store::PageStore;
use std::alloc::Global;

/// A store, a cache and the persist marks after a mount.
#[derive(Drop)]
pub struct Mounted<F: Flash> {
    pub store: PageStore<F>,
    pub cache: Cache,
    pub marks: Marks,
}

fn set_marks(image: &mut Image, marks: &Marks, pages: u32)
    requires marks { length marks.now ≡ pages }
    requires size { length image.old.marks ≡ pages }
    requires pages { length image.old.pages ≡ pages }
    ensures { image.new ≡ record image.old { marks = marks.now } }
{
    for page in 0..pages {
        let page = PageNo(page);
        image.set_marks(page, marks.lines(page));
    }
}

// An image that holds no page, with these marks.
fn marked_image(alloc: Global, marks: &Marks, pages: u32) -> Result<Image, MountStop>
    requires { length marks.now ≡ pages }
    ensures ok { IfOk result (λ image. image ≡ record (empty_content pages) { marks = marks.now }) }
    ensures err { IfErr result (λ stop. stop ≡ NoMemory) }
{
    match Image::new(alloc, pages) {
        Ok(mut image) => {
            set_marks(&mut image, marks, pages);
            Ok(image)
        }
        Err(_) => Err(MountStop::NoMemory),
    }
}

// Puts the held pages into an image that holds none.
fn put_all<F: Flash>(
    store: &mut PageStore<F>,
    cache: &Cache,
    pages: u32,
    image: &mut Image,
    buffer: &mut PageBuf,
) -> Result<(), MountStop>
    requires ready { CanRead pages store.old }
    requires blank { image.old.pages ≡ replicate pages None }
    ensures pages { IfOk result (λ _. image.new ≡ held_content pages
        (nv_of cache.now image.old.marks) store.old.world.flash.cells) }
    ensures reads { Reads store.old
        (image_reads pages (ways_of cache.now.slots) store.old.world.flash.cells) result
        store.new }
    ensures planned { GoesAsTold store.old.world.flash
        (image_reads pages (ways_of cache.now.slots) store.old.world.flash.cells) result }
{
    for page in 0..pages {
        match put_page(store, cache, PageNo(page), image, buffer) {
            Ok(()) => {}
            Err(stop) => return Err(stop),
        }
    }
    Ok(())
}

/// The image of mounted parts: exactly what the battery and the flash hold together. It takes one read of the flash for
/// each page that is held and not cached, in rising order, and changes no cell.
pub fn image_of<F: Flash>(
    alloc: Global,
    mounted: &mut Mounted<F>,
    geometry: &Geometry,
) -> Result<Image, MountStop>
    requires geometry { IsWithinLimits geometry.now }
    requires marks { length mounted.old.marks ≡ geometry.now.pages }
    requires on { mounted.old.store.world.flash.on ≡ true }
    requires none { mounted.old.store.waits ≡ None }
    requires life { mounted.old.store.world.flash.operations ≤ 2 ^ 62 + 2 ^ 14 }
    ensures image { IfOk result (λ image. image ≡ held_content geometry.now.pages
        (nv_of mounted.old.cache mounted.old.marks) mounted.old.store.world.flash.cells) }
    ensures reads { Reads mounted.old.store (image_reads geometry.now.pages
        (ways_of mounted.old.cache.slots) mounted.old.store.world.flash.cells) result
        mounted.new.store }
    ensures planned { GoesAsTold mounted.old.store.world.flash (image_reads geometry.now.pages
        (ways_of mounted.old.cache.slots) mounted.old.store.world.flash.cells) result }
    ensures kept { mounted.new ≡ record mounted.old { store = mounted.new.store } }
{
    let _sound = mounted.store.flash().fault_count();
    let mut image = marked_image(alloc, &mounted.marks, geometry.pages)?;
    let Ok(mut buffer) = PageBuf::new(alloc) else {
        drop(image);
        return Err(MountStop::NoMemory);
    };
    let read = put_all(
        &mut mounted.store,
        &mounted.cache,
        geometry.pages,
        &mut image,
        &mut buffer,
    );
    drop(buffer);
    match read {
        Ok(()) => Ok(image),
        Err(stop) => {
            drop(image);
            Err(stop)
        }
    }
}
