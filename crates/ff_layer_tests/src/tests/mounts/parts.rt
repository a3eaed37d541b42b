// Mounted parts whose image is made where it may be.
ghost use Rattle.std.specs.Prelude.{◌≡◌, ◌≤◌, ◌^◌, true, IfOk, IsTrue, None, length};
ghost use Rattle.ff_base.specs.Geometry.{IsWithinLimits};

use crate::tests::plans::made;
use ff_base::{Geometry, Marks, NoMemory, PageBuf, PageNo};
use ff_cache::Cache;
use ff_flash::{Flash, SimFlash};
use ff_model::{Image, Piece};
use ff_mount::{MountStop, Mounted, image_of};
use ff_store::PageStore;
use std::alloc::Global;

/// Puts a page into an empty way of a cache, and writes its first byte if it is to be dirty.
pub fn cache_page(cache: &mut Cache, page: PageNo, from: &PageBuf, written: Option<u8>) -> bool {
    cache.known();
    if cache.find(page).is_some() {
        return false;
    }
    match cache.empty_way(page) {
        Some(slot) => {
            cache.put(slot, page, from);
            write_page(cache, page, written)
        }
        None => false,
    }
}

fn write_page(cache: &mut Cache, page: PageNo, written: Option<u8>) -> bool {
    match (written, cache.find(page)) {
        (Some(byte), Some(slot)) => {
            cache.write(slot, 0, 0, &Piece::from_slice(&[byte]));
            true
        }
        (None, found) => found.is_some(),
        _ => false,
    }
}

/// Mounted parts of one geometry.
#[derive(Drop)]
pub struct Parts {
    mounted: Mounted<SimFlash>,
    geometry: Geometry,
    ghost limits: { IsWithinLimits geometry },
    ghost marks: { length mounted.marks ≡ geometry.pages },
}

#[tactic(auto, using(ff_store::proofs::Rooms::none_waits))]
fn may_read(store: &PageStore<SimFlash>) -> bool
    ensures on { IsTrue result → store.now.world.flash.on ≡ true }
    ensures none { IsTrue result → store.now.waits ≡ None }
    ensures life { IsTrue result → store.now.world.flash.operations ≤ 2 ^ 62 }
{
    let flash = store.flash();
    flash.is_on() && flash.operation_count() <= 1 << 62 && store.pending().is_none()
}

pub fn blank_marks(alloc: Global, pages: u32) -> Result<Marks, NoMemory>
    ensures { IfOk result (λ marks. length marks ≡ pages) }
{
    Marks::new(alloc, pages)
}

impl Parts {
    pub fn new(
        alloc: Global,
        store: PageStore<SimFlash>,
        cache: Cache,
        geometry: &Geometry,
    ) -> Option<Parts> {
        match geometry.check() {
            Ok(()) => Parts::over(alloc, store, cache, geometry),
            Err(_) => None,
        }
    }

    fn over(
        alloc: Global,
        store: PageStore<SimFlash>,
        cache: Cache,
        geometry: &Geometry,
    ) -> Option<Parts>
        requires { IsWithinLimits geometry.now }
    {
        match blank_marks(alloc, geometry.pages) {
            Ok(marks) => Some(Parts {
                mounted: Mounted {
                    store,
                    cache,
                    marks,
                },
                geometry: *geometry,
            }),
            Err(_) => None,
        }
    }

    pub fn mark(&mut self, page: u32, lines: u64) {
        if page < self.geometry.pages {
            self.mounted.marks.set_lines(PageNo(page), lines);
        }
    }

    pub fn image(&mut self, alloc: Global) -> Option<Result<Image, MountStop>> {
        if !may_read(&self.mounted.store) {
            return None;
        }
        Some(image_of(alloc, &mut self.mounted, &self.geometry))
    }

    /// How many operations the flash has made, and whether its power is on.
    pub fn made(&self) -> (u64, bool) {
        made(self.mounted.store.flash())
    }
}
