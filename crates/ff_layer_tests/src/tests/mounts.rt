// Images of a store and a cache, with pages in each, in both and in neither.
mod lost;
mod parts;

use super::plans::{Fault, SMALL, fill};
use super::stores::StoreRig;
use ff_base::{Geometry, NoMemory, PageBuf, PageNo};
use ff_cache::Cache;
use ff_flash::{Flash, SimFlash};
use ff_model::Image;
use ff_mount::{MountStop, Mounted};
use ff_store::FlushStep;
use lost::{Came, Lost};
use parts::{Parts, cache_page};
use std::alloc::Global;
use std::process::Abort;
use std::test::Fail;

const FIVE_BLOCKS: Geometry = Geometry {
    blocks: 5,
    pages: 6,
    ..SMALL
};

// The pages that are stored, one after the other, each with a program and a seal: ten operations.
static STORED: [(u32, u8); 5] = [(0, 0xa0), (1, 0xa1), (0, 0xb0), (2, 0xa2), (4, 0xa4)];

// The pages that are cached, with their bytes and the byte that is written over the first.
static CACHED: [(u32, u8, Option<u8>); 4] = [
    (1, 0xa1, None),
    (2, 0xa2, Some(0xd2)),
    (3, 0x00, Some(0xd3)),
    (5, 0x00, None),
];

// The first two bytes of each page that is held, and its marked lines.
static HELD: [(Option<(u8, u8)>, u64); 6] = [
    (Some((0xb0, 0xb0)), 0),
    (Some((0xa1, 0xa1)), 1 << 63),
    (Some((0xd2, 0xa2)), 5),
    (Some((0xd3, 0x00)), 0),
    (Some((0xa4, 0xa4)), 0),
    (None, 2),
];

// Stores a page, without a collection.
fn is_put(rig: &mut StoreRig, number: u32, page: &PageBuf) -> bool {
    rig.flush_step(number, page) == Some(Ok(FlushStep::Programmed))
        && rig.seal_step() == Some(Ok(FlushStep::Sealed(PageNo(number))))
}

fn stored_pages(rt: &impl Abort, alloc: Global, page: &mut PageBuf, fault: Fault) -> StoreRig {
    let mut rig = StoreRig::new(alloc, &FIVE_BLOCKS, fault).expect(rt, "want of memory");
    for (number, byte) in STORED.iter() {
        fill(page, *byte);
        assert!(rt; is_put(&mut rig, *number, page), "page {number}");
    }
    rig
}

fn cached_pages(rt: &impl Abort, cache: &mut Cache, page: &mut PageBuf) {
    for (number, byte, written) in CACHED.iter() {
        fill(page, *byte);
        assert!(rt;
            cache_page(cache, PageNo(*number), page, *written),
            "page {number}"
        );
    }
}

fn empty_cache(alloc: Global) -> Option<Cache> {
    if FIVE_BLOCKS.check().is_err() {
        return None;
    }
    Cache::new(alloc, &FIVE_BLOCKS).ok()
}

fn parts_of(rt: &impl Abort, alloc: Global, fault: Fault) -> Result<Parts, NoMemory> {
    let mut page = PageBuf::new(alloc)?;
    let stored = stored_pages(rt, alloc, &mut page, fault);
    let mut cache = empty_cache(alloc).expect(rt, "want of memory");
    cached_pages(rt, &mut cache, &mut page);
    let mut parts = Parts::new(alloc, stored.into_store(), cache, &FIVE_BLOCKS).expect(
        rt,
        "want of memory",
    );
    for (number, (_, lines)) in HELD.iter().enumerate() {
        parts.mark(number as u32, *lines);
    }
    Ok(parts)
}

fn first_bytes(image: &Image, number: u32) -> Option<(u8, u8)> {
    match image.page(PageNo(number)) {
        Some(page) => {
            let line = page.line(0);
            Some((line[0], line[1]))
        }
        None => None,
    }
}

fn lines_of(image: &Image, number: u32) -> Option<u64> {
    if number < image.pages() {
        Some(image.marks(PageNo(number)))
    } else {
        None
    }
}

// Whether an image has what is held, and nothing else.
fn has_held(image: &Image) -> bool {
    for (number, (bytes, lines)) in HELD.iter().enumerate() {
        let number = number as u32;
        if first_bytes(image, number) != *bytes || lines_of(image, number) != Some(*lines) {
            return false;
        }
    }
    image.pages() == 6
}

// Whether an image has what is held, or why it isn't made. With the power off none is begun.
type Imaged = Option<Result<bool, MountStop>>;

fn image_of(parts: &mut Parts, alloc: Global) -> Imaged {
    match parts.image(alloc)? {
        Ok(image) => Some(Ok(has_held(&image))),
        Err(stop) => Some(Err(stop)),
    }
}

// What an image comes to, the operations that were made by then and whether the power is on, and what a second image
// comes to.
type Twice = (Imaged, (u64, bool), Imaged);

fn two_images(mut parts: Parts, alloc: Global) -> Twice {
    let first = image_of(&mut parts, alloc);
    let made = parts.made();
    let second = image_of(&mut parts, alloc);
    drop(parts);
    (first, made, second)
}

// The stores take ten operations, and an image two. It can be made again where it failed.
static IMAGES: [(Fault, Twice); 5] = [
    (Fault::Nothing, (Some(Ok(true)), (12, true), Some(Ok(true)))),
    (
        Fault::Fail(10),
        (Some(Err(MountStop::Fault)), (11, true), Some(Ok(true))),
    ),
    (
        Fault::Fail(11),
        (Some(Err(MountStop::Fault)), (12, true), Some(Ok(true))),
    ),
    (
        Fault::Cut(10, 1),
        (Some(Err(MountStop::Off)), (11, false), None),
    ),
    (
        Fault::Cut(11, 1),
        (Some(Err(MountStop::Off)), (12, false), None),
    ),
];

#[test]
fn an_image_has_what_is_held_or_stops_at_a_read(rt: HostRuntime) -> Result<(), Fail> {
    for (fault, wanted) in IMAGES.iter() {
        let parts = parts_of(&rt, rt.alloc(), *fault)?;
        assert_eq!(rt; two_images(parts, rt.alloc()), *wanted);
    }
    Ok(())
}

// The operations that were made, and whether page 3 is mapped.
fn mapped_by(mounted: Mounted<SimFlash>) -> (u64, bool) {
    let store = &mounted.store;
    let found = (store.flash().operation_count(), store.is_mapped(PageNo(3)));
    drop(mounted);
    found
}

// What the last mount made: the first, or where that was refused, the second.
fn last_made(alloc: Global, first: Result<Mounted<SimFlash>, Lost>) -> Option<(u64, bool)> {
    match first {
        Ok(mounted) => Some(mapped_by(mounted)),
        Err(lost) => second_made(alloc, lost),
    }
}

fn second_made(alloc: Global, lost: Lost) -> Option<(u64, bool)> {
    match lost.mount(alloc)? {
        (_, Ok(mounted)) => Some(mapped_by(mounted)),
        _ => None,
    }
}

// What the first mount came to, and what the last one made.
fn mounts_of(alloc: Global, fault: Fault) -> Option<(Came, (u64, bool))> {
    let (came, first) = Lost::new(alloc, &FIVE_BLOCKS, 3, fault)?.mount(alloc)?;
    Some((came, last_made(alloc, first)?))
}

// Ten places are probed. A probe that fails or is cut hands back what can be mounted again.
#[test]
fn a_mount_that_is_refused_can_be_made_again(rt: HostRuntime) {
    let table = [
        (Fault::Nothing, (10, true, None), 10),
        (Fault::Fail(3), (4, true, Some(MountStop::Fault)), 14),
        (Fault::Cut(6, 1), (7, false, Some(MountStop::Off)), 17),
    ];
    for (fault, wanted, last) in table {
        assert_eq!(rt; mounts_of(rt.alloc(), fault), Some((wanted, (last, false))));
    }
}
