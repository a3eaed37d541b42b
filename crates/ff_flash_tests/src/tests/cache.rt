// A page is found in its set, the values of its set choose the way that gives way, and a mount keeps the pages.
use ff_base::{Geometry, Marks, PageBuf, PageNo};
use ff_cache::Cache;
use ff_model::Piece;
use std::alloc::Global;
use std::test::Fail;

fn two_sets() -> Geometry {
    Geometry {
        sets: 2,
        ways: 2,
        ..Geometry::default()
    }
}

fn cache_of(alloc: Global) -> Result<Cache, Fail> {
    let geometry = two_sets();
    geometry.check()?;
    Ok(Cache::new(alloc, &geometry)?)
}

// Fills the first empty way of the page's set.
fn fill(cache: &mut Cache, page: PageNo, from: &PageBuf) -> Option<u32> {
    cache.known();
    if cache.find(page).is_some() {
        return None;
    }
    let slot = cache.empty_way(page)?;
    cache.put(slot, page, from);
    Some(slot)
}

// Lays two bytes over line 3 of a page that is cached, and pins it.
fn write(cache: &mut Cache, page: PageNo) {
    if let Some(slot) = cache.find(page) {
        cache.write(slot, 3, 1, &Piece::from_slice(&[7, 8]));
    }
}

fn use_again(cache: &mut Cache, page: PageNo) {
    if let Some(slot) = cache.find(page) {
        cache.hit(slot);
    }
}

fn line_3(cache: &Cache, page: PageNo) -> Option<[u8; 64]> {
    match cache.find(page) {
        Some(slot) => Some(cache.line(slot, 3)),
        None => None,
    }
}

// How many ways a set has, where the set of page 5 begins, and where that page is.
fn told(cache: &Cache) -> (u32, u32, Option<u32>) {
    (
        cache.ways(),
        cache.first_slot(PageNo(5)),
        cache.find(PageNo(5)),
    )
}

// The ways that are filled with four pages, where there is one.
fn filled(cache: &mut Cache, from: &PageBuf) -> [Option<u32>; 4] {
    [
        fill(cache, PageNo(5), from),
        fill(cache, PageNo(7), from),
        fill(cache, PageNo(9), from),
        fill(cache, PageNo(4), from),
    ]
}

// The ways that give way to page 9 once page 5 was used again: of both, of the first, and of none.
fn chosen(cache: &mut Cache) -> [Option<u32>; 3] {
    use_again(cache, PageNo(5));
    [
        cache.choose(PageNo(9), 3),
        cache.choose(PageNo(9), 1),
        cache.choose(PageNo(9), 0),
    ]
}

#[test]
fn pages_are_found_in_their_sets(rt: HostRuntime) -> Result<(), Fail> {
    let mut ones = PageBuf::new(rt.alloc())?;
    ones.set_line(3, &[1; 64]);
    let mut cache = cache_of(rt.alloc())?;
    let told = told(&cache);
    let filled = filled(&mut cache, &ones);
    write(&mut cache, PageNo(7));
    let line = line_3(&cache, PageNo(7));
    let chosen = chosen(&mut cache);
    drop(cache);
    assert_eq!(rt; told, (2, 2, None));
    assert_eq!(rt; filled, [Some(2), Some(3), None, Some(0)]);
    assert_eq!(rt; &line.ok_or("cached")?[..4], [1, 7, 8, 1].as_slice());
    assert_eq!(rt; chosen, [Some(3), Some(2), None]);
    Ok(())
}

#[test]
fn a_mount_keeps_the_pages(rt: HostRuntime) -> Result<(), Fail> {
    let cache = cache_of(rt.alloc())?;
    let nv = cache.into_nv(Marks::new(rt.alloc(), 3)?);
    let copy = nv.copy(rt.alloc())?;
    let _copied = copy;
    Ok(())
}
