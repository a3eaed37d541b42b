// The map's calls on sixteen pages and thirty-two places.
ghost use Rattle.std.specs.Prelude.{◌≡◌, ◌-◌, ◌<◌, ◌^◌, length};

use ff_base::{Geometry, PageNo, Ppn};
use ff_map::{Move, PageMap};
use std::test::Fail;

// Maps a page to a place, where that is nobody's.
fn place(map: &mut PageMap, page: u32, at: u32, version: u64) -> bool
    requires page { page < length map.old.pages }
    requires place { at < map.old.places }
    ensures pages { length map.new.pages ≡ length map.old.pages }
    ensures places { map.new.places ≡ map.old.places }
{
    if map.owner(Ppn(at)).is_some() {
        return false;
    }
    map.set(PageNo(page), Ppn(at), version);
    true
}

// Moves a page to a place, where that is nobody's.
fn move_page(map: &mut PageMap, page: u32, from: u32, to: u32) -> bool
    requires page { page < length map.old.pages }
    requires place { to < map.old.places }
    ensures pages { length map.new.pages ≡ length map.old.pages }
    ensures places { map.new.places ≡ map.old.places }
{
    let (page, from, to) = (PageNo(page), Ppn(from), Ppn(to));
    if map.owner(to).is_some() {
        return false;
    }
    map.switch(&[Move { page, from, to }]);
    true
}

// Places and moves two pages. The second move is of a page that isn't at its place any more.
fn place_and_move(map: &mut PageMap) -> [bool; 5]
    requires pages { length map.old.pages ≡ 16 }
    requires places { map.old.places ≡ 32 }
{
    [
        place(map, 0, 3, 1),
        place(map, 15, 31, 2),
        place(map, 0, 4, 3),
        move_page(map, 15, 31, 3),
        move_page(map, 0, 3, 5),
    ]
}

// Where a page is, with which version.
fn told(map: &PageMap, page: u32) -> (Option<Ppn>, Option<u64>) {
    (map.get(PageNo(page)), map.version(PageNo(page)))
}

// Whose the places are to which pages were moved, and those that they left.
fn owners(map: &PageMap) -> [Option<PageNo>; 3] {
    [map.owner(Ppn(4)), map.owner(Ppn(3)), map.owner(Ppn(31))]
}

// A version that is drawn, and the next one.
fn drawn_after(map: &mut PageMap, next: u64) -> (u64, u64)
    requires { next < 2 ^ 64 - 1 }
{
    map.start_version(next);
    let drawn = map.draw_version();
    (drawn, map.next_version())
}

#[test]
fn pages_are_placed_and_moved(rt: HostRuntime) -> Result<(), Fail> {
    let mut map = PageMap::new(rt.alloc(), &Geometry::default())?;
    map.known();
    let made = place_and_move(&mut map);
    let pages = (map.pages(), map.get(PageNo(16)));
    let places = [told(&map, 0), told(&map, 15)];
    let owners = owners(&map);
    let versions = drawn_after(&mut map, 9);
    drop(map);
    assert_eq!(rt; made, [true; 5]);
    assert_eq!(rt; pages, (16, None));
    assert_eq!(rt; places, [(Some(Ppn(4)), Some(3)), (Some(Ppn(3)), Some(2))]);
    assert_eq!(rt; owners, [Some(PageNo(0)), Some(PageNo(15)), None]);
    assert_eq!(rt; versions, (9, 10));
    Ok(())
}
