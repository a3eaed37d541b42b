// Pages, marks and the bounds of a geometry.
ghost use Rattle.std.specs.Prelude.{◌<◌, length};

use ff_base::{Geometry, Limit, LimitName, Marks, PageBuf, PageNo};
use std::test::Fail;

fn line_of(page: &PageBuf, line: u8) -> Option<[u8; 64]> {
    if line < 64 {
        Some(page.line(line))
    } else {
        None
    }
}

#[test]
fn a_new_page_is_zeros_and_keeps_a_line(rt: HostRuntime) -> Result<(), Fail> {
    let mut page = PageBuf::new(rt.alloc())?;
    let last = line_of(&page, 63);
    page.set_line(1, &[7; 64]);
    let kept = [line_of(&page, 0), line_of(&page, 1)];
    let copy = page.copy(rt.alloc())?;
    page.clear();
    let left = [line_of(&page, 1), line_of(&copy, 1)];
    drop(copy);
    drop(page);
    let (zeros, sevens) = (Some([0; 64]), Some([7; 64]));
    assert_eq!(rt;
        (last, kept, left),
        (zeros, [zeros, sevens], [zeros, sevens])
    );
    Ok(())
}

fn lines_of(marks: &Marks, page: u32) -> u64
    requires { page < length marks.now }
{
    marks.lines(PageNo(page))
}

#[test]
fn marks_are_kept_by_page(rt: HostRuntime) -> Result<(), Fail> {
    let mut marks = Marks::new(rt.alloc(), 3)?;
    let before = lines_of(&marks, 2);
    marks.set_lines(PageNo(1), 0x8000_0000_0000_0001);
    marks.set_lines(PageNo(2), 6);
    marks.set_lines(PageNo(2), 5);
    let copy = marks.copy(rt.alloc())?;
    let found = [
        before,
        lines_of(&marks, 0),
        lines_of(&marks, 1),
        lines_of(&copy, 2),
    ];
    drop(copy);
    drop(marks);
    let wanted = [0, 0, 0x8000_0000_0000_0001, 5];
    assert_eq!(rt; found, wanted);
    Ok(())
}

fn geometry(numbers: [u32; 9]) -> Geometry {
    let [
        blocks,
        per_block,
        pages,
        sets,
        ways,
        frames,
        plb,
        window,
        low,
    ] = numbers;
    Geometry {
        blocks,
        per_block,
        pages,
        sets,
        ways,
        frames,
        plb,
        window,
        low,
    }
}

// Sizes that are within their bounds, and how many pages the flash has room for.
static ALLOWED: [([u32; 9], u32); 4] = [
    ([8, 4, 16, 1, 4, 4, 2, 4, 1], 27),
    ([3, 2, 1, 1, 1, 0, 1, 1, 1], 3),
    ([4096, 4, 65536, 4096, 1, 4096, 64, 64, 8], 16379),
    ([64, 256, 65536, 256, 16, 4096, 64, 64, 8], 16127),
];

// The capacity of a geometry that is within its bounds.
fn capacity(geometry: &Geometry) -> Result<u32, Limit> {
    geometry.check()?;
    Ok(geometry.capacity())
}

#[test]
fn bounds_are_allowed(rt: HostRuntime) {
    for (numbers, pages) in ALLOWED.iter() {
        assert_eq!(rt; capacity(&geometry(*numbers)), Ok(*pages));
    }
    assert!(rt; Geometry::default() == geometry(ALLOWED[0].0));
}

// The numbers of a geometry, and the limit that they break first: its name, value and bounds.
type Broken = ([u32; 9], LimitName, u32, u32, u32);

static BROKEN: [Broken; 21] = [
    ([2, 4, 16, 1, 4, 4, 2, 4, 1], LimitName::Blocks, 2, 3, 4096),
    (
        [4097, 4, 16, 1, 4, 4, 2, 4, 1],
        LimitName::Blocks,
        4097,
        3,
        4096,
    ),
    ([8, 1, 16, 1, 4, 4, 2, 4, 1], LimitName::PerBlock, 1, 2, 256),
    (
        [8, 257, 16, 1, 4, 4, 2, 4, 1],
        LimitName::PerBlock,
        257,
        2,
        256,
    ),
    ([8, 4, 0, 1, 4, 4, 2, 4, 1], LimitName::Pages, 0, 1, 65536),
    (
        [8, 4, 65537, 1, 4, 4, 2, 4, 1],
        LimitName::Pages,
        65537,
        1,
        65536,
    ),
    ([8, 4, 16, 0, 4, 4, 2, 4, 1], LimitName::Sets, 0, 1, 4096),
    (
        [8, 4, 16, 4097, 4, 4, 2, 4, 1],
        LimitName::Sets,
        4097,
        1,
        4096,
    ),
    ([8, 4, 16, 1, 0, 4, 2, 4, 1], LimitName::Ways, 0, 1, 16),
    ([8, 4, 16, 1, 17, 4, 2, 4, 1], LimitName::Ways, 17, 1, 16),
    (
        [8, 4, 16, 1, 4, 4097, 2, 4, 1],
        LimitName::Frames,
        4097,
        0,
        4096,
    ),
    ([8, 4, 16, 1, 4, 4, 0, 4, 1], LimitName::Plb, 0, 1, 64),
    ([8, 4, 16, 1, 4, 4, 65, 4, 1], LimitName::Plb, 65, 1, 64),
    ([8, 4, 16, 1, 4, 4, 2, 0, 1], LimitName::Window, 0, 1, 64),
    ([8, 4, 16, 1, 4, 4, 2, 65, 1], LimitName::Window, 65, 1, 64),
    ([8, 4, 16, 1, 4, 4, 2, 4, 0], LimitName::Low, 0, 1, 8),
    ([8, 4, 16, 1, 4, 4, 2, 4, 9], LimitName::Low, 9, 1, 8),
    (
        [4096, 256, 16, 1, 4, 4, 2, 4, 1],
        LimitName::FlashPages,
        1048576,
        6,
        16384,
    ),
    (
        [8, 4, 16, 4096, 2, 4, 2, 4, 1],
        LimitName::CacheWays,
        8192,
        1,
        4096,
    ),
    ([8, 4, 16, 4096, 17, 4, 2, 4, 9], LimitName::Ways, 17, 1, 16),
    (
        [4096, 256, 16, 4096, 2, 4, 2, 4, 1],
        LimitName::FlashPages,
        1048576,
        6,
        16384,
    ),
];

#[test]
fn the_first_broken_bound_is_named(rt: HostRuntime) {
    for (numbers, name, value, least, greatest) in BROKEN.iter() {
        let limit = Limit {
            name: *name,
            value: *value,
            least: *least,
            greatest: *greatest,
        };
        assert_eq!(rt; geometry(*numbers).check(), Err(limit));
    }
}
