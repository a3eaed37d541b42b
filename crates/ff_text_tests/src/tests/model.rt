// Calls, replies, histories and images, each public call once.
ghost use Rattle.std.specs.Prelude.{◌≤◌, length};

use ff_base::{Caller, Geometry, LAST_EVENT, NoMemory, PageBuf, PageNo};
use ff_model::{Entry, History, Image, Op, Piece, Reply, first_illegal, flat_byte};
use std::alloc::Global;
use std::test::Fail;

fn entry(op: Op, reply: Reply) -> Entry {
    Entry {
        event: 0,
        caller: Caller(0),
        number: 0,
        op,
        reply,
        faults: 0,
    }
}

fn store(at: u32, bytes: &[u8]) -> Op
    requires { length bytes.now ≤ 64 }
{
    Op::Store {
        at,
        bytes: Piece::from_slice(bytes),
    }
}

// Appends a call and its reply, if there is room for them.
fn push(history: &mut History, op: Op, reply: Reply) -> bool {
    if history.spare() == 0 {
        return false;
    }
    history.push(entry(op, reply));
    true
}

fn push_store(history: &mut History, at: u32, bytes: &[u8], is_done: bool) -> bool {
    let reply = if is_done { Reply::Done } else { Reply::Full };
    bytes.len() <= 64 && push(history, store(at, bytes), reply)
}

// Whether there are so many entries, of which the last is a verify.
fn ends_in_verify(history: &History, entries: u32) -> bool {
    let last = match history.get(entries.saturating_sub(1)) {
        Some(last) => last.op == Op::Verify,
        None => false,
    };
    last && history.len() == entries && history.get(entries).is_none()
}

// Stores, by their addresses and bytes, and whether each is done or refused as full.
static STORES: [(u32, &[u8], bool); 4] = [
    (10, &[1, 2, 3], true),
    (11, &[4], true),
    (10, &[9, 9, 9], false),
    (4096, &[5], true),
];

// Addresses, and their bytes after the stores.
static BYTES: [(u32, u8); 7] = [
    (9, 0),
    (10, 1),
    (11, 4),
    (12, 3),
    (13, 0),
    (4096, 5),
    (8192, 0),
];

// Appends the stores and a verify, if there is room for them.
fn push_all(history: &mut History) -> bool {
    for (at, bytes, is_done) in STORES.iter() {
        if !push_store(history, *at, bytes, *is_done) {
            return false;
        }
    }
    push(history, Op::Verify, Reply::Done)
}

// The first address that has another byte.
fn first_unlike(base: &Image, history: &History) -> Option<u32> {
    for (at, byte) in BYTES.iter() {
        if flat_byte(base, history, *at) != *byte {
            return Some(*at);
        }
    }
    None
}

#[test]
fn the_latest_done_store_gives_a_byte(rt: HostRuntime) -> Result<(), Fail> {
    let base = Image::new(rt.alloc(), 2)?;
    let mut history = History::new(rt.alloc(), 5)?;
    let is_empty = history.is_empty();
    let pushed = push_all(&mut history);
    let ends = ends_in_verify(&history, 5);
    let unlike = first_unlike(&base, &history);
    drop(history);
    drop(base);
    assert_eq!(rt; (is_empty, pushed, ends, unlike), (true, true, true, None));
    Ok(())
}

// An address, a length, and whether the span is in range of 16 pages.
static SPANS: [(u32, u32, bool); 8] = [
    (65535, 1, true),
    (65536, 1, false),
    (60, 4, true),
    (60, 8, false),
    (0, 0, false),
    (64, 64, true),
    (64, 65, false),
    (4294967295, 1, false),
];

// A page, its first line, how many lines, and whether they are in range of 16 pages.
static LINES: [(u32, u32, u32, bool); 6] = [
    (15, 0, 64, true),
    (15, 60, 5, false),
    (15, 60, 0, false),
    (15, 63, 1, true),
    (16, 0, 1, false),
    (15, 4294967295, 4294967295, false),
];

fn is_load_in_range(at: u32, len: u32) -> bool {
    Op::Load { at, len }.is_in_range(16)
}

// Whether a mark and a release of these lines are in range.
fn are_lines_in_range(page: u32, from: u32, count: u32) -> (bool, bool) {
    let page = PageNo(page);
    let mark = Op::Mark { page, from, count };
    let release = Op::Release { page, from, count };
    (mark.is_in_range(16), release.is_in_range(16))
}

fn is_store_in_range(at: u32, bytes: &[u8]) -> bool {
    bytes.len() <= 64 && store(at, bytes).is_in_range(16)
}

// The first address of a span that is found otherwise.
fn first_other_span() -> Option<u32> {
    for (at, len, is_in_range) in SPANS.iter() {
        if is_load_in_range(*at, *len) != *is_in_range {
            return Some(*at);
        }
    }
    None
}

// The first lines that are found otherwise.
fn first_other_lines() -> Option<(u32, u32, u32)> {
    for (page, from, count, is_in_range) in LINES.iter() {
        if are_lines_in_range(*page, *from, *count) != (*is_in_range, *is_in_range) {
            return Some((*page, *from, *count));
        }
    }
    None
}

#[test]
fn a_call_is_in_range_within_a_line_and_the_pages(rt: HostRuntime) {
    assert_eq!(rt; (first_other_span(), first_other_lines()), (None, None));
    let stores = [
        is_store_in_range(63, &[1]),
        is_store_in_range(63, &[1, 2]),
        is_store_in_range(63, &[]),
    ];
    assert_eq!(rt;
        (stores, Op::Verify.is_in_range(16)),
        ([true, false, false], true)
    );
}

// An image of two pages, of which the second is held.
fn two_pages(alloc: Global) -> Result<Image, NoMemory> {
    let mut page = PageBuf::new(alloc)?;
    page.set_line(1, &[7; 64]);
    let mut image = Image::new(alloc, 2)?;
    image.put(PageNo(1), &page)?;
    image.set_marks(PageNo(0), 5);
    Ok(image)
}

// Whether an image holds a page, its marked lines, and its second line.
type Told = (bool, u64, Option<[u8; 64]>);

fn told(image: &Image, page: u32) -> Option<Told> {
    if page >= image.pages() {
        return None;
    }
    let page = PageNo(page);
    let line = match image.page(page) {
        Some(bytes) => Some(bytes.line(1)),
        None => None,
    };
    Some((image.holds(page), image.marks(page), line))
}

fn copied(alloc: Global) -> Result<Image, NoMemory> {
    let image = two_pages(alloc)?;
    let copy = image.copy(alloc);
    drop(image);
    copy
}

#[test]
fn a_new_image_holds_nothing(rt: HostRuntime) -> Result<(), Fail> {
    let image = Image::new(rt.alloc(), 2)?;
    let found = (told(&image, 1), image.byte(8191));
    drop(image);
    assert_eq!(rt; found, (Some((false, 0, None)), 0));
    Ok(())
}

#[test]
fn an_image_holds_pages_and_marks(rt: HostRuntime) -> Result<(), Fail> {
    let copy = copied(rt.alloc())?;
    let pages = (copy.pages(), copy.byte(4096 + 64));
    let found = (told(&copy, 0), told(&copy, 1));
    drop(copy);
    let second = (true, 0, Some([7; 64]));
    assert_eq!(rt; pages, (2, 7));
    assert_eq!(rt; found, (Some((false, 5, None)), Some(second)));
    Ok(())
}

fn answered(event: u64, faults: u64, op: Op, reply: Reply) -> Entry {
    Entry {
        event,
        caller: Caller(0),
        number: 0,
        op,
        reply,
        faults,
    }
}

// An event number, a count of faults, a call and its reply, behind a store of 7 at address 10 in event 2. The second
// row says whether it may stand there.
fn last_entries() -> [(Entry, bool); 12] {
    let load = || Op::Load { at: 10, len: 1 };
    let byte = |byte| Reply::Bytes(Piece::from_slice(&[byte]));
    [
        (answered(3, 0, load(), byte(7)), true),
        (answered(3, 0, load(), byte(0)), false),
        (answered(2, 0, load(), byte(7)), false),
        (answered(LAST_EVENT, 0, load(), Reply::Spent), true),
        (answered(LAST_EVENT, 0, load(), byte(7)), false),
        (answered(LAST_EVENT + 1, 0, load(), Reply::Spent), false),
        (answered(3, 1, load(), Reply::Fault), true),
        (answered(3, 0, load(), Reply::Fault), false),
        (answered(3, 1, Op::Verify, Reply::Fault), false),
        (
            answered(3, 0, Op::Load { at: 60, len: 8 }, Reply::Range),
            true,
        ),
        (answered(3, 0, store(4096, &[1]), Reply::Full), false),
        (answered(3, 0, store(4096, &[1]), Reply::Done), true),
    ]
}

// The first illegal entry of a history of a store and this entry.
fn first_illegal_with(alloc: Global, base: &Image, last: Entry) -> Result<Option<u32>, NoMemory> {
    let mut history = History::new(alloc, 2)?;
    history.push(answered(2, 0, store(10, &[7]), Reply::Done));
    history.push(last);
    Ok(first_illegal(base, &history, &Geometry::default(), 0, 0))
}

#[test]
fn the_first_illegal_entry_is_found(rt: HostRuntime) -> Result<(), Fail> {
    let base = Image::new(rt.alloc(), 16)?;
    for (entry, is_legal) in last_entries() {
        let found = first_illegal_with(rt.alloc(), &base, entry)?;
        assert_eq!(rt; found, if is_legal { None } else { Some(1) });
    }
    Ok(())
}
