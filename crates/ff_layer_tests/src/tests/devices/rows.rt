// Steps on fresh devices, and how each is answered.
use crate::tests::plans::{SMALL, USUAL};
use ff_base::{Geometry, PageNo};
use ff_lines::Work;

pub enum Step {
    /// The page is made resident, and its first byte is read.
    Load(u32, u8),
    /// The page is made resident, and a byte is stored at its start.
    Store(u32, u8),
    /// A read of line 0 of a resident page, whether it is a caller's, and the bytes that the line starts with.
    Read(u32, bool, [u8; 4]),
    /// Bytes laid over line 0 of page 0 from an offset on, their position, and how many posts wait then.
    Post(u8, &'static [u8], Option<u32>, u32),
    /// A post that isn't a caller's.
    Land(u32),
    Pin(u32, bool),
    Drain,
    /// Whether a post waited, and how many wait then.
    DrainOne(bool, u32),
    /// The page becomes resident, and another gives way.
    Serve(u32, u32),
    /// What the steps of work for a page come to.
    Work(u32, Work),
    Collect(Work),
    /// So many posts arrive: the first position that is lost.
    Arrive(u32, Option<u32>),
    /// How many posts wait.
    Waits(u32),
    /// No flush is to be sealed, and no collection runs or is due.
    Rests,
    /// The reads, programs, seals and erases.
    Counts([u64; 4]),
    PowerOff,
}

pub struct Row {
    pub geometry: Geometry,
    pub steps: &'static [Step],
}

/// A cache of one way over four blocks of two pages.
pub const ONE_WAY: Geometry = Geometry { ways: 1, ..SMALL };

const TWO_POSTS: Geometry = Geometry { window: 2, ..USUAL };

// A store that is seen while it waits, and what is answered with the power off.
const SEEN: [Step; 9] = [
    Step::Store(0, 0xaa),
    Step::Waits(1),
    Step::Read(0, true, [0xaa, 0, 0, 0]),
    Step::Waits(0),
    Step::Rests,
    Step::Collect(Work::Ready),
    Step::PowerOff,
    Step::Work(0, Work::Off),
    Step::Collect(Work::Off),
];

// Stores before a cache of one page, the last of which finds no place and collects.
const COLLECTED: [Step; 15] = [
    Step::Store(0, 0xa0),
    Step::Store(1, 0xa1),
    Step::Store(2, 0xa2),
    Step::Store(3, 0xa3),
    Step::Store(4, 0xa4),
    Step::Store(0, 0xb0),
    Step::Store(1, 0xb1),
    Step::Store(2, 0xb2),
    Step::Load(2, 0xb2),
    Step::Counts([4, 8, 8, 1]),
    Step::Load(0, 0xb0),
    Step::Load(1, 0xb1),
    Step::Load(2, 0xb2),
    Step::Load(3, 0xa3),
    Step::Load(4, 0xa4),
];

const ZEROS: [u8; 4] = [0; 4];

// The values of the ways after a step, from way 0 on, stand over it.
const REPLACED: [Step; 27] = [
    Step::Work(0, Work::Ready),
    Step::Work(1, Work::Ready),
    Step::Work(2, Work::Ready),
    // 2 2 2 2
    Step::Work(3, Work::Ready),
    // 0 2 2 2
    Step::Read(0, true, ZEROS),
    // 1 2 3 3
    Step::Serve(4, 1),
    Step::Pin(2, true),
    Step::Pin(3, true),
    // 2 2 3 3
    Step::Serve(5, 4),
    Step::Pin(2, false),
    Step::Pin(3, false),
    // 2 2 2 3
    Step::Serve(6, 2),
    Step::Read(3, false, ZEROS),
    // 2 2 2 2
    Step::Serve(7, 3),
    // 2 0 2 2
    Step::Store(5, 1),
    // 2 0 3 3
    Step::Serve(8, 0),
    Step::Land(6),
    // 2 0 3 2
    Step::Serve(9, 7),
    Step::Drain,
    // 2 0 2 2
    Step::Serve(10, 6),
    // 2 1 3 3
    Step::Serve(11, 8),
    // 2 1 2 3
    Step::Serve(12, 10),
    Step::Pin(11, true),
    Step::Pin(5, true),
    Step::Pin(12, true),
    Step::Pin(9, true),
    Step::Work(0, Work::Pinned(PageNo(11))),
];

// Posts that are laid in their order, the oldest where the window is full, and posts that arrive or are lost.
const LAID: [Step; 12] = [
    Step::Work(0, Work::Ready),
    Step::Post(0, &[1, 2, 3], None, 1),
    Step::Post(1, &[9], None, 2),
    Step::Post(2, &[7, 7], None, 2),
    Step::Post(1, &[4, 5], None, 2),
    Step::DrainOne(true, 1),
    Step::Read(0, true, [1, 4, 5, 7]),
    Step::DrainOne(false, 0),
    Step::Post(0, &[6], Some(3), 1),
    Step::Post(0, &[8], Some(5), 2),
    Step::Arrive(1, Some(5)),
    Step::Read(0, true, [6, 4, 5, 7]),
];

pub static ROWS: [Row; 4] = [
    Row {
        geometry: USUAL,
        steps: &SEEN,
    },
    Row {
        geometry: ONE_WAY,
        steps: &COLLECTED,
    },
    Row {
        geometry: USUAL,
        steps: &REPLACED,
    },
    Row {
        geometry: TWO_POSTS,
        steps: &LAID,
    },
];
