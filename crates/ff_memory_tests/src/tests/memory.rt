// Loads, stores and the turns between them, on a memory over a plain device.
mod rig;

use ff_base::PageNo;
use ff_memory::{Access, Side, What};
use ff_model::{Piece, Reply};
use ff_plb::Way;
use rig::Rig;
use std::process::Abort;
use std::test::Fail;

// A call and its answer, or so many turns.
#[derive(Clone, Copy)]
enum Call {
    Load(u32, &'static [u8]),
    Store(u32, &'static [u8]),
    Promote(u32),
    Evict(u32),
    // The events of a mark.
    Mark(u32),
}

#[derive(Clone, Copy, Debug, PartialEq, Eq)]
struct Counts {
    device: u32,
    host: u32,
    landed: u32,
    dropped: u32,
    promoted: u32,
    retreated: u32,
}

struct Row {
    frames: u32,
    calls: &'static [Call],
    counts: Counts,
}

const READ_PAGE_0: Call = Call::Load(0, &[0]);

const ELEVENS: [u8; 64] = [0x11; 64];

const TWENTY_TWOS: [u8; 64] = [0x22; 64];

// A store to a line that is under way, to one that isn't copied, to a page that leaves, and a mark.
static ROWS: [Row; 4] = [
    Row {
        frames: 4,
        calls: &[
            READ_PAGE_0,
            READ_PAGE_0,
            READ_PAGE_0,
            READ_PAGE_0,
            Call::Promote(12),
            Call::Store(320, &ELEVENS),
            Call::Promote(1),
            Call::Load(320, &[0x11, 0x11]),
        ],
        counts: Counts {
            device: 4,
            host: 2,
            landed: 5,
            dropped: 1,
            promoted: 1,
            retreated: 0,
        },
    },
    Row {
        frames: 4,
        calls: &[
            Call::Store(576, &TWENTY_TWOS),
            READ_PAGE_0,
            READ_PAGE_0,
            READ_PAGE_0,
            Call::Promote(12),
            Call::Store(577, &[0x33]),
            Call::Load(576, &[0x22, 0x33, 0x22, 0x22]),
        ],
        counts: Counts {
            device: 4,
            host: 2,
            landed: 5,
            dropped: 0,
            promoted: 1,
            retreated: 0,
        },
    },
    Row {
        frames: 1,
        calls: &[
            READ_PAGE_0,
            READ_PAGE_0,
            READ_PAGE_0,
            READ_PAGE_0,
            Call::Promote(130),
            Call::Store(0, &[0xaa]),
            Call::Evict(2),
            Call::Store(0, &[0xbb]),
            Call::Evict(3),
            Call::Load(0, &[0xbb]),
        ],
        counts: Counts {
            device: 5,
            host: 2,
            landed: 65,
            dropped: 0,
            promoted: 1,
            retreated: 1,
        },
    },
    Row {
        frames: 4,
        calls: &[
            READ_PAGE_0,
            READ_PAGE_0,
            READ_PAGE_0,
            READ_PAGE_0,
            Call::Promote(12),
            Call::Store(0, &[0xaa]),
            Call::Store(576, &[0xbb]),
            Call::Mark(7),
            Call::Load(0, &[0xaa]),
            Call::Load(576, &[0xbb]),
        ],
        counts: Counts {
            device: 6,
            host: 2,
            landed: 7,
            dropped: 0,
            promoted: 1,
            retreated: 1,
        },
    },
];

impl Counts {
    fn new() -> Counts {
        Counts {
            device: 0,
            host: 0,
            landed: 0,
            dropped: 0,
            promoted: 0,
            retreated: 0,
        }
    }

    fn served(&mut self, side: Side) {
        match side {
            Side::Device => self.device = self.device.saturating_add(1),
            Side::Host => self.host = self.host.saturating_add(1),
            Side::Neither => {}
        }
    }

    fn advanced(&mut self, what: What) {
        match what {
            What::Landed => self.landed = self.landed.saturating_add(1),
            What::Dropped => self.dropped = self.dropped.saturating_add(1),
            _ => {}
        }
    }
}

fn piece(bytes: &[u8]) -> Piece {
    Piece::from_slice(&bytes[..bytes.len().min(64)])
}

// The reply of a call that was served.
fn reply(counts: &mut Counts, access: Option<Access>) -> Option<Reply> {
    match access {
        Some(Access::Served(reply, side)) => {
            counts.served(side);
            Some(reply)
        }
        _ => None,
    }
}

// A turn that lets page 0 come.
fn promote(rig: &mut Rig, counts: &mut Counts) {
    if let Some(what) = rig.advance(Way::Coming) {
        counts.advanced(what);
    } else if rig.promote(PageNo(0)) {
        counts.promoted = counts.promoted.saturating_add(1);
    }
}

// A turn that lets the page in frame 0 leave, where no frame is free.
fn evict(rig: &mut Rig, counts: &mut Counts) {
    if let Some(what) = rig.advance(Way::Leaving) {
        counts.advanced(what);
    } else if rig.memory().frames().is_full() && rig.retreat(0) {
        counts.retreated = counts.retreated.saturating_add(1);
    }
}

// An event of a mark of page 0: whether it was served.
fn mark(rig: &mut Rig, counts: &mut Counts) -> bool {
    match rig.mark(PageNo(0), u64::MAX) {
        Some(Access::Miss(page)) => {
            if let Some(what) = rig.advance(Way::Leaving) {
                counts.advanced(what);
            } else if rig.come_home(page) {
                counts.retreated = counts.retreated.saturating_add(1);
            }
            false
        }
        access => reply(counts, access).is_some(),
    }
}

fn make(rt: &impl Abort, rig: &mut Rig, counts: &mut Counts, call: Call) {
    match call {
        Call::Load(at, bytes) => {
            let bytes = piece(bytes);
            let access = rig.load(at, bytes.as_slice().len() as u32);
            assert_eq!(rt; reply(counts, access), Some(Reply::Bytes(bytes)));
        }
        Call::Store(at, bytes) => {
            let access = rig.store(at, &piece(bytes), 0);
            assert_eq!(rt; reply(counts, access), Some(Reply::Done));
        }
        Call::Promote(turns) => {
            for _ in 0..turns {
                promote(rig, counts);
            }
        }
        Call::Evict(turns) => {
            for _ in 0..turns {
                evict(rig, counts);
            }
        }
        Call::Mark(events) => {
            for event in 1..=events {
                assert_eq!(rt; mark(rig, counts), event == events);
            }
        }
    }
}

#[test]
fn bytes_are_right_while_their_page_moves(rt: HostRuntime) -> Result<(), Fail> {
    for (at, row) in ROWS.iter().enumerate() {
        let mut rig = Rig::new(rt.alloc(), row.frames).expect(&rt, "want of memory");
        let mut counts = Counts::new();
        for &call in row.calls {
            make(&rt, &mut rig, &mut counts, call);
        }
        assert_eq!(rt; counts, row.counts, "row {at}");
    }
    Ok(())
}

#[test]
fn a_marked_page_does_not_come(rt: HostRuntime) -> Result<(), Fail> {
    let mut rig = Rig::new(rt.alloc(), 2).expect(&rt, "want of memory");
    let done = Some(Access::Served(Reply::Done, Side::Neither));
    assert_eq!(rt; rig.mark(PageNo(1), 0b110), done);
    rig.release(PageNo(1), 0b010);
    assert!(rt; !rig.promote(PageNo(1)));
    assert!(rt; rig.promote(PageNo(0)));
    assert_eq!(rt; rig.mark(PageNo(0), 1), Some(Access::Miss(PageNo(0))));
    assert_eq!(rt; rig.into_lines(PageNo(1)), Some(0b100));
    Ok(())
}

#[test]
fn frames_are_referred_until_they_are_passed(rt: HostRuntime) -> Result<(), Fail> {
    let mut rig = Rig::new(rt.alloc(), 2).expect(&rt, "want of memory");
    assert!(rt; rig.promote(PageNo(0)));
    let done = Some(Access::Served(Reply::Done, Side::Host));
    assert_eq!(rt; rig.store(64, &Piece::from_slice(&[1]), 0), done);
    rig.clear_referred(1, 0);
    assert!(rt; rig.is_referred(0));
    rig.clear_referred(0, 1);
    assert!(rt; !rig.is_referred(0));
    Ok(())
}
