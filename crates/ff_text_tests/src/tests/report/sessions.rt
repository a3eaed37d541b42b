// The sessions whose texts are tested.
ghost use Rattle.std.specs.Prelude.{◌≡◌, ◌≤◌, IfOk, length};

use ff_base::{Caller, NoMemory, PageBuf, PageNo};
use ff_model::{Counts, Entry, History, Image, KindTurns, Op, Piece, Reply, TurnCounts};
use ff_report::{Remounted, SessionParts};
use std::alloc::Global;

// What the remount after a session came to, as the session's owner keeps it.
#[derive(Drop)]
pub enum Remount {
    Image(Image),
    Fault,
    Off,
}

#[derive(Drop)]
pub struct Session {
    history: History,
    turns: TurnCounts,
    counts: Counts,
    kept: u32,
    image: Remount,
}

impl Session {
    pub fn parts(&self) -> SessionParts<'_> {
        SessionParts {
            history: &self.history,
            turns: self.turns,
            counts: self.counts,
            kept: self.kept,
            image: match &self.image {
                Remount::Image(image) => Remounted::Image(image),
                Remount::Fault => Remounted::Fault,
                Remount::Off => Remounted::Off,
            },
        }
    }
}

fn entry(number: u32, op: Op, reply: Reply) -> Entry {
    Entry {
        event: 0,
        caller: Caller(0),
        number,
        op,
        reply,
        faults: 0,
    }
}

fn load(number: u32, at: u32, bytes: &[u8]) -> Entry
    requires { length bytes.now ≤ 64 }
{
    let len = bytes.len() as u32;
    let bytes = Piece::from_slice(bytes);
    entry(number, Op::Load { at, len }, Reply::Bytes(bytes))
}

fn store(number: u32, at: u32, bytes: &[u8]) -> Entry
    requires { length bytes.now ≤ 64 }
{
    let bytes = Piece::from_slice(bytes);
    entry(number, Op::Store { at, bytes }, Reply::Done)
}

fn mark(number: u32, page: u32, from: u32, count: u32, reply: Reply) -> Entry {
    let page = PageNo(page);
    entry(number, Op::Mark { page, from, count }, reply)
}

fn served(device: u64, host: u64) -> Counts {
    Counts {
        device,
        host,
        ..Counts::default()
    }
}

fn promotions(made: u32) -> TurnCounts {
    TurnCounts {
        promote: KindTurns { made, did: made },
        ..TurnCounts::default()
    }
}

// An image of 16 pages with these marked lines of page 0.
fn marked(alloc: Global, lines: u64) -> Result<Image, NoMemory>
    ensures { IfOk result (λ image. length image.pages ≡ 16) }
{
    let mut image = Image::new(alloc, 16)?;
    image.set_marks(PageNo(0), lines);
    Ok(image)
}

// The same, which also holds page 0 with these lines 0 and 9.
fn held(
    alloc: Global,
    lines: u64,
    line_0: &[u8; 64],
    line_9: &[u8; 64],
) -> Result<Image, NoMemory> {
    let mut page = PageBuf::new(alloc)?;
    page.set_line(0, line_0);
    page.set_line(9, line_9);
    let mut image = marked(alloc, lines)?;
    image.put(PageNo(0), &page)?;
    Ok(image)
}

// A line that begins with a byte.
fn starts(byte: u8) -> [u8; 64] {
    let mut line = [0; 64];
    line[0] = byte;
    line
}

pub fn without_calls(alloc: Global) -> Result<Session, NoMemory> {
    Ok(Session {
        history: History::new(alloc, 0)?,
        turns: TurnCounts::default(),
        counts: Counts::default(),
        kept: 0,
        image: Remount::Image(Image::new(alloc, 16)?),
    })
}

pub fn without_image(alloc: Global, image: Remount) -> Result<Session, NoMemory> {
    Ok(Session {
        image,
        ..without_calls(alloc)?
    })
}

pub fn two_stores_and_a_load(alloc: Global) -> Result<Session, NoMemory> {
    let mut history = History::new(alloc, 3)?;
    history.push(store(0, 10, &[0xaa, 0xbb]));
    history.push(store(1, 11, &[0xcc]));
    history.push(load(2, 10, &[0xaa, 0xcc, 0x00]));
    let mut line = [0; 64];
    line[10] = 0xaa;
    line[11] = 0xcc;
    Ok(Session {
        history,
        turns: TurnCounts::default(),
        counts: served(3, 0),
        kept: 3,
        image: Remount::Image(held(alloc, 0, &line, &[0; 64])?),
    })
}

pub fn store_into_a_promotion(alloc: Global) -> Result<Session, NoMemory> {
    let mut history = History::new(alloc, 6)?;
    history.push(load(0, 0, &[0]));
    history.push(load(1, 0, &[0]));
    history.push(load(2, 0, &[0]));
    history.push(load(3, 0, &[0]));
    history.push(store(4, 320, &[0x11; 64]));
    history.push(load(5, 320, &[0x11; 2]));
    Ok(Session {
        history,
        turns: promotions(13),
        counts: Counts {
            landed: 5,
            dropped: 1,
            promoted: 1,
            ..served(4, 2)
        },
        kept: 6,
        image: Remount::Image(Image::new(alloc, 16)?),
    })
}

pub fn mark_of_a_promoted_page(alloc: Global) -> Result<Session, NoMemory> {
    let mut history = History::new(alloc, 9)?;
    history.push(load(0, 0, &[0]));
    history.push(load(1, 0, &[0]));
    history.push(load(2, 0, &[0]));
    history.push(load(3, 0, &[0]));
    history.push(store(4, 0, &[0xaa]));
    history.push(store(5, 576, &[0xbb]));
    history.push(mark(6, 0, 0, 64, Reply::Done));
    history.push(load(7, 0, &[0xaa]));
    history.push(load(8, 576, &[0xbb]));
    Ok(Session {
        history,
        turns: promotions(12),
        counts: Counts {
            landed: 7,
            promoted: 1,
            retreated: 1,
            ..served(6, 2)
        },
        kept: 9,
        image: Remount::Image(held(alloc, u64::MAX, &starts(0xaa), &starts(0xbb))?),
    })
}

// Line 9 of page 0 is marked, lines 0 and 9 are stored to, and so many posts arrive.
pub fn mark_of_a_line(alloc: Global, arrived: u32) -> Result<Session, NoMemory> {
    let mut history = History::new(alloc, 3)?;
    history.push(mark(0, 0, 9, 1, Reply::Done));
    history.push(store(1, 0, &[0xaa]));
    history.push(store(2, 576, &[0xbb]));
    Ok(Session {
        history,
        turns: TurnCounts::default(),
        counts: served(2, 0),
        kept: arrived.saturating_add(1),
        image: Remount::Image(if arrived == 0 {
            marked(alloc, 1 << 9)?
        } else {
            held(alloc, 1 << 9, &starts(0xaa), &[0; 64])?
        }),
    })
}

pub fn mark_out_of_range(alloc: Global) -> Result<Session, NoMemory> {
    let mut history = History::new(alloc, 1)?;
    history.push(mark(0, 0, 60, 5, Reply::Range));
    Ok(Session {
        history,
        kept: 1,
        ..without_calls(alloc)?
    })
}

fn wide_entry(op: Op, reply: Reply) -> Entry {
    Entry {
        event: u64::MAX,
        caller: Caller(65535),
        number: 4294967295,
        op,
        reply,
        faults: u64::MAX,
    }
}

fn turns(made: u32) -> KindTurns {
    KindTurns {
        made,
        did: made.saturating_sub(7),
    }
}

// Every form of a line, and the greatest numbers.
pub fn every_form(alloc: Global) -> Result<Session, NoMemory> {
    let wide = b"ABCDEFGHIJKLMNOPQRSTUVWXYZabcdefghijklmnopqrstuvwxyz0123456789+/";
    let page = PageNo(4294967295);
    let (from, count) = (0, 63);
    let release = Op::Release { page, from, count };
    let mut history = History::new(alloc, 6)?;
    history.push(wide_entry(
        Op::Store {
            at: 4294967295,
            bytes: Piece::from_slice(wide),
        },
        Reply::Bytes(Piece::from_slice(wide)),
    ));
    history.push(store(0, 5, &[]));
    history.push(wide_entry(Op::Verify, Reply::Spent));
    history.push(wide_entry(release, Reply::Full));
    history.push(mark(1, 2, 1, 64, Reply::Fault));
    history.push(load(2, 0, &[]));
    let image = held(alloc, u64::MAX - 1, &[0xff; 64], &[0x0a; 64])?;
    Ok(Session {
        history,
        turns: TurnCounts {
            promote: turns(4294967295),
            evict: turns(10),
            collect: turns(9),
            drain: turns(8),
        },
        counts: Counts {
            device: 18446744073709551615,
            host: 1,
            landed: 2,
            dropped: 3,
            promoted: 4,
            retreated: 5,
            reads: 6,
            programs: 7,
            seals: 8,
            erases: 9,
            faults: 18446744073709551614,
        },
        kept: 4294967295,
        image: Remount::Image(image),
    })
}
