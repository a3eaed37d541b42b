// The evictor's order, on four frames that were given to the pages 0 to 3.
ghost use Rattle.std.specs.Prelude.{◌≡◌, ◌+◌, ◌<◌, ◌≤◌, IfOk, length, if◌then◌else◌};
ghost use Rattle.ff_evict.specs.Evictor.{IsHandInside};

use ff_base::PageNo;
use ff_evict::{Evictor, Pick, Picker};
use ff_frames::Frames;
use ff_lines::LineMask;
use ff_model::Piece;
use ff_plb::{Plb, Way};
use std::alloc::Global;
use std::test::Fail;

// The score is the number of dirty lines, and 128 more of a referred frame.
#[derive(Drop)]
struct ByDirty;

impl Pick for ByDirty {
    ghost accepts = { λ _ _ dirty. dirty ≤ 64 };

    ghost score = { λ _ referred dirty. if referred then 128 + dirty else dirty };

    fn pick(&self, referred: bool, dirty: u32) -> u16 {
        let dirty = dirty as u16;
        if referred { 128 + dirty } else { dirty }
    }
}

// Each frame's referred flag and number of dirty lines, or none where it is free.
type States = [Option<(bool, u8)>; 4];

// The frames, the page in flight, the hand, and the choice.
struct Row(States, Option<u32>, u32, Option<u32>);

const CLEAN: Option<(bool, u8)> = Some((false, 0));

const ONE_DIRTY: Option<(bool, u8)> = Some((false, 1));

const TWO_DIRTY: Option<(bool, u8)> = Some((false, 2));

const REFERRED: Option<(bool, u8)> = Some((true, 0));

const REFERRED_DIRTY: Option<(bool, u8)> = Some((true, 1));

const ROWS: [Row; 11] = [
    Row([CLEAN, CLEAN, CLEAN, CLEAN], None, 0, Some(0)),
    Row([CLEAN, CLEAN, CLEAN, CLEAN], None, 2, Some(2)),
    Row([ONE_DIRTY, CLEAN, CLEAN, ONE_DIRTY], None, 3, Some(1)),
    Row(
        [ONE_DIRTY, ONE_DIRTY, TWO_DIRTY, TWO_DIRTY],
        None,
        2,
        Some(0),
    ),
    Row(
        [REFERRED, TWO_DIRTY, ONE_DIRTY, ONE_DIRTY],
        None,
        0,
        Some(2),
    ),
    Row(
        [REFERRED, TWO_DIRTY, ONE_DIRTY, ONE_DIRTY],
        Some(2),
        0,
        Some(3),
    ),
    Row(
        [REFERRED, TWO_DIRTY, ONE_DIRTY, ONE_DIRTY],
        Some(9),
        3,
        Some(3),
    ),
    Row(
        [REFERRED_DIRTY, REFERRED, REFERRED_DIRTY, REFERRED_DIRTY],
        None,
        2,
        Some(1),
    ),
    Row([None, None, REFERRED_DIRTY, None], None, 3, Some(2)),
    Row([None, None, CLEAN, None], Some(2), 0, None),
    Row([None, None, None, None], None, 1, None),
];

// Stores to so many of the frame's lines.
fn store(frames: &mut Frames, frame: u32, lines: u8)
    requires frame { frame < length frames.old }
    requires lines { lines ≤ 64 }
    ensures { length frames.new ≡ length frames.old }
{
    for line in 0..lines {
        frames.write(frame, line, 0, &Piece::new());
    }
}

fn give_back(frames: &mut Frames, frame: u32)
    requires { frame < length frames.old }
    ensures { length frames.new ≡ length frames.old }
{
    match frames.page(frame) {
        Some(_) => frames.give(frame),
        None => {}
    }
}

fn prepare(frames: &mut Frames, frame: u32, state: Option<(bool, u8)>)
    requires { frame < length frames.old }
    ensures { length frames.new ≡ length frames.old }
{
    match state {
        Some((referred, dirty)) => {
            store(frames, frame, dirty.min(64));
            frames.refer(frame, referred);
        }
        None => give_back(frames, frame),
    }
}

fn take_all(frames: &mut Frames)
    ensures { length frames.new ≡ length frames.old }
{
    let _ = frames.take(PageNo(0));
    let _ = frames.take(PageNo(1));
    let _ = frames.take(PageNo(2));
    let _ = frames.take(PageNo(3));
}

fn frames_of(alloc: Global, states: &States) -> Result<Frames, Fail>
    ensures { IfOk result (λ frames. length frames ≡ 4) }
{
    let mut frames = Frames::new(alloc, 4)?;
    take_all(&mut frames);
    prepare(&mut frames, 0, states[0]);
    prepare(&mut frames, 1, states[1]);
    prepare(&mut frames, 2, states[2]);
    prepare(&mut frames, 3, states[3]);
    Ok(frames)
}

fn buffer_of(alloc: Global, busy: Option<u32>) -> Result<Plb, Fail> {
    let mut buffer = Plb::new(alloc, 1)?;
    match busy {
        Some(page) => buffer.begin(0, PageNo(page), 0, Way::Leaving, LineMask(0)),
        None => {}
    }
    Ok(buffer)
}

// An evictor whose hand is at the frame.
fn evictor_at(frames: &Frames, hand: u32) -> Evictor<ByDirty>
    requires { hand ≤ length frames.now }
    ensures { IsHandInside result.hand frames.now }
{
    let mut evictor = Evictor::new(Picker::new(ByDirty));
    if 0 < hand {
        evictor.chosen(frames, hand - 1);
    }
    evictor
}

fn choice_of(
    alloc: Global,
    states: &States,
    busy: Option<u32>,
    hand: u32,
) -> Result<Option<u32>, Fail> {
    let frames = frames_of(alloc, states)?;
    let buffer = buffer_of(alloc, busy)?;
    let evictor = evictor_at(&frames, hand.min(4));
    Ok(evictor.choose(&frames, &buffer))
}

#[test]
fn the_first_least_score_from_the_hand_on(rt: HostRuntime) -> Result<(), Fail> {
    for (at, Row(states, busy, hand, choice)) in ROWS.iter().enumerate() {
        assert_eq!(rt;
            choice_of(rt.alloc(), states, *busy, *hand)?,
            *choice,
            "row {at}"
        );
    }
    Ok(())
}

// So many frames, of which each is free.
fn free_frames(alloc: Global, frames: u32) -> Result<Frames, Fail> {
    Ok(Frames::new(alloc, frames.min(4))?)
}

// The hand of an evictor that chose the frame before this one.
fn hand_at(alloc: Global, frame: u32) -> Result<u32, Fail> {
    let frames = free_frames(alloc, 4)?;
    Ok(evictor_at(&frames, frame.min(frames.len())).hand())
}

fn choice_of_none(alloc: Global) -> Result<Option<u32>, Fail> {
    let frames = free_frames(alloc, 0)?;
    let buffer = Plb::new(alloc, 1)?;
    Ok(evictor_at(&frames, 0).choose(&frames, &buffer))
}

fn hands(alloc: Global) -> Result<[u32; 3], Fail> {
    Ok([hand_at(alloc, 0)?, hand_at(alloc, 3)?, hand_at(alloc, 4)?])
}

#[test]
fn the_hand_goes_round(rt: HostRuntime) -> Result<(), Fail> {
    let found = (hands(rt.alloc())?, choice_of_none(rt.alloc())?);
    let picker = Evictor::new(Picker::new(ByDirty)).into_picker();
    let score = picker.score(true, 3);
    drop(picker);
    assert_eq!(rt; (found, score), (([0, 3, 0], None), 131));
    Ok(())
}
