// Taking, storing to and giving back, on two frames.
use ff_base::{LINE_BYTES, PageNo};
use ff_frames::Frames;
use ff_model::Piece;
use std::test::Fail;

// How many frames there are and are free, and whether none is.
fn fullness(frames: &Frames) -> (u32, u32, bool) {
    (frames.len(), frames.free(), frames.is_full())
}

fn take(frames: &mut Frames, page: u32) -> Option<u32> {
    frames.take(PageNo(page))
}

fn taken(frames: &mut Frames) -> [Option<u32>; 3] {
    [take(frames, 7), take(frames, 8), take(frames, 9)]
}

// Whether a frame is given back, since it is taken.
fn is_given_back(frames: &mut Frames, frame: u32) -> bool {
    if frame >= frames.len() || frames.page(frame).is_none() {
        return false;
    }
    frames.give(frame);
    true
}

// The page, the dirty lines and the referred flag of a frame.
fn state(frames: &Frames, frame: u32) -> Option<(Option<PageNo>, u64, bool)> {
    if frame >= frames.len() {
        return None;
    }
    let dirty = frames.dirty(frame);
    Some((frames.page(frame), dirty.0, frames.referred(frame)))
}

// Line 3 of frame 1, after a change.
fn line_after(frames: &mut Frames, change: Change) -> Option<[u8; LINE_BYTES]> {
    if frames.len() < 2 {
        return None;
    }
    match change {
        Change::Store => frames.write(1, 3, 62, &Piece::from_slice(b"ab")),
        Change::Refer => frames.refer(1, true),
        Change::Fill => frames.fill(1, 3, &[7; LINE_BYTES]),
        Change::Clean => frames.clean(1, 3),
    }
    Some(frames.line(1, 3))
}

/// What is done to line 3 of frame 1: two bytes are stored at its end, the frame is referred to, the line is filled with
/// sevens, or it is cleaned.
#[derive(Clone, Copy)]
enum Change {
    Store,
    Refer,
    Fill,
    Clean,
}

#[test]
fn the_least_free_frame_is_taken(rt: HostRuntime) -> Result<(), Fail> {
    let mut frames = Frames::new(rt.alloc(), 2)?;
    let before = fullness(&frames);
    let taken = taken(&mut frames);
    let full = fullness(&frames);
    let given = is_given_back(&mut frames, 0);
    let left = (fullness(&frames), state(&frames, 0));
    let again = take(&mut frames, 5);
    drop(frames);
    assert_eq!(rt; [before, full], [(2, 2, false), (2, 0, true)]);
    assert_eq!(rt; (taken, again), ([Some(0), Some(1), None], Some(0)));
    assert_eq!(rt;
        (given, left),
        (true, ((2, 1, false), Some((None, 0, false))))
    );
    Ok(())
}

// Changes, the first 62 bytes of the line and its last two, its frame's dirty lines, and whether the frame is referred to.
static CHANGES: [(Change, u8, [u8; 2], u64, bool); 4] = [
    (Change::Store, 0, *b"ab", 0b1000, false),
    (Change::Refer, 0, *b"ab", 0b1000, true),
    (Change::Fill, 7, [7, 7], 0b1000, true),
    (Change::Clean, 7, [7, 7], 0, true),
];

fn line_of(first: u8, last: [u8; 2]) -> [u8; LINE_BYTES] {
    let mut line = [first; LINE_BYTES];
    line[62] = last[0];
    line[63] = last[1];
    line
}

// The first change after which the line or its frame is otherwise.
fn first_other(frames: &mut Frames) -> Option<usize> {
    for (number, (change, first, last, dirty, referred)) in CHANGES.iter().enumerate() {
        let line = line_after(frames, *change);
        let wanted = Some((Some(PageNo(8)), *dirty, *referred));
        if line != Some(line_of(*first, *last)) || state(frames, 1) != wanted {
            return Some(number);
        }
    }
    None
}

#[test]
fn a_stored_line_is_dirty(rt: HostRuntime) -> Result<(), Fail> {
    let mut frames = Frames::new(rt.alloc(), 2)?;
    let _ = take(&mut frames, 7);
    let _ = take(&mut frames, 8);
    let other = first_other(&mut frames);
    let first = state(&frames, 0);
    drop(frames);
    assert_eq!(rt; (other, first), (None, Some((Some(PageNo(7)), 0, false))));
    Ok(())
}
