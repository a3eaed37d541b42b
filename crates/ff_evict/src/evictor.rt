// The choice of the page that goes back to the SSD.
ghost use Rattle.std.specs.Prelude.{◌≡◌, ◌+◌, ◌%◌, ◌<◌, ◌↔◌, IsTrue, MatchOption, length};
ghost use Rattle.ff_evict.specs.Best.{IsBestOfFirst};
ghost use Rattle.ff_evict.specs.Choice.{IsChosenFrame, IsNoneToRetreat, MayRetreat, score_of, steps_after};
ghost use Rattle.ff_evict.specs.Evictor.{IsHandInside};

use crate::picker::{Pick, Picker};
use ff_frames::Frames;
use ff_plb::Plb;
use std::marker::Model;

/// The evictor chooses among the frames from its hand on, round: the frame at which the last choice left off.
#[derive(Drop)]
pub struct Evictor<E: Pick> {
    picker: Picker<E>,
    hand: u32,
}

impl<E: Pick> Model for Evictor<E> {
    ghost use Rattle.ff_evict.specs.Evictor.{EvictorView};

    ghost Value = { EvictorView E };

    ghost view = { λ e. record { hand = e.hand; picker = e.picker } };
}

// A frame, and its score.
#[derive(Clone, Copy)]
pub struct Best {
    pub frame: u32,
    pub score: u16,
}

// The frame that comes so many after the hand, round.
fn frame_after(hand: u32, steps: u32, count: u32) -> u32
    requires hand { hand < count }
    requires steps { steps < count }
    ensures frame { result < count }
    ensures steps { steps_after count hand result ≡ steps }
{
    let to_end = count - hand;
    if steps < to_end {
        hand + steps
    } else {
        steps - to_end
    }
}

fn may_retreat(frames: &Frames, busy: &Plb, frame: u32) -> bool
    requires { frame < length frames.now }
    ensures { IsTrue result ↔ MayRetreat frames.now busy.now frame }
{
    match frames.page(frame) {
        Some(page) => busy.find(page).is_none(),
        None => false,
    }
}

impl<E: Pick> Evictor<E> {
    /// The hand is at frame 0.
    pub fn new(picker: Picker<E>) -> Evictor<E>
        ensures { result ≡ record { hand = 0; picker = picker } }
    {
        Evictor { picker, hand: 0 }
    }

    fn score(&self, frames: &Frames, frame: u32) -> u16
        requires { frame < length frames.now }
        ensures { result ≡ score_of (E.score self.now.picker.pick) frames.now frame }
    {
        let dirty = frames.dirty(frame);
        self.picker
            .score(frames.referred(frame), dirty.0.count_ones())
    }

    // The better of the best so far and the frame after those seen. Of equals it is the earlier one.
    fn better(
        &self,
        frames: &Frames,
        busy: &Plb,
        frame: u32,
        seen: u32,
        best: Option<Best>,
    ) -> Option<Best>
        requires hand { self.now.hand < length frames.now }
        requires frame { frame < length frames.now }
        requires seen { steps_after (length frames.now) self.now.hand frame ≡ seen }
        requires best { IsBestOfFirst seen (E.score self.now.picker.pick)
            frames.now busy.now self.now.hand best }
        ensures { IsBestOfFirst (seen + 1) (E.score self.now.picker.pick)
            frames.now busy.now self.now.hand result }
    {
        if !may_retreat(frames, busy, frame) {
            return best;
        }
        let score = self.score(frames, frame);
        match best {
            Some(best) if best.score <= score => Some(best),
            _ => Some(Best { frame, score }),
        }
    }

    /// The frame whose page goes back: of those whose page has no entry in the buffer, the first with the least score from
    /// the hand on, round. It goes over every frame once.
    pub fn choose(&self, frames: &Frames, busy: &Plb) -> Option<u32>
        requires { IsHandInside self.now.hand frames.now }
        ensures { MatchOption result (IsNoneToRetreat frames.now busy.now)
            (IsChosenFrame (E.score self.now.picker.pick) frames.now busy.now self.now.hand) }
    {
        let count = frames.len();
        let mut best = None;
        for seen in 0..count {
            let frame = frame_after(self.hand, seen, count);
            best = self.better(frames, busy, frame, seen, best);
        }
        Some(best?.frame)
    }

    /// The frame at which the next choice begins.
    pub fn hand(&self) -> u32
        ensures { result ≡ self.now.hand }
    {
        self.hand
    }

    /// The page of this frame begins to go back: the hand moves to the frame after it, round.
    pub fn chosen(&mut self, frames: &Frames, frame: u32)
        requires { frame < length frames.now }
        ensures hand { self.new ≡ record self.old { hand = (frame + 1) % length frames.now } }
        ensures inside { self.new.hand < length frames.now }
    {
        let count = frames.len();
        self.hand = (frame + 1) % count;
    }

    /// The picker that it was made with.
    pub fn into_picker(self) -> Picker<E>
        ensures { result ≡ self.picker }
    {
        self.picker
    }
}
