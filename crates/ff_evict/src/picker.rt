// How a frame is scored: by a rule of the caller's, whose scores are at most 255.
ghost use Rattle.std.specs.Prelude.{ℕ, Bool, ◌≡◌, ◌≤◌};
ghost use Rattle.ff_base.specs.declared.numbers.TheConstants.{PAGE_LINES};
ghost use Rattle.ff_evict.specs.Picker.{KeepsScores};

use std::marker::Model;

/// A rule that scores frames. It stands for a closure from a frame's referred flag and the number of its dirty lines to
/// its score. The page of the frame with the least score goes first.
pub trait Pick {
    /// Whether it may be asked with this referred flag and number of dirty lines.
    ghost accepts: { Self → Bool → ℕ → Type 0 };

    /// The score that it gives to them.
    ghost score: { Self → Bool → ℕ → ℕ };

    /// The score of a frame, from its referred flag and the number of its dirty lines.
    fn pick(&self, referred: bool, dirty: u32) -> u16
        requires { accepts self.now referred dirty }
        ensures { result ≡ score self.now referred dirty };
}

/// A rule that can be asked about every frame and gives scores of at most 255.
#[derive(Drop)]
pub struct Picker<E: Pick> {
    pick: E,
}

impl<E: Pick> Model for Picker<E> {
    ghost use Rattle.ff_evict.specs.Picker.{PickerView, KeepsScores};

    ghost Value = { PickerView E };

    ghost view = { λ p. record { pick = p.pick } };

    ghost invariant = { λ p. KeepsScores (E.accepts p.pick) (E.score p.pick) };
}

impl<E: Pick> Picker<E> {
    pub fn new(pick: E) -> Picker<E>
        requires { KeepsScores (E.accepts pick) (E.score pick) }
        ensures { result ≡ record { pick = pick } }
    {
        Picker { pick }
    }

    /// The score of a frame, from its referred flag and the number of its dirty lines, at most 64.
    pub fn score(&self, referred: bool, dirty: u32) -> u16
        requires { dirty ≤ PAGE_LINES }
        ensures score { result ≡ E.score self.now.pick referred dirty }
        ensures small { result ≤ 255 }
    {
        self.pick.pick(referred, dirty)
    }
}
