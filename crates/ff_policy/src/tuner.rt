// How the threshold of hot pages follows the accesses: by a rule of the caller's, with a floor that no answer is below.
ghost use Rattle.std.specs.Prelude.{ℕ, ◌≡◌, ◌≤◌};
ghost use Rattle.ff_policy.specs.Tuner.{IsAsked, KeepsFloor};

use std::marker::Model;

/// A rule for the threshold. It stands for a closure from host hits, device accesses and threshold to the next
/// threshold.
pub trait Tune {
    /// Whether it may be asked with these hits, accesses and threshold.
    ghost accepts: { Self → ℕ → ℕ → ℕ → Type 0 };

    /// What it may answer to them.
    ghost answers: { Self → ℕ → ℕ → ℕ → ℕ → Type 0 };

    /// The next threshold, from the host hits and the device accesses since the last step and the threshold before.
    fn tune(&self, hits: u64, accesses: u64, threshold: u8) -> u8
        requires { accepts self.now hits accesses threshold }
        ensures { answers self.now hits accesses threshold result };
}

/// A rule for the threshold that can be asked at every step and answers no less than its floor.
#[derive(Drop)]
pub struct Tuner<T: Tune> {
    floor: u8,
    start: u8,
    tune: T,
}

impl<T: Tune> Model for Tuner<T> {
    ghost use Rattle.ff_policy.specs.Tuner.{TunerView, KeepsFloor};

    ghost Value = { TunerView T };

    ghost view = { λ t. record { floor = t.floor; start = t.start; tune = t.tune } };

    ghost invariant = { λ t. KeepsFloor t.floor t.start (T.accepts t.tune) (T.answers t.tune) };
}

impl<T: Tune> Tuner<T> {
    /// A tuner whose threshold begins at `start`.
    pub fn new(floor: u8, start: u8, tune: T) -> Tuner<T>
        requires { KeepsFloor floor start (T.accepts tune) (T.answers tune) }
        ensures { result ≡ record { floor = floor; start = start; tune = tune } }
    {
        Tuner { floor, start, tune }
    }

    /// The next threshold.
    pub fn next(&self, hits: u64, accesses: u64, threshold: u8) -> u8
        requires { IsAsked self.now.floor hits accesses threshold }
        ensures answer { T.answers self.now.tune hits accesses threshold result }
        ensures floor { self.now.floor ≤ result }
    {
        self.tune.tune(hits, accesses, threshold)
    }

    /// The least threshold, at least 1.
    pub fn floor(&self) -> u8
        ensures floor { result ≡ self.now.floor }
        ensures kept { KeepsFloor self.now.floor self.now.start (T.accepts self.now.tune)
            (T.answers self.now.tune) }
    {
        self.floor
    }

    /// The threshold to begin with.
    pub fn start(&self) -> u8
        ensures { result ≡ self.now.start }
    {
        self.start
    }
}
