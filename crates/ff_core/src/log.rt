// The background turns of a session.
ghost use Rattle.std.specs.Prelude.{◌≡◌, ◌<◌, ◌-◌, ◌++◌, ◌∷◌, ◌↔◌, [], length, IfOk, IsTrue, slice_get, option_copied};
ghost use Rattle.ff_core.specs.Log.{is_did, no_turns, turn_counts};

use ff_base::NoMemory;
use ff_memory::What;
use ff_model::{Kind, KindTurns, TurnCounts};
use std::alloc::Global;
use std::marker::Model;

/// What a background turn came to.
#[derive(Clone, Copy, Debug, PartialEq, Eq)]
pub enum Back {
    Did(What),
    /// There was nothing to do.
    Idle,
    /// An operation of the flash failed.
    Failed,
    /// The power is off.
    Off,
    /// The last event number is reached.
    Spent,
}

/// A background turn that was made.
#[derive(Clone, Copy, Debug, PartialEq, Eq)]
pub struct Turned {
    pub kind: Kind,
    pub answer: Back,
    /// How many calls had been answered when it was made.
    pub calls: u32,
}

/// The background turns of a session but those that were answered `Off`, in their order, with room for a number of them.
#[derive(Drop)]
pub struct Log {
    turns: Vec<Turned>,
    room: u32,
}

impl Model for Log {
    ghost use Rattle.std.specs.Prelude.{◌≤◌, vec_len, vec_capacity};
    ghost use Rattle.ff_core.specs.Log.{LogView};

    ghost Value = { LogView };

    ghost view = { λ l. record { turns = l.turns.items; room = l.room } };

    ghost invariant = { λ l. (vec_len l.turns ≤ l.room) × (l.room ≤ vec_capacity l.turns) };
}

impl Log {
    /// An empty log with room for so many turns.
    pub fn new(alloc: Global, room: u32) -> Result<Log, NoMemory>
        ensures { IfOk result (λ log. log ≡ record { turns = []; room = room }) }
    {
        let turns = Vec::with_capacity(alloc, room as usize)?;
        Ok(Log { turns, room })
    }

    /// Appends a turn. It takes no memory.
    pub fn push(&mut self, turn: Turned)
        requires { length self.old.turns < self.old.room }
        ensures { self.new ≡ record self.old { turns = self.old.turns ++ turn ∷ [] } }
    {
        self.turns.push_reserved(turn);
    }

    pub fn len(&self) -> u32
        ensures { result ≡ length self.now.turns }
    {
        let _room = self.room;
        self.turns.len() as u32
    }

    /// For how many more turns there is room.
    pub fn spare(&self) -> u32
        ensures { result ≡ self.now.room - length self.now.turns }
    {
        self.room - self.len()
    }

    pub fn is_empty(&self) -> bool
        ensures { IsTrue result ↔ (self.now.turns ≡ []) }
    {
        self.turns.is_empty()
    }

    /// The turn at a position, from 0.
    pub fn get(&self, at: u32) -> Option<&Turned>
        ensures { option_copied result ≡ slice_get self.now.turns at }
    {
        self.turns.get(at as usize)
    }

    /// How many turns of each kind were made, and how many of those did something.
    pub fn turn_counts(&self) -> TurnCounts
        ensures { result ≡ turn_counts self.now.turns }
    {
        let _len = self.len();
        let mut counts = no_turns();
        for turn in self.as_slice() {
            counts.add(turn.kind, is_did(turn.answer));
        }
        counts
    }

    /// All turns, in their order.
    pub fn as_slice(&self) -> &[Turned]
        ensures { result.now ≡ self.now.turns }
    {
        self.turns.as_slice()
    }
}

fn no_turns() -> TurnCounts
    ensures { result ≡ no_turns }
{
    let none = KindTurns { made: 0, did: 0 };
    TurnCounts {
        promote: none,
        evict: none,
        collect: none,
        drain: none,
    }
}

fn is_did(answer: Back) -> bool
    ensures { result ≡ is_did answer }
{
    matches!(answer, Back::Did(_))
}
