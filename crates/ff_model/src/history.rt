// The answered calls of a session.
ghost use Rattle.std.specs.Prelude.{◌≡◌, ◌<◌, ◌-◌, ◌++◌, ◌∷◌, [], IfOk, IsTrue, ◌↔◌, length};
ghost use Rattle.std.specs.Option.{option_copied};
ghost use Rattle.std.specs.Prelude.{slice_get};

use crate::{Op, Reply};
use ff_base::{Caller, NoMemory};
use std::alloc::Global;
use std::marker::Model;

/// A call that was answered.
#[derive(Debug, Drop, PartialEq, Eq)]
pub struct Entry {
    /// The event number at the start of the call's last event.
    pub event: u64,
    pub caller: Caller,
    /// The call's number among those of its caller, from 0.
    pub number: u32,
    pub op: Op,
    pub reply: Reply,
    /// How often the flash had failed after the event, over its whole life.
    pub faults: u64,
}

/// The answered calls of a session, in their order, with room for a number of them.
#[derive(Drop)]
pub struct History {
    entries: Vec<Entry>,
    room: u32,
}

impl Model for History {
    ghost use Rattle.std.specs.Prelude.{◌≤◌, vec_len, vec_capacity};
    ghost use Rattle.ff_model.specs.History.{Entries};

    ghost Value = { Entries };

    ghost view = { λ h. record { entries = h.entries.items; room = h.room } };

    ghost invariant = { λ h. (vec_len h.entries ≤ h.room) × (h.room ≤ vec_capacity h.entries) };
}

impl History {
    /// An empty history with room for so many entries.
    pub fn new(alloc: Global, room: u32) -> Result<History, NoMemory>
        ensures { IfOk result (λ history. history ≡ record { entries = []; room = room }) }
    {
        let entries = Vec::with_capacity(alloc, room as usize)?;
        Ok(History { entries, room })
    }

    /// Appends an entry. It takes no memory.
    pub fn push(&mut self, entry: Entry)
        requires { length self.old.entries < self.old.room }
        ensures { self.new ≡ record self.old { entries = self.old.entries ++ entry ∷ [] } }
    {
        self.entries.push_reserved(entry);
    }

    pub fn len(&self) -> u32
        ensures { result ≡ length self.now.entries }
    {
        let _room = self.room;
        self.entries.len() as u32
    }

    /// For how many more entries there is room.
    pub fn spare(&self) -> u32
        ensures { result ≡ self.now.room - length self.now.entries }
    {
        self.room - self.len()
    }

    pub fn is_empty(&self) -> bool
        ensures { IsTrue result ↔ (self.now.entries ≡ []) }
    {
        self.entries.is_empty()
    }

    /// The entry at a position, from 0.
    pub fn get(&self, at: u32) -> Option<&Entry>
        ensures { option_copied result ≡ slice_get self.now.entries at }
    {
        self.entries.get(at as usize)
    }

    /// All entries, in their order.
    pub fn as_slice(&self) -> &[Entry]
        ensures { result.now ≡ self.now.entries }
    {
        self.entries.as_slice()
    }
}
