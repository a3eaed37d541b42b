// The record of a session that is over.
ghost use Rattle.std.specs.Prelude.{◌≡◌};

use crate::log::Log;
use ff_base::Geometry;
use ff_model::{Counts, History};
use std::marker::Model;

/// The record of a session: what was answered and done, and between which event numbers. Only a core that ends makes one,
/// so its history is that of one core, and legal, and its counts are those of its history and log.
#[derive(Drop)]
pub struct Record {
    pub(crate) history: History,
    pub(crate) log: Log,
    pub(crate) counts: Counts,
    pub(crate) geometry: Geometry,
    pub(crate) from_event: u64,
    pub(crate) from_faults: u64,
    pub(crate) events: u64,
    pub(crate) kept: u32,
}

impl Model for Record {
    ghost use Rattle.ff_core.specs.Record.{RecordView};

    ghost Value = { RecordView };

    ghost use Rattle.ff_core.specs.RecordFields.{view_of, IsKept};

    ghost view = { view_of };

    ghost invariant = { IsKept };
}

impl Record {
    ghost use Rattle.ff_core.specs.Record.{IsRecordSound};

    /// The answered calls, in their order.
    pub fn history(&self) -> &History
        ensures { result.now.entries ≡ self.now.entries }
    {
        &self.history
    }

    /// The background turns, in their order.
    pub fn log(&self) -> &Log
        ensures { result.now.turns ≡ self.now.turns }
    {
        &self.log
    }

    /// What the session did.
    pub fn counts(&self) -> &Counts
        ensures { result.now ≡ self.now.counts }
    {
        &self.counts
    }

    pub fn geometry(&self) -> &Geometry
        ensures { result.now ≡ self.now.geometry }
    {
        &self.geometry
    }

    /// The event number at the opening.
    pub fn from_event(&self) -> u64
        ensures { result ≡ self.now.from_event }
    {
        self.from_event
    }

    /// The event number at the end.
    pub fn events(&self) -> u64
        ensures { result ≡ self.now.events }
    {
        self.events
    }

    /// How many entries of the history a loss of power kept: those before the first store that was lost, else all.
    pub fn kept(&self) -> u32
        ensures { result ≡ self.now.kept }
    {
        self.kept
    }

    /// What every record keeps. For the prover alone.
    pub fn known(&self)
        ensures { IsRecordSound self.now }
    {
        let _ = &self.geometry;
    }
}
