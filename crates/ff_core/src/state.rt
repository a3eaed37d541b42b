// The parts of a session, and its opening.
ghost use Rattle.std.specs.Prelude.{◌≡◌, ◌≤◌, ◌+◌, min};
ghost use Rattle.ff_base.specs.Count.{last_event};

mod answering;
mod background;

use crate::hierarchy::Hierarchy;
use crate::log::Log;
use crate::tally::EventTally;
use ff_base::{Geometry, LAST_EVENT};
use ff_evict::Pick;
use ff_flash::Flash;
use ff_gc::FlashCounts;
use ff_model::{Counts, History, Image};
use ff_policy::Tune;
use std::marker::Model;

/// The parts of a session. An event opens what a core keeps of them and closes it again.
#[derive(Drop)]
pub struct State<F: Flash, T: Tune, E: Pick> {
    pub(crate) base: Image,
    pub(crate) geometry: Geometry,
    pub(crate) from_event: u64,
    pub(crate) from_faults: u64,
    pub(crate) from_counts: FlashCounts,
    pub(crate) history: History,
    pub(crate) events: u64,
    pub(crate) log: Log,
    pub(crate) tally: EventTally,
    pub(crate) hierarchy: Hierarchy<F, T, E>,
}

impl<F: Flash, T: Tune, E: Pick> Model for State<F, T, E> {
    ghost use Rattle.ff_model.specs.Legal.{opening_of};
    ghost use Rattle.ff_core.specs.Core.{CoreView};

    ghost Value = { CoreView T E };

    ghost view = { λ s. record {
      opening = opening_of s.base s.geometry s.from_event s.from_faults;
      geometry = s.geometry;
      from_counts = s.from_counts;
      history = s.history;
      events = s.events;
      log = s.log;
      tally = s.tally;
      hierarchy = s.hierarchy;
    } };
}

// The event number stands still at its last value.
fn next_number(event: u64) -> u64
    requires { event ≤ last_event }
    ensures { result ≡ min (event + 1) last_event }
{
    if event < LAST_EVENT { event + 1 } else { event }
}

impl<F: Flash, T: Tune, E: Pick> State<F, T, E> {
    ghost use Rattle.ff_core.specs.Core.{counts_of, spare_calls, spare_turns};
    ghost use Rattle.ff_core.specs.CoreSound.{IsCoreSound};
    ghost use Rattle.ff_core.specs.Losing.{core_off};

    pub(crate) fn spare_calls(&self) -> u32
        ensures { result ≡ spare_calls self.now }
    {
        self.history.spare()
    }

    pub(crate) fn spare_turns(&self) -> u32
        ensures { result ≡ spare_turns self.now }
    {
        self.log.spare()
    }

    // The power goes off. Nothing else changes.
    pub(crate) fn power_off(&mut self)
        ensures { self.new ≡ core_off self.old }
    {
        self.hierarchy.power_off();
    }

    // What the session did.
    pub(crate) fn counts(&self) -> Counts
        requires { IsCoreSound self.now }
        ensures { result ≡ counts_of self.now }
    {
        let flash = self.hierarchy.device.store().counts();
        Counts {
            device: self.tally.device,
            host: self.tally.host,
            landed: self.tally.landed,
            dropped: self.tally.dropped,
            promoted: self.tally.promoted,
            retreated: self.tally.retreated,
            reads: flash.reads - self.from_counts.reads,
            programs: flash.programs - self.from_counts.programs,
            seals: flash.seals - self.from_counts.seals,
            erases: flash.erases - self.from_counts.erases,
            faults: self.hierarchy.faults() - self.from_faults,
        }
    }
}
