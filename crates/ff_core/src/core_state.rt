// A core: a session whose history is legal after every event.
ghost use Rattle.std.specs.Prelude.{◌≡◌, ◌<◌, ◌^◌, MatchResult};
ghost use Rattle.ff_base.specs.Geometry.{IsWithinLimits};
ghost use Rattle.ff_lines.specs.DeviceState.{IsDevice};
ghost use Rattle.ff_memory.specs.Memory.{IsMemorySound};
ghost use Rattle.ff_model.specs.Legal.{IsLegal};
ghost use Rattle.ff_model.specs.declared.counts.Kind.TheVariants.{Promote, Evict, Collect, Drain};
ghost use Rattle.ff_core.specs.BackEvents.{IsBackEvent};
ghost use Rattle.ff_core.specs.Backs.{IsBack};
ghost use Rattle.ff_core.specs.Core.{counts_of, spare_calls, spare_turns};
ghost use Rattle.ff_core.specs.CoreSound.{IsCoreSound};
ghost use Rattle.ff_core.specs.Fresh.{IsFreshFlash, fresh_core};
ghost use Rattle.ff_core.specs.Hierarchy.{flash_under, lines_under};
ghost use Rattle.ff_core.specs.Powered.{GoesOffByCut};
ghost use Rattle.ff_core.specs.Turns.{IsTurn};

mod driving;
mod losing;
mod resuming;
mod until;

use crate::fresh::{FreshBack, fresh_state};
use crate::log::{Back, Log};
use crate::state::State;
use crate::turn::Turn;
use ff_base::{Caller, Geometry, PageNo};
use ff_evict::{Pick, Picker};
use ff_flash::Flash;
use ff_lines::LineDevice;
use ff_model::{Counts, History, Kind, Op};
use ff_policy::{Tune, Tuner};
pub use losing::Lost;
use std::alloc::Global;
use std::marker::Model;

/// For how many calls and background turns a core has room.
#[derive(Clone, Copy, Debug, PartialEq, Eq)]
pub struct Room {
    pub calls: u32,
    pub turns: u32,
}

impl Room {
    // Its numbers fit their types. For the prover alone.
    fn known(self)
        ensures calls { self.calls < 2 ^ 32 }
        ensures turns { self.turns < 2 ^ 32 }
    {
        let _calls = self.calls;
        let _turns = self.turns;
    }
}

/// A session over a hierarchy: the history of its answered calls, the log of its background turns, and its counts.
#[derive(Drop)]
pub struct Core<F: Flash, T: Tune, E: Pick> {
    state: State<F, T, E>,
}

impl<F: Flash, T: Tune, E: Pick> Model for Core<F, T, E> {
    ghost use Rattle.ff_core.specs.Core.{CoreView};
    ghost use Rattle.ff_core.specs.CoreSound.{IsCoreSound};

    ghost Value = { CoreView T E };

    ghost view = { λ c. c.state };

    ghost invariant = { λ c. IsCoreSound c.state };
}

impl<F: Flash, T: Tune, E: Pick> Core<F, T, E> {
    /// A first session, over a flash of which every page is erased: nothing is stored, and the event number is 0. The
    /// error is want of memory, and hands the arguments back.
    pub fn fresh(
        alloc: Global,
        flash: F,
        geometry: Geometry,
        tuner: Tuner<T>,
        picker: Picker<E>,
        room: Room,
    ) -> Result<Core<F, T, E>, FreshBack<F, T, E>>
        requires limits { IsWithinLimits geometry }
        requires flash { IsFreshFlash geometry (F.state flash) }
        ensures { MatchResult result
            (λ core. core ≡ fresh_core (F.state flash) geometry tuner picker room)
            (λ back. back ≡ record { flash = flash; tuner = tuner; picker = picker }) }
    {
        room.known();
        match fresh_state(alloc, flash, geometry, tuner, picker, room) {
            Ok(state) => Ok(Core { state }),
            Err(back) => Err(back),
        }
    }

    /// One event of a call, with at most one flash operation. It takes no memory. With the power off it does nothing.
    pub fn turn(&mut self, caller: Caller, number: u32, op: &Op) -> Turn
        requires spare { 0 < spare_calls self.old }
        ensures { IsTurn (flash_under self.old.hierarchy).on T.answers self.old caller number op.now
            result self.new }
    {
        self.parts_known();
        self.state.turn(caller, number, op)
    }

    /// Moves hot pages into frames, a step at a time. A background turn makes the one choice of its kind, and answers
    /// `Idle` exactly where there is none.
    pub fn promote_turn(&mut self) -> Back
        requires spare { 0 < spare_turns self.old }
        ensures back { IsBack (flash_under self.old.hierarchy).on E.score Promote self.old result
            self.new }
        ensures event { IsBackEvent self.old Promote result self.new }
        ensures power { GoesOffByCut (flash_under self.old.hierarchy)
            (flash_under self.new.hierarchy) }
    {
        self.parts_known();
        self.state.back(Kind::Promote)
    }

    /// Moves pages back to the device, a step at a time.
    pub fn evict_turn(&mut self) -> Back
        requires spare { 0 < spare_turns self.old }
        ensures back { IsBack (flash_under self.old.hierarchy).on E.score Evict self.old result
            self.new }
        ensures event { IsBackEvent self.old Evict result self.new }
        ensures power { GoesOffByCut (flash_under self.old.hierarchy)
            (flash_under self.new.hierarchy) }
    {
        self.parts_known();
        self.state.back(Kind::Evict)
    }

    /// Seals a flush that waits, or makes a step of the collector.
    pub fn collect_turn(&mut self) -> Back
        requires spare { 0 < spare_turns self.old }
        ensures back { IsBack (flash_under self.old.hierarchy).on E.score Collect self.old result
            self.new }
        ensures event { IsBackEvent self.old Collect result self.new }
        ensures power { GoesOffByCut (flash_under self.old.hierarchy)
            (flash_under self.new.hierarchy) }
    {
        self.parts_known();
        self.state.back(Kind::Collect)
    }

    /// Drains the oldest posted store.
    pub fn drain_turn(&mut self) -> Back
        requires spare { 0 < spare_turns self.old }
        ensures back { IsBack (flash_under self.old.hierarchy).on E.score Drain self.old result
            self.new }
        ensures event { IsBackEvent self.old Drain result self.new }
        ensures power { GoesOffByCut (flash_under self.old.hierarchy)
            (flash_under self.new.hierarchy) }
    {
        self.parts_known();
        self.state.back(Kind::Drain)
    }

    /// What every core keeps. For the prover alone.
    pub fn known(&self)
        ensures { IsCoreSound self.now }
    {
        let _ = &self.state.geometry;
    }

    // What the parts of every core keep. For the prover alone.
    fn parts_known(&self)
        ensures sound { IsCoreSound self.now }
        ensures memory { IsMemorySound self.now.hierarchy.memory }
        ensures device { IsDevice (lines_under self.now.hierarchy) }
    {
        self.state.hierarchy.memory.known();
        let _ = self.state.hierarchy.device.resident(PageNo(0));
    }

    /// The event number.
    pub fn events(&self) -> u64
        ensures { result ≡ self.now.events }
    {
        self.state.events
    }

    /// For how many more calls there is room.
    pub fn spare_calls(&self) -> u32
        ensures { result ≡ spare_calls self.now }
    {
        self.state.spare_calls()
    }

    /// For how many more background turns there is room.
    pub fn spare_turns(&self) -> u32
        ensures { result ≡ spare_turns self.now }
    {
        self.state.spare_turns()
    }

    /// The answered calls, in their order.
    pub fn history(&self) -> &History
        ensures entries { result.now ≡ self.now.history }
        ensures legal { IsLegal self.now.opening self.now.history.entries }
    {
        &self.state.history
    }

    /// The background turns, in their order.
    pub fn log(&self) -> &Log
        ensures { result.now ≡ self.now.log }
    {
        &self.state.log
    }

    /// What the session did. Flash operations and failures are those since its opening.
    pub fn counts(&self) -> Counts
        ensures { result ≡ counts_of self.now }
    {
        self.state.counts()
    }

    pub fn geometry(&self) -> &Geometry
        ensures { result.now ≡ self.now.geometry }
    {
        &self.state.geometry
    }

    /// The flash, to be looked at.
    pub fn flash(&self) -> &F
        ensures { F.state result.now ≡ flash_under self.now.hierarchy }
    {
        self.state.hierarchy.device.store().flash()
    }

    /// The least threshold at which the policy calls a page hot.
    pub fn floor(&self) -> u8
        ensures { result ≡ self.now.hierarchy.policy.tuner.floor }
    {
        self.state.hierarchy.policy.floor()
    }
}
