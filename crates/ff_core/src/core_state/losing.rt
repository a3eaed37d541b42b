// How a session ends by a loss of power.
ghost use Rattle.std.specs.Prelude.{◌≡◌};
ghost use Rattle.ff_flash.specs.FlashState.{powered_off};
ghost use Rattle.ff_lines.specs.DeviceState.{IsDevice};
ghost use Rattle.ff_memory.specs.Memory.{IsMemorySound};
ghost use Rattle.ff_policy.specs.Policy.{IsPolicySound};
ghost use Rattle.ff_store.specs.PageStore.{IsStoreSound};
ghost use Rattle.ff_core.specs.Account.{IsAccountOf, start_of};
ghost use Rattle.ff_core.specs.CoreSound.{IsCoreSound};
ghost use Rattle.ff_core.specs.Hierarchy.{flash_under, lines_under};
ghost use Rattle.ff_core.specs.Losing.{IsLossOf, core_off, kept_after};
ghost use Rattle.ff_core.specs.Record.{record_of};

use super::Core;
use crate::account::Record;
use crate::state::State;
use ff_cache::Nv;
use ff_evict::{Pick, Picker};
use ff_flash::Flash;
use ff_model::Image;
use ff_policy::{Tune, Tuner};

/// What a session leaves at a loss of power: the image that it started from, its record, what the battery keeps, its
/// flash, and what its policy was made with.
#[derive(Drop)]
pub struct Lost<F: Flash, T: Tune, E: Pick> {
    pub base: Image,
    pub account: Record,
    pub nv: Nv,
    pub flash: F,
    pub tuner: Tuner<T>,
    pub picker: Picker<E>,
}

impl<F: Flash, T: Tune, E: Pick> Core<F, T, E> {
    /// Turns the power off between two events. Nothing else changes.
    pub fn cut_power(&mut self)
        ensures { self.new ≡ core_off self.old }
    {
        self.parts_known();
        self.state.power_off();
    }

    /// Ends the session by a loss of power, at which the oldest `arrive` of the waiting posts arrive and the others are
    /// lost. It takes no memory.
    pub fn power(self, arrive: u32) -> Lost<F, T, E>
        ensures base { result.base ≡ self.opening.base }
        ensures account { result.account ≡ record_of self (kept_after self arrive) }
        ensures flash { F.state result.flash ≡ powered_off (flash_under self.hierarchy) }
        ensures tuner { result.tuner ≡ self.hierarchy.policy.tuner }
        ensures picker { result.picker ≡ self.hierarchy.evictor.picker }
        ensures good { IsAccountOf self.geometry self.hierarchy.policy.tuner.floor (start_of self)
            result.account (F.state result.flash) }
        ensures lost { IsLossOf self.geometry self.opening.base arrive result.account result.nv
            (F.state result.flash) }
    {
        self.parts_known();
        self.ledgers_known();
        lose(self.state, arrive)
    }

    // What the store and the policy of every core keep. For the prover alone.
    fn ledgers_known(&self)
        ensures store { IsStoreSound self.now.hierarchy.device.store }
        ensures policy { IsPolicySound self.now.hierarchy.policy }
    {
        self.state.hierarchy.device.store().known();
        self.state.hierarchy.policy.known();
    }
}

fn lose<F: Flash, T: Tune, E: Pick>(state: State<F, T, E>, arrive: u32) -> Lost<F, T, E>
    requires sound { IsCoreSound state }
    requires memory { IsMemorySound state.hierarchy.memory }
    requires device { IsDevice (lines_under state.hierarchy) }
    ensures base { result.base ≡ state.opening.base }
    ensures account { result.account ≡ record_of state (kept_after state arrive) }
    ensures flash { F.state result.flash ≡ powered_off (flash_under state.hierarchy) }
    ensures tuner { result.tuner ≡ state.hierarchy.policy.tuner }
    ensures picker { result.picker ≡ state.hierarchy.evictor.picker }
    ensures lost { IsLossOf state.geometry state.opening.base arrive result.account result.nv
        (F.state result.flash) }
{
    let counts = state.counts();
    let entries = state.history.len();
    let mut hierarchy = state.hierarchy;
    let kept = hierarchy.lose_power(arrive, entries);
    let left = hierarchy.into_left();
    Lost {
        base: state.base,
        account: Record {
            history: state.history,
            log: state.log,
            counts,
            geometry: state.geometry,
            from_event: state.from_event,
            from_faults: state.from_faults,
            events: state.events,
            kept,
        },
        nv: left.nv,
        flash: left.flash,
        tuner: left.tuner,
        picker: left.picker,
    }
}
