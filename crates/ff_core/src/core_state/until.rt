// A call that is driven up to an event number.
ghost use Rattle.std.specs.Prelude.{◌≡◌, ◌<◌, ◌↔◌, IsTrue, Some};
ghost use Rattle.ff_core.specs.Core.{spare_calls};
ghost use Rattle.ff_core.specs.Drives.{IsDriven, IsEvent};
ghost use Rattle.ff_core.specs.Until.{IsDrivenUntil, IsEventUntil};

use super::Core;
use super::driving::most_events;
use crate::turn::{Driven, Turn};
use ff_base::Caller;
use ff_evict::Pick;
use ff_flash::Flash;
use ff_model::Op;
use ff_policy::Tune;

// Whether the event number is the one to stop at.
fn is_stop(stop: Option<u64>, events: u64) -> bool
    ensures { IsTrue result ↔ (stop ≡ Some events) }
{
    match stop {
        Some(at) => at == events,
        None => false,
    }
}

impl<F: Flash, T: Tune, E: Pick> Core<F, T, E> {
    // One event of a call, or where the event number is `stop` the power is cut.
    #[tactic(auto, using(crate::proofs::Until::cut_event, crate::proofs::Until::until_cut))]
    fn event_until(&mut self, caller: Caller, number: u32, op: &Op, stop: Option<u64>) -> Turn
        requires spare { 0 < spare_calls self.old }
        ensures event { IsEvent self.old caller number op.now result self.new }
        ensures until { IsEventUntil stop self.old result self.new }
    {
        if is_stop(stop, self.events()) {
            self.cut_power();
            Turn::Off
        } else {
            self.event(caller, number, op)
        }
    }

    /// As `drive`, but where the event number is `stop` before one of its events, it cuts the power and answers `Off`.
    #[tactic(auto, using(crate::proofs::Driving::core_few, crate::proofs::Driving::few_blocks, crate::proofs::Driving::driven_none, crate::proofs::Until::until_none))]
    pub fn drive_until(&mut self, caller: Caller, number: u32, op: &Op, stop: Option<u64>) -> Driven
        requires spare { 0 < spare_calls self.old }
        ensures driven { IsDriven self.old caller number op.now result self.new }
        ensures until { IsDrivenUntil stop self.old caller number op.now result self.new }
    {
        self.parts_known();
        for _event in 0..most_events(self.geometry(), op) {
            match self.event_until(caller, number, op, stop) {
                Turn::Served(reply) => return Driven::Served(reply),
                Turn::Off => return Driven::Off,
                Turn::Miss(_) => {}
            }
        }
        unreachable!()
    }
}
