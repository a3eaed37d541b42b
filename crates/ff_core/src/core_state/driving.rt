// A call from its first event to its answer.
ghost use Rattle.std.specs.Prelude.{◌≡◌, ◌<◌, ◌^◌};
ghost use Rattle.ff_core.specs.Core.{spare_calls};
ghost use Rattle.ff_core.specs.Drives.{IsDriven, IsEvent, most_events};
ghost use Rattle.ff_core.specs.Hierarchy.{flash_under};
ghost use Rattle.ff_core.specs.Powered.{GoesOffByCut};

use super::Core;
use crate::turn::{Driven, Turn};
use ff_base::{Caller, Geometry};
use ff_evict::Pick;
use ff_flash::Flash;
use ff_model::Op;
use ff_policy::Tune;

pub(super) fn most_events(geometry: &Geometry, op: &Op) -> u32
    requires { geometry.now.per_block < 2 ^ 20 }
    ensures { result ≡ most_events geometry.now op.now }
{
    match op {
        Op::Load { at: _, len: _ } => 8 * geometry.per_block + 200,
        Op::Store { at: _, bytes: _ } => 8 * geometry.per_block + 200,
        Op::Mark {
            page: _,
            from: _,
            count: _,
        } => 3 * (8 * geometry.per_block + 400),
        Op::Verify => 1,
        Op::Release {
            page: _,
            from: _,
            count: _,
        } => 1,
    }
}

impl<F: Flash, T: Tune, E: Pick> Core<F, T, E> {
    // One event of a call.
    pub(super) fn event(&mut self, caller: Caller, number: u32, op: &Op) -> Turn
        requires spare { 0 < spare_calls self.old }
        ensures event { IsEvent self.old caller number op.now result self.new }
        ensures power { GoesOffByCut (flash_under self.old.hierarchy)
            (flash_under self.new.hierarchy) }
    {
        self.parts_known();
        let turn = self.turn(caller, number, op);
        self.parts_known();
        turn
    }

    /// Makes the events of a call until it is answered or the power is off. It takes no memory.
    #[tactic(auto, using(crate::proofs::Driving::core_few, crate::proofs::Driving::few_blocks, crate::proofs::Driving::driven_none))]
    pub fn drive(&mut self, caller: Caller, number: u32, op: &Op) -> Driven
        requires spare { 0 < spare_calls self.old }
        ensures driven { IsDriven self.old caller number op.now result self.new }
        ensures power { GoesOffByCut (flash_under self.old.hierarchy)
            (flash_under self.new.hierarchy) }
    {
        self.parts_known();
        for _event in 0..most_events(self.geometry(), op) {
            match self.event(caller, number, op) {
                Turn::Served(reply) => return Driven::Served(reply),
                Turn::Off => return Driven::Off,
                Turn::Miss(_) => {}
            }
        }
        unreachable!()
    }
}
