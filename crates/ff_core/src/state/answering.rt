// The events of calls.
ghost use Rattle.std.specs.Prelude.{◌≡◌, ◌<◌, ◌≤◌, ◌+◌, None, true, length};
ghost use Rattle.ff_base.specs.Count.{last_event, HasCountLeft};
ghost use Rattle.ff_core.specs.Core.{spare_calls};
ghost use Rattle.ff_core.specs.CoreSound.{IsCoreSound};
ghost use Rattle.ff_core.specs.Hierarchy.{flash_under};
ghost use Rattle.ff_core.specs.Misses.{MissesPage};
ghost use Rattle.ff_core.specs.Serving.{PolicyAfter, page_asked};
ghost use Rattle.ff_core.specs.EventTally.{served_by};
ghost use Rattle.ff_model.specs.Legal.{refusal};
ghost use Rattle.ff_core.specs.Turns.{IsAttempt, IsMissStep, IsTurn, answered};
ghost use Rattle.ff_core.specs.declared.turn.Turn.TheVariants.{Served};

use super::next_number;
use crate::action::Progress;
use crate::state::State;
use crate::turn::Turn;
use ff_base::{Caller, LAST_EVENT, PAGE_BYTES, PageNo};
use ff_evict::Pick;
use ff_flash::Flash;
use ff_memory::{Access, Side};
use ff_model::{Entry, Op, Reply};
use ff_policy::Tune;

impl<F: Flash, T: Tune, E: Pick> State<F, T, E> {
    // One event of a call.
    pub(crate) fn turn(&mut self, caller: Caller, number: u32, op: &Op) -> Turn
        requires sound { IsCoreSound self.old }
        requires spare { 0 < spare_calls self.old }
        ensures { IsTurn (flash_under self.old.hierarchy).on T.answers self.old caller number op.now
            result self.new }
    {
        if !self.hierarchy.is_on() {
            return Turn::Off;
        }
        match self.refusal(op) {
            Some(reply) => self.refuse(caller, number, op, reply),
            None => self.attempt(caller, number, op),
        }
    }

    fn refusal(&self, op: &Op) -> Option<Reply>
        ensures { result ≡ refusal self.now.opening.pages self.now.events op.now }
    {
        if !op.is_in_range(self.geometry.pages) {
            return Some(Reply::Range);
        }
        if self.events == LAST_EVENT {
            return Some(Reply::Spent);
        }
        None
    }

    // Answers a call, and does nothing else.
    fn refuse(&mut self, caller: Caller, number: u32, op: &Op, reply: Reply) -> Turn
        requires spare { 0 < spare_calls self.old }
        requires time { self.old.events ≤ last_event }
        ensures turn { result ≡ Served reply }
        ensures core { self.new ≡ answered self.old caller number op.now reply }
    {
        self.answer(caller, number, op, &reply);
        Turn::Served(reply)
    }

    // The history has the call's entry, and the event is over.
    fn answer(&mut self, caller: Caller, number: u32, op: &Op, reply: &Reply)
        requires spare { 0 < spare_calls self.old }
        requires time { self.old.events ≤ last_event }
        ensures { self.new ≡ answered self.old caller number op.now reply.now }
    {
        let event = self.events;
        self.history.push(Entry {
            event,
            caller,
            number,
            op: op.copy(),
            reply: reply.copy(),
            faults: self.hierarchy.faults(),
        });
        self.events = next_number(event);
    }

    // A call that isn't refused at once.
    fn attempt(&mut self, caller: Caller, number: u32, op: &Op) -> Turn
        requires sound { IsCoreSound self.old }
        requires on { (flash_under self.old.hierarchy).on ≡ true }
        requires spare { 0 < spare_calls self.old }
        requires asked { refusal self.old.opening.pages self.old.events op.now ≡ None }
        ensures { IsAttempt T.answers self.old caller number op.now result self.new }
    {
        let position = self.history.len();
        match self.hierarchy.access(op, position) {
            Access::Served(reply, side) => self.serve(caller, number, op, reply, side),
            Access::Miss(page) => self.miss(caller, number, op, page),
        }
    }

    // A call that this side served is counted and answered.
    fn serve(&mut self, caller: Caller, number: u32, op: &Op, reply: Reply, side: Side) -> Turn
        requires spare { 0 < spare_calls self.old }
        requires time { self.old.events ≤ last_event }
        requires page { page_asked op.now < length self.old.hierarchy.policy.counters }
        requires accesses { HasCountLeft self.old.hierarchy.policy.accesses }
        requires hits { HasCountLeft self.old.hierarchy.policy.hits }
        requires few { HasCountLeft (self.old.tally.device + self.old.tally.host) }
        ensures turn { result ≡ Served reply }
        ensures policy { PolicyAfter side (page_asked op.now) T.answers self.old.hierarchy.policy
            self.new.hierarchy.policy }
        ensures core { self.new ≡ record (answered self.old caller number op.now reply) {
          tally = served_by side self.old.tally;
          hierarchy = record self.old.hierarchy { policy = self.new.hierarchy.policy };
        } }
    {
        self.hierarchy.count_access(side, page_asked(op));
        self.tally.serve(side);
        self.answer(caller, number, op, &reply);
        Turn::Served(reply)
    }

    // One step for a call that missed this page.
    fn miss(&mut self, caller: Caller, number: u32, op: &Op, page: PageNo) -> Turn
        requires sound { IsCoreSound self.old }
        requires on { (flash_under self.old.hierarchy).on ≡ true }
        requires spare { 0 < spare_calls self.old }
        requires time { self.old.events < last_event }
        requires missed { MissesPage op.now page self.old.hierarchy }
        ensures { IsMissStep page self.old caller number op.now result self.new }
    {
        let action = self.hierarchy.miss_action(op, page);
        match self.hierarchy.perform(action) {
            Progress::Did(what) => {
                self.tally.count(action, what);
                self.events = next_number(self.events);
                Turn::Miss(page)
            }
            Progress::Failed => self.refuse(caller, number, op, Reply::Fault),
            Progress::Off => Turn::Off,
        }
    }
}

// The page that a call names.
fn page_asked(op: &Op) -> PageNo
    ensures { result.0 ≡ page_asked op.now }
{
    match op {
        Op::Load { at, len: _ } => PageNo(*at / PAGE_BYTES as u32),
        Op::Store { at, bytes: _ } => PageNo(*at / PAGE_BYTES as u32),
        Op::Verify => PageNo(0),
        Op::Mark {
            page,
            from: _,
            count: _,
        } => *page,
        Op::Release {
            page,
            from: _,
            count: _,
        } => *page,
    }
}
