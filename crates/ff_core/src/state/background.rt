// The events of background turns.
ghost use Rattle.std.specs.Prelude.{◌≡◌, ◌<◌, ◌≤◌, Some, true};
ghost use Rattle.ff_base.specs.Count.{last_event};
ghost use Rattle.ff_core.specs.Backs.{IsBack, IsPerformed, back_of, rested, turned_now, with_logged};
ghost use Rattle.ff_core.specs.Choices.{IsChoice};
ghost use Rattle.ff_core.specs.Core.{next_number, spare_turns};
ghost use Rattle.ff_core.specs.CoreSound.{IsCoreSound};
ghost use Rattle.ff_core.specs.Hierarchy.{flash_under};
ghost use Rattle.ff_core.specs.declared.action.Progress.TheVariants.{Did};

use super::next_number;
use crate::action::{Action, Progress};
use crate::log::{Back, Turned};
use crate::state::State;
use ff_base::LAST_EVENT;
use ff_evict::Pick;
use ff_flash::Flash;
use ff_memory::What;
use ff_model::Kind;
use ff_policy::Tune;

impl<F: Flash, T: Tune, E: Pick> State<F, T, E> {
    // A background turn.
    pub(crate) fn back(&mut self, kind: Kind) -> Back
        requires sound { IsCoreSound self.old }
        requires spare { 0 < spare_turns self.old }
        ensures { IsBack (flash_under self.old.hierarchy).on E.score kind self.old result self.new }
    {
        if !self.hierarchy.is_on() {
            return Back::Off;
        }
        if self.events == LAST_EVENT {
            return self.rest(kind, Back::Spent);
        }
        match self.hierarchy.choice(kind) {
            Some(action) => self.act(kind, action),
            None => self.rest(kind, Back::Idle),
        }
    }

    // Keeps a turn in the log.
    fn rest(&mut self, kind: Kind, answer: Back) -> Back
        requires spare { 0 < spare_turns self.old }
        ensures back { result ≡ answer }
        ensures core { self.new ≡ rested self.old kind answer }
    {
        let calls = self.history.len();
        self.log.push(Turned {
            kind,
            answer,
            calls,
        });
        answer
    }

    // Performs what a turn chose.
    fn act(&mut self, kind: Kind, action: Action) -> Back
        requires sound { IsCoreSound self.old }
        requires on { (flash_under self.old.hierarchy).on ≡ true }
        requires spare { 0 < spare_turns self.old }
        requires time { self.old.events < last_event }
        requires choice { IsChoice E.score kind self.old.hierarchy (Some action) }
        ensures { IsPerformed action kind self.old result self.new }
    {
        match self.hierarchy.perform(action) {
            Progress::Did(what) => {
                self.tally.count(action, what);
                self.end(kind, did(action, what))
            }
            Progress::Failed => self.end(kind, Back::Failed),
            Progress::Off => Back::Off,
        }
    }

    // The event is over.
    fn end(&mut self, kind: Kind, answer: Back) -> Back
        requires spare { 0 < spare_turns self.old }
        requires time { self.old.events ≤ last_event }
        ensures back { result ≡ answer }
        ensures core { self.new ≡ record self.old {
          events = next_number self.old.events;
          log = with_logged (turned_now self.old kind answer) self.old.log;
        } }
    {
        self.events = next_number(self.events);
        self.rest(kind, answer)
    }
}

// A step of work is one, also where another page made its step for it.
fn did(action: Action, what: What) -> Back
    ensures { result ≡ back_of action (Did what) }
{
    match action {
        Action::Work(_) => Back::Did(What::Worked),
        _ => Back::Did(what),
    }
}
