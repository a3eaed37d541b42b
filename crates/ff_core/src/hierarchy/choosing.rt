// The choices of the background turns, and what is done for a call that missed.
ghost use Rattle.std.specs.Prelude.{◌≡◌, ◌<◌, ℕ, length, MatchOption, IsTrue, ◌↔◌};
ghost use Rattle.ff_evict.specs.Evictor.{IsHandInside};
ghost use Rattle.ff_policy.specs.Counters.{AreCounted};
ghost use Rattle.ff_core.specs.Choices.{CollectChoice, DrainChoice, EvictChoice, IsChoice, IsLeastAmong, IsLeastPromotable, IsLesser, IsNextSlot, IsNoneMoving, IsPromotable, PromoteChoice};
ghost use Rattle.ff_core.specs.Misses.{IsActionAtRest, IsMarkAction, IsMissAction, MissesPage, action_in_flight};
ghost use Rattle.ff_plb.specs.Plb.{HasEntry, IsInUse};
ghost use Rattle.ff_plb.specs.declared.slot.Slot.{Slot};
ghost use Rattle.ff_plb.specs.declared.slot.Way.TheVariants.{Leaving};

use crate::action::Action;
use crate::hierarchy::Hierarchy;
use crate::next::next_slot;
use ff_base::PageNo;
use ff_evict::Pick;
use ff_flash::Flash;
use ff_lines::LineDevice;
use ff_model::{Kind, Op};
use ff_plb::Way;
use ff_policy::Tune;

impl<F: Flash, T: Tune, E: Pick> Hierarchy<F, T, E> {
    // What a background turn does, or nothing.
    pub(crate) fn choice(&self, kind: Kind) -> Option<Action>
        requires counters { length self.now.policy.counters ≡ length self.now.memory.table.homes }
        requires hand { IsHandInside self.now.evictor.hand self.now.memory.frames }
        ensures { IsChoice E.score kind self.now result }
    {
        match kind {
            Kind::Promote => self.promote_choice(),
            Kind::Evict => self.evict_choice(),
            Kind::Collect => self.collect_choice(),
            Kind::Drain => self.drain_choice(),
        }
    }

    // The slot whose page makes the next step of those that go this way.
    fn next_slot(&self, way: Way) -> Option<u32>
        ensures { MatchOption result (IsNoneMoving way self.now.memory.slots)
            (IsNextSlot way self.now.memory.slots) }
    {
        next_slot(self.memory.plb(), way)
    }

    fn promote_choice(&self) -> Option<Action>
        requires counters { length self.now.policy.counters ≡ length self.now.memory.table.homes }
        ensures { PromoteChoice self.now result }
    {
        match self.next_slot(Way::Coming) {
            Some(slot) => Some(Action::Advance(slot)),
            None => match self.promotable() {
                Some(page) => Some(Action::Promote(page)),
                None => None,
            },
        }
    }

    // Whether the page may come in, and is hot.
    fn is_promotable(&self, page: PageNo) -> bool
        requires page { page.0 < length self.now.memory.table.homes }
        requires counters { length self.now.policy.counters ≡ length self.now.memory.table.homes }
        ensures { IsTrue result ↔ IsPromotable self.now page.0 }
    {
        self.policy.is_hot(page) && self.memory.can_promote(&self.device, page)
    }

    // The least hot page that may come in. Only a page whose counter isn't zero is hot.
    #[tactic(auto, using(crate::proofs::Promotable::promotable_of))]
    fn promotable(&self) -> Option<PageNo>
        requires counters { length self.now.policy.counters ≡ length self.now.memory.table.homes }
        ensures { MatchOption result ((page : ℕ) → IsPromotable self.now page → ⊥)
            (λ page. IsLeastPromotable self.now page.0) }
    {
        if self.memory.frames().is_full() || self.memory.plb().free_slot().is_none() {
            return None;
        }
        self.policy.known();
        self.least_of(self.policy.counted())
    }

    // The least of these pages that is hot and may come in.
    fn least_of(&self, pages: &[PageNo]) -> Option<PageNo>
        requires counters { length self.now.policy.counters ≡ length self.now.memory.table.homes }
        requires counted { AreCounted self.now.policy.counters pages.now }
        ensures { IsLeastAmong self.now pages.now result }
    {
        let mut least = None;
        for page in pages {
            least = self.lesser(least, *page);
        }
        least
    }

    fn lesser(&self, least: Option<PageNo>, page: PageNo) -> Option<PageNo>
        requires page { page.0 < length self.now.memory.table.homes }
        requires counters { length self.now.policy.counters ≡ length self.now.memory.table.homes }
        ensures { IsLesser self.now least page result }
    {
        if !self.is_promotable(page) {
            return least;
        }
        match least {
            Some(other) => { if other.0 <= page.0 { least } else { Some(page) } }
            None => Some(page),
        }
    }

    fn evict_choice(&self) -> Option<Action>
        requires hand { IsHandInside self.now.evictor.hand self.now.memory.frames }
        ensures { EvictChoice E.score self.now result }
    {
        match self.next_slot(Way::Leaving) {
            Some(slot) => Some(Action::Advance(slot)),
            None => self.eviction(),
        }
    }

    fn eviction(&self) -> Option<Action>
        requires none { IsNoneMoving Leaving self.now.memory.slots }
        requires hand { IsHandInside self.now.evictor.hand self.now.memory.frames }
        ensures { EvictChoice E.score self.now result }
    {
        if !self.memory.frames().is_full() || self.memory.plb().free_slot().is_none() {
            return None;
        }
        let frame = self
            .evictor
            .choose(self.memory.frames(), self.memory.plb())?;
        let page = self.memory.frames().page(frame)?;
        if self.device.resident(page) {
            Some(Action::Evict(frame))
        } else {
            Some(Action::Work(page))
        }
    }

    fn collect_choice(&self) -> Option<Action>
        ensures { CollectChoice self.now result }
    {
        if self.device.is_pending() || self.device.wants_collect() {
            Some(Action::Collect)
        } else {
            None
        }
    }

    fn drain_choice(&self) -> Option<Action>
        ensures { DrainChoice self.now result }
    {
        if self.device.waiting() > 0 {
            Some(Action::Drain)
        } else {
            None
        }
    }

    // What is done for a load, a store or a mark that missed this page.
    pub(crate) fn miss_action(&self, op: &Op, page: PageNo) -> Action
        requires missed { MissesPage op.now page self.now }
        ensures { IsMissAction op.now page self.now result }
    {
        match op {
            Op::Load { at: _, len: _ } => Action::Work(page),
            Op::Store { at: _, bytes: _ } => Action::Work(page),
            Op::Mark {
                page: _,
                from: _,
                count: _,
            } => self.mark_action(page),
            Op::Verify => unreachable!(),
            Op::Release {
                page: _,
                from: _,
                count: _,
            } => unreachable!(),
        }
    }

    fn mark_action(&self, page: PageNo) -> Action
        ensures { IsMarkAction self.now page result }
    {
        match self.memory.plb().find(page) {
            Some(slot) => self.action_in_flight(slot),
            None => self.action_at_rest(page),
        }
    }

    fn action_in_flight(&self, slot: u32) -> Action
        requires { IsInUse self.now.memory.slots slot }
        ensures { (entry : Slot) → HasEntry self.now.memory.slots slot entry
            → result ≡ action_in_flight entry.way slot }
    {
        match self.memory.plb().entry(slot).way {
            Way::Coming => Action::TurnBack(slot),
            Way::Leaving => Action::Advance(slot),
        }
    }

    fn action_at_rest(&self, page: PageNo) -> Action
        ensures { IsActionAtRest self.now page result }
    {
        if self.memory.plb().free_slot().is_none() {
            return Action::Advance(0);
        }
        if self.device.resident(page) {
            Action::Retreat(page)
        } else {
            Action::Work(page)
        }
    }
}
