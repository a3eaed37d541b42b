// The actions of events.
ghost use Rattle.std.specs.Prelude.{ℕ, ◌≡◌, ◌<◌, ◌+◌, ◌%◌, length, true};
ghost use Rattle.ff_lines.specs.DeviceState.{IsDevice};
ghost use Rattle.ff_lines.specs.Works.{IsIdle};
ghost use Rattle.ff_memory.specs.Begins.{CanRetreat, IsComingSlot};
ghost use Rattle.ff_memory.specs.Located.{IsLocated};
ghost use Rattle.ff_memory.specs.Marking.{IsUnreferred, is_passed};
ghost use Rattle.ff_memory.specs.LineBytes.{SameLineBytes};
ghost use Rattle.ff_plb.specs.Plb.{IsFound, IsInUse};
ghost use Rattle.ff_core.specs.CanPerform.{CanPerform, IsEvictable, IsGiven};
ghost use Rattle.ff_core.specs.Choices.{CanCollect, IsPromotable};
ghost use Rattle.ff_core.specs.Hierarchy.{lines_under};
ghost use Rattle.ff_core.specs.Misses.{IsAbsent};
ghost use Rattle.ff_core.specs.Performs.{MakesCollectTurn, DrainsOldest, HasEvicted, HasPromoted, HasRetreated, IsAdvanced, IsDeviceStep, IsTurnedBack, IsWorkedFor, Performs, progress_of};

use crate::action::{Action, Progress};
use crate::hierarchy::Hierarchy;
use ff_base::PageNo;
use ff_evict::Pick;
use ff_flash::Flash;
use ff_lines::{LineDevice, Work};
use ff_memory::What;
use ff_policy::Tune;

impl<F: Flash, T: Tune, E: Pick> Hierarchy<F, T, E> {
    // Performs an action: at most one flash operation.
    pub(crate) fn perform(&mut self, action: Action) -> Progress
        requires given { IsGiven self.old }
        requires may { CanPerform action self.old }
        ensures { Performs action self.old result self.new }
    {
        match action {
            Action::Advance(slot) => self.advance(slot),
            Action::TurnBack(slot) => self.turn_back(slot),
            Action::Work(page) => self.work_for(page),
            Action::Promote(page) => self.promote(page),
            Action::Retreat(page) => self.retreat(page),
            Action::Evict(frame) => self.evict(frame),
            Action::Collect => self.collect(),
            Action::Drain => self.drain(),
        }
    }

    fn advance(&mut self, slot: u32) -> Progress
        requires given { IsGiven self.old }
        requires slot { IsInUse self.old.memory.slots slot }
        ensures { IsAdvanced slot self.old result self.new }
    {
        Progress::Did(self.memory.advance(&mut self.device, slot))
    }

    // What every device of lines keeps. For the prover alone.
    fn lines_known(&self)
        ensures { IsDevice (lines_under self.now) }
    {
        let _ = self.device.resident(PageNo(0));
    }

    fn turn_back(&mut self, slot: u32) -> Progress
        requires given { IsGiven self.old }
        requires slot { IsComingSlot self.old.memory slot }
        ensures { IsTurnedBack slot self.old result self.new }
    {
        self.lines_known();
        self.memory.turn_back(slot);
        Progress::Did(What::Started)
    }

    fn work_for(&mut self, page: PageNo) -> Progress
        requires given { IsGiven self.old }
        requires absent { IsAbsent self.old page.0 }
        ensures { IsWorkedFor page.0 self.old result self.new }
    {
        match self.device_step(page) {
            Work::Pinned(other) => self.yield_to(other),
            work => progress_of(work),
        }
    }

    // The device makes a step towards the page's being resident.
    fn device_step(&mut self, page: PageNo) -> Work
        requires given { IsGiven self.old }
        requires absent { IsAbsent self.old page.0 }
        ensures step { IsDeviceStep page.0 result self.old self.new }
        ensures idle { IsIdle result → self.new ≡ self.old }
    {
        self.device.work(page)
    }

    // The page that keeps the set makes its step.
    fn yield_to(&mut self, other: PageNo) -> Progress
        requires given { IsGiven self.old }
        requires pinned { (lines_under self.old).pinned other.0 ≡ true }
        ensures { (slot : ℕ) × IsFound self.old.memory.slots other.0 slot
            × IsAdvanced slot self.old result self.new }
    {
        match self.memory.plb().find(other) {
            Some(slot) => self.advance(slot),
            None => unreachable!(),
        }
    }

    fn promote(&mut self, page: PageNo) -> Progress
        requires given { IsGiven self.old }
        requires may { IsPromotable self.old page.0 }
        ensures { HasPromoted page.0 self.old result self.new }
    {
        self.memory.begin_promote(&mut self.device, page);
        self.policy.promote(page);
        Progress::Did(What::Started)
    }

    fn retreat(&mut self, page: PageNo) -> Progress
        requires given { IsGiven self.old }
        requires may { CanRetreat self.old.memory (lines_under self.old) page.0 }
        ensures { HasRetreated page.0 self.old result self.new }
    {
        self.memory.begin_retreat(&mut self.device, page);
        Progress::Did(What::Started)
    }

    fn evict(&mut self, frame: u32) -> Progress
        requires given { IsGiven self.old }
        requires may { IsEvictable self.old frame }
        ensures { HasEvicted frame self.old result self.new }
    {
        let Some(page) = self.memory.frames().page(frame) else {
            unreachable!()
        };
        let began = self.retreat(page);
        self.pass_to(frame);
        began
    }

    // The evictor's hand passes the frames up to this one, and is at the frame after it.
    fn pass_to(&mut self, frame: u32)
        requires located { IsLocated self.old.memory (lines_under self.old) }
        requires hand { self.old.evictor.hand < length self.old.memory.frames }
        requires frame { frame < length self.old.memory.frames }
        ensures passed { IsUnreferred (is_passed self.old.evictor.hand frame)
            self.old.memory self.new.memory }
        ensures located { IsLocated self.new.memory (lines_under self.new) }
        ensures lines { SameLineBytes self.old.memory (lines_under self.old)
            self.new.memory (lines_under self.new) }
        ensures rest { self.new ≡ record self.old {
          memory = self.new.memory;
          evictor = record self.old.evictor { hand = (frame + 1) % length self.old.memory.frames };
        } }
    {
        self.memory.clear_referred(self.evictor.hand(), frame);
        self.evictor.chosen(self.memory.frames(), frame);
    }

    fn collect(&mut self) -> Progress
        requires given { IsGiven self.old }
        requires may { CanCollect self.old }
        ensures { MakesCollectTurn self.old result self.new }
    {
        let what = if self.device.is_pending() {
            What::Sealed
        } else {
            What::Collected
        };
        match self.device.collect_work() {
            Work::Failed => Progress::Failed,
            Work::Off => Progress::Off,
            _ => Progress::Did(what),
        }
    }

    fn drain(&mut self) -> Progress
        requires given { IsGiven self.old }
        requires may { 0 < length self.old.device.window.posts }
        ensures { DrainsOldest self.old result self.new }
    {
        self.device.drain_one();
        Progress::Did(What::Drained)
    }
}

fn progress_of(work: Work) -> Progress
    ensures { result ≡ progress_of work }
{
    match work {
        Work::Failed => Progress::Failed,
        Work::Off => Progress::Off,
        _ => Progress::Did(What::Worked),
    }
}
