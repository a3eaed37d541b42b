// The beginnings of migrations: promotion, retreat and turning back.
ghost use Rattle.std.specs.Prelude.{ℕ, ◌≡◌, ◌≢◌, ◌<◌, ◌↔◌, IsTrue, Some, length, not};
ghost use Rattle.ff_base.specs.declared.numbers.TheConstants.{PAGE_LINES};
ghost use Rattle.ff_lines.specs.DeviceState.{DeviceState, IsDevice};
ghost use Rattle.ff_frames.specs.Frames.{IsLeastFree, IsNoneFree, frame_at};
ghost use Rattle.ff_lines.specs.LineMask.{has_line, mask_others};
ghost use Rattle.ff_frames.specs.Frame.{taken_frame};
ghost use Rattle.ff_memory.specs.Begins.{CanPromote, CanRetreat, IsComingSlot, IsPromoted, IsRetreated, turned_at};
ghost use Rattle.ff_memory.specs.Located.{IsLocated};
ghost use Rattle.ff_memory.specs.Memory.{frame_set, home_at, home_set, slot_set};
ghost use Rattle.ff_memory.specs.LineBytes.{SameLineBytes};
ghost use Rattle.ff_plb.specs.Plb.{HasEntry, IsLeastEmpty, IsNoneEmpty};
ghost use Rattle.ff_plb.specs.Slot.{after_turn};

use crate::memory::Memory;
use ff_base::PageNo;
use ff_lines::{LineDevice, LineMask};
use ff_plb::{Plb, Slot, Way};
use ff_table::Home;

// The least empty slot of a buffer that has one.
fn least_empty(plb: &Plb) -> u32
    requires { IsNoneEmpty plb.now → ⊥ }
    ensures { IsLeastEmpty plb.now result }
{
    match plb.free_slot() {
        Some(slot) => slot,
        None => unreachable!(),
    }
}

impl Memory {
    /// Whether a promotion of the page may begin.
    pub fn can_promote<D: LineDevice>(&self, d: &D, page: PageNo) -> bool
        requires { page.0 < length self.now.table.homes }
        ensures { IsTrue result ↔ CanPromote self.now (D.state d.now) page.0 }
    {
        self.is_home(page)
            && self.table.marks(page) == 0
            && d.resident(page)
            && !self.frames.is_full()
            && self.plb.free_slot().is_some()
    }

    /// Begins to copy a page into the least free frame: a promotion.
    pub fn begin_promote<D: LineDevice>(&mut self, d: &mut D, page: PageNo)
        requires can { CanPromote self.old (D.state d.old) page.0 }
        requires located { IsLocated self.old (D.state d.old) }
        ensures step { IsPromoted page.0 self.old (D.state d.old) self.new (D.state d.new) }
        ensures located { IsLocated self.new (D.state d.new) }
        ensures lines { SameLineBytes self.old (D.state d.old) self.new (D.state d.new) }
        ensures own { D.own d.new ≡ D.own d.old }
    {
        self.known();
        self.promote(d, page);
    }

    fn promote<D: LineDevice>(&mut self, d: &mut D, page: PageNo)
        requires { CanPromote self.old (D.state d.old) page.0 }
        ensures step { IsPromoted page.0 self.old (D.state d.old) self.new (D.state d.new) }
        ensures own { D.own d.new ≡ D.own d.old }
    {
        d.drain_all();
        d.pin(page, true);
        let slot = least_empty(&self.plb);
        let frame = self.take_frame(page);
        self.plb.begin(slot, page, frame, Way::Coming, LineMask(0));
    }

    // Gives the least free frame to a page, where one is.
    fn take_frame(&mut self, page: PageNo) -> u32
        requires { IsNoneFree self.old.frames → ⊥ }
        ensures least { IsLeastFree self.old.frames result }
        ensures memory { self.new ≡ frame_set result (taken_frame page) self.old }
    {
        match self.frames.take(page) {
            Some(frame) => frame,
            None => unreachable!(),
        }
    }

    /// Begins to copy the dirty lines of a page at rest in a frame to the device: a retreat.
    pub fn begin_retreat<D: LineDevice>(&mut self, d: &mut D, page: PageNo)
        requires can { CanRetreat self.old (D.state d.old) page.0 }
        requires located { IsLocated self.old (D.state d.old) }
        ensures step { IsRetreated page.0 self.old (D.state d.old) self.new (D.state d.new) }
        ensures located { IsLocated self.new (D.state d.new) }
        ensures lines { SameLineBytes self.old (D.state d.old) self.new (D.state d.new) }
        ensures own { D.own d.new ≡ D.own d.old }
    {
        self.known();
        let frame = self.home_frame(page);
        let clean = self.frames.dirty(frame).complement();
        self.retreat(d, page, frame, clean);
    }

    fn retreat<D: LineDevice>(&mut self, d: &mut D, page: PageNo, frame: u32, clean: LineMask)
        requires can { CanRetreat self.old (D.state d.old) page.0 }
        requires frame { home_at self.old page.0 ≡ Home.Host frame }
        requires clean { clean ≡ mask_others (frame_at self.old.frames frame).dirty }
        ensures step { IsRetreated page.0 self.old (D.state d.old) self.new (D.state d.new) }
        ensures own { D.own d.new ≡ D.own d.old }
    {
        d.pin(page, true);
        let slot = least_empty(&self.plb);
        self.plb.begin(slot, page, frame, Way::Leaving, clean);
    }

    // The frame that is a page's home.
    fn home_frame(&self, page: PageNo) -> u32
        requires page { page.0 < length self.now.table.homes }
        requires home { home_at self.now page.0 ≢ Home.Ssd }
        ensures { home_at self.now page.0 ≡ Home.Host result }
    {
        match self.table.home(page) {
            Home::Host(frame) => frame,
            Home::Ssd => unreachable!(),
        }
    }

    /// Lets a coming page turn back: it leaves its frame, and its lines that aren't dirty count as copied.
    pub fn turn_back(&mut self, slot: u32)
        requires { IsComingSlot self.old slot }
        ensures step { self.new ≡ turned_at slot self.old }
        ensures located { (d : DeviceState) → IsDevice d → IsLocated self.old d
            → IsLocated self.new d }
        ensures lines { (d : DeviceState) → IsDevice d → IsLocated self.old d
            → SameLineBytes self.old d self.new d }
    {
        self.known();
        let entry = self.plb.entry(slot);
        let dirty = self.frames.dirty(entry.frame);
        self.turn(slot, &entry, dirty);
    }

    fn turn(&mut self, slot: u32, entry: &Slot, dirty: LineMask)
        requires has { HasEntry self.old.slots slot entry.now }
        requires page { entry.now.page.0 < length self.old.table.homes }
        ensures memory { self.new ≡ home_set entry.now.page.0 (Home.Host entry.now.frame)
            (slot_set slot (Some (after_turn dirty entry.now)) self.old) }
        ensures copied { (line : ℕ) → line < PAGE_LINES
            → has_line (mask_others dirty) line ≡ not (has_line dirty line) }
    {
        self.plb.turn_back(slot, dirty);
        self.table.set_home(entry.page, Home::Host(entry.frame));
    }
}
