// The steps of pages in flight.
ghost use Rattle.std.specs.Prelude.{◌≡◌, ◌≢◌, ◌<◌, None, Some, false, length};
ghost use Rattle.ff_base.specs.declared.numbers.TheConstants.{PAGE_LINES};
ghost use Rattle.ff_lines.specs.DeviceState.{IsPinned};
ghost use Rattle.ff_lines.specs.LineMask.{has_line};
ghost use Rattle.ff_memory.specs.Advances.{Advances, AdvancesBy, FinishesOrLifts, IsLandedOnDevice, IsReady, LandsBy, LiftsFrom, finished_by, source_line};
ghost use Rattle.ff_memory.specs.Located.{IsLocated};
ghost use Rattle.ff_memory.specs.Memory.{slot_set};
ghost use Rattle.ff_memory.specs.LineBytes.{SameLineBytes};
ghost use Rattle.ff_frames.specs.Frames.{frame_at};
ghost use Rattle.ff_plb.specs.Plb.{HasEntry, IsInUse, slot_at};
ghost use Rattle.ff_plb.specs.Slot.{after_lift};
ghost use Rattle.ff_plb.specs.declared.slot.Way.TheVariants.{Coming, Leaving};

use crate::access::What;
use crate::memory::Memory;
use ff_lines::LineDevice;
use ff_model::Piece;
use ff_plb::{Flight, Landing, Slot, Way};
use ff_table::Home;

impl Memory {
    /// Makes the next step of a page in flight: the line that is under way lands or is dropped; else the page comes to its
    /// new home, where every line is copied; else the least line that isn't is lifted.
    pub fn advance<D: LineDevice>(&mut self, d: &mut D, slot: u32) -> What
        requires slot { IsInUse self.old.slots slot }
        requires located { IsLocated self.old (D.state d.old) }
        ensures step { Advances slot (slot_at self.old.slots slot)
            self.old (D.state d.old) result self.new (D.state d.new) }
        ensures located { IsLocated self.new (D.state d.new) }
        ensures lines { SameLineBytes self.old (D.state d.old) self.new (D.state d.new) }
        ensures own { D.own d.new ≡ D.own d.old }
    {
        self.known();
        let entry = self.plb.entry(slot);
        let _ = d.resident(entry.page);
        self.step(d, slot, &entry)
    }

    fn step<D: LineDevice>(&mut self, d: &mut D, slot: u32, entry: &Slot) -> What
        requires { IsReady self.old (D.state d.old) slot entry.now }
        ensures step { AdvancesBy entry.now.flight slot entry.now
            self.old (D.state d.old) result self.new (D.state d.new) }
        ensures own { D.own d.new ≡ D.own d.old }
    {
        match entry.flight {
            None => self.finish_or_lift(d, slot, entry),
            Some(flight) => self.land(d, slot, entry, &flight),
        }
    }

    fn finish_or_lift<D: LineDevice>(&mut self, d: &mut D, slot: u32, entry: &Slot) -> What
        requires { IsReady self.old (D.state d.old) slot entry.now }
        ensures step { FinishesOrLifts result slot entry.now
            self.old (D.state d.old) self.new (D.state d.new) }
        ensures own { D.own d.new ≡ D.own d.old }
    {
        match entry.bits.first_clear() {
            None => {
                self.finish(d, slot, entry);
                What::Finished
            }
            Some(line) => {
                self.lift(d, slot, entry, line);
                What::Lifted
            }
        }
    }

    fn finish<D: LineDevice>(&mut self, d: &mut D, slot: u32, entry: &Slot)
        requires { IsReady self.old (D.state d.old) slot entry.now }
        ensures memory { self.new ≡ finished_by entry.now.way slot entry.now self.old }
        ensures device { IsPinned entry.now.page.0 false (D.state d.old) (D.state d.new) }
        ensures own { D.own d.new ≡ D.own d.old }
    {
        d.pin(entry.page, false);
        match entry.way {
            Way::Coming => self.settle_in_frame(slot, entry),
            Way::Leaving => self.settle_on_device(slot, entry),
        }
    }

    // A coming page is at home in its frame.
    fn settle_in_frame(&mut self, slot: u32, entry: &Slot)
        requires slot { IsInUse self.old.slots slot }
        requires page { entry.now.page.0 < length self.old.table.homes }
        ensures { self.new ≡ finished_by Coming slot entry.now self.old }
    {
        self.plb.close(slot);
        self.table.set_home(entry.page, Home::Host(entry.frame));
    }

    // A leaving page is at home on the SSD.
    fn settle_on_device(&mut self, slot: u32, entry: &Slot)
        requires slot { IsInUse self.old.slots slot }
        requires page { entry.now.page.0 < length self.old.table.homes }
        requires frame { entry.now.frame < length self.old.frames }
        requires used { (frame_at self.old.frames entry.now.frame).page ≢ None }
        ensures { self.new ≡ finished_by Leaving slot entry.now self.old }
    {
        self.plb.close(slot);
        self.table.set_home(entry.page, Home::Ssd);
        self.frames.give(entry.frame);
    }

    fn lift<D: LineDevice>(&mut self, d: &mut D, slot: u32, entry: &Slot, line: u8)
        requires ready { IsReady self.old (D.state d.old) slot entry.now }
        requires line { line < PAGE_LINES }
        ensures memory { self.new ≡ slot_set slot
            (Some (after_lift
            (record {
              line = line;
              bytes = source_line entry.now.way self.old (D.state d.old) entry.now line;
            })
            entry.now))
            self.old }
        ensures device { LiftsFrom entry.now.way (D.state d.old) (D.state d.new) }
        ensures own { D.own d.new ≡ D.own d.old }
    {
        let bytes = match entry.way {
            Way::Coming => d.read_line(entry.page, line, false),
            Way::Leaving => self.frames.line(entry.frame, line),
        };
        self.plb.lift(slot, Flight { line, bytes });
    }

    fn land<D: LineDevice>(&mut self, d: &mut D, slot: u32, entry: &Slot, flight: &Flight) -> What
        requires ready { IsReady self.old (D.state d.old) slot entry.now }
        requires flight { entry.now.flight ≡ Some flight.now }
        ensures step { LandsBy entry.now.way (has_line entry.now.bits flight.now.line)
            slot entry.now flight.now self.old (D.state d.old) result self.new (D.state d.new) }
        ensures own { D.own d.new ≡ D.own d.old }
    {
        match entry.way {
            Way::Coming => self.land_in_frame(slot, entry, flight),
            Way::Leaving => self.land_on_device(d, slot, entry, flight),
        }
    }

    fn land_in_frame(&mut self, slot: u32, entry: &Slot, flight: &Flight) -> What
        requires has { HasEntry self.old.slots slot entry.now }
        requires frame { entry.now.frame < length self.old.frames }
        requires flight { entry.now.flight ≡ Some flight.now }
        requires line { flight.now.line < PAGE_LINES }
        ensures { (d : _) → LandsBy Coming (has_line entry.now.bits flight.now.line)
            slot entry.now flight.now self.old d result self.new d }
    {
        match self.plb.land(slot) {
            Landing::Dropped => What::Dropped,
            Landing::Landed(landed) => {
                self.frames.fill(entry.frame, landed.line, &landed.bytes);
                What::Landed
            }
        }
    }

    fn land_on_device<D: LineDevice>(
        &mut self,
        d: &mut D,
        slot: u32,
        entry: &Slot,
        flight: &Flight,
    ) -> What
        requires ready { IsReady self.old (D.state d.old) slot entry.now }
        requires way { entry.now.way ≡ Leaving }
        requires flight { entry.now.flight ≡ Some flight.now }
        ensures what { result ≡ What.Landed }
        ensures step { IsLandedOnDevice slot entry.now flight.now
            self.old (D.state d.old) self.new (D.state d.new) }
        ensures own { D.own d.new ≡ D.own d.old }
    {
        let piece = Piece::from_slice(&flight.bytes);
        d.post(entry.page, flight.line, 0, &piece, None);
        self.plb.land(slot);
        self.frames.clean(entry.frame, flight.line);
        What::Landed
    }
}
