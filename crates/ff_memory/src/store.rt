// Stores.
ghost use Rattle.std.specs.Prelude.{◌≡◌, ◌+◌, ◌<◌, ◌≤◌, IfSome, IsTrue, None, Some, false, length, true};
ghost use Rattle.ff_base.specs.declared.numbers.TheConstants.{LINE_BYTES, PAGE_LINES};
ghost use Rattle.ff_lines.specs.DeviceState.{HasRoom, line_at};
ghost use Rattle.ff_model.specs.Spans.{is_span};
ghost use Rattle.ff_plb.specs.Plb.{HasEntry, IsFound};
ghost use Rattle.ff_memory.specs.Advances.{IsReady};
ghost use Rattle.ff_memory.specs.Located.{IsLocated};
ghost use Rattle.ff_memory.specs.Memory.{born_set, entry_at, frame_set, home_at};
ghost use Rattle.ff_memory.specs.LineBytes.{frame_for, line_in_page, page_of, offset_in_line, storing_frame};
ghost use Rattle.ff_memory.specs.Stores.{DrainsIf, IsFrameStore, IsStore, IsStoreBy, IsStoreGiven, StoresBy, carried_frame, carries, is_store_refused, stored_frame};

use crate::access::{Access, Side};
use crate::address::{Address, carries, frame_of_home, store_in_flight};
use crate::memory::Memory;
use ff_base::PageNo;
use ff_lines::LineDevice;
use ff_model::{Piece, Reply};
use ff_plb::Slot;

impl Memory {
    /// Stores a piece at the address `at`. It is refused with `Full` where the page isn't born and as many pages are as the
    /// capacity says. Else the page is missed where the device serves the store and the page isn't resident. `position` is
    /// the store's in the history; a post keeps it.
    pub fn store<D: LineDevice>(
        &mut self,
        d: &mut D,
        at: u32,
        bytes: &Piece,
        position: u32,
    ) -> Access
        requires span { IsTrue (is_span (length self.old.table.homes) at (length bytes.now)) }
        requires located { IsLocated self.old (D.state d.old) }
        ensures store { IsStore (page_of at) (line_in_page at) (offset_in_line at) bytes.now
            position self.old (D.state d.old) result self.new (D.state d.new) }
        ensures located { IsLocated self.new (D.state d.new) }
        ensures lines { StoresBy result (page_of at) (line_in_page at) (offset_in_line at)
            bytes.now self.old (D.state d.old) self.new (D.state d.new) }
        ensures own { D.own d.new ≡ D.own d.old }
    {
        let at = Address::of(at);
        self.known();
        let _ = d.resident(at.page);
        if self.refuses(at.page) {
            return Access::Served(Reply::Full, Side::Neither);
        }
        self.store_allowed(d, at, bytes, position)
    }

    // A store that isn't refused.
    fn store_allowed<D: LineDevice>(
        &mut self,
        d: &mut D,
        at: Address,
        piece: &Piece,
        position: u32,
    ) -> Access
        requires { IsStoreGiven at.page.0 at.line at.from piece.now self.old (D.state d.old) }
        ensures store { IsStoreBy false (storing_frame self.old at.page.0 at.line)
            ((D.state d.old).resident at.page.0) at.page.0 at.line at.from piece.now position
            self.old (D.state d.old) result self.new (D.state d.new) }
        ensures own { D.own d.new ≡ D.own d.old }
    {
        match self.plb.find(at.page) {
            None => self.store_at_rest(d, at, piece, position),
            Some(slot) => self.store_in_flight(d, slot, at, piece, position),
        }
    }

    // Whether a store to the page is refused.
    fn refuses(&self, page: PageNo) -> bool
        requires { page.0 < length self.now.table.homes }
        ensures { result ≡ is_store_refused self.now page.0 }
    {
        !self.table.is_born(page) && self.table.born() == self.capacity
    }

    // A store to a page without an entry.
    fn store_at_rest<D: LineDevice>(
        &mut self,
        d: &mut D,
        at: Address,
        piece: &Piece,
        position: u32,
    ) -> Access
        requires page { at.page.0 < length self.old.table.homes }
        requires line { at.line < PAGE_LINES }
        requires span { at.from + length piece.now ≤ LINE_BYTES }
        requires rests { entry_at self.old at.page.0 ≡ None }
        requires room { HasRoom (D.state d.old) at.page.0 }
        requires frame { IfSome (frame_for (home_at self.old at.page.0) None at.line)
            (λ frame. frame < length self.old.frames) }
        ensures store { IsStoreBy false (frame_for (home_at self.old at.page.0) None at.line)
            ((D.state d.old).resident at.page.0) at.page.0 at.line at.from piece.now position
            self.old (D.state d.old) result self.new (D.state d.new) }
        ensures own { D.own d.new ≡ D.own d.old }
    {
        match frame_of_home(self.table.home(at.page)) {
            Some(frame) => self.write_frame(frame, at, piece),
            None => self.post_store(d, at, piece, position),
        }
    }

    // A store to a page with an entry.
    fn store_in_flight<D: LineDevice>(
        &mut self,
        d: &mut D,
        slot: u32,
        at: Address,
        piece: &Piece,
        position: u32,
    ) -> Access
        requires in_range { at.page.0 < length self.old.table.homes }
        requires line { at.line < PAGE_LINES }
        requires span { at.from + length piece.now ≤ LINE_BYTES }
        requires found { IsFound self.old.slots at.page.0 slot }
        requires room { HasRoom (D.state d.old) at.page.0 }
        requires ready { (entry : _) → HasEntry self.old.slots slot entry
            → IsReady self.old (D.state d.old) slot entry }
        ensures store { IsStoreBy false (storing_frame self.old at.page.0 at.line)
            ((D.state d.old).resident at.page.0) at.page.0 at.line at.from piece.now position
            self.old (D.state d.old) result self.new (D.state d.new) }
        ensures own { D.own d.new ≡ D.own d.old }
    {
        let entry = self.plb.entry(slot);
        match store_in_flight(entry.way, entry.frame, entry.bits.has(at.line)) {
            Some(_) => self.write_in_flight(d, slot, &entry, at, piece),
            None => self.post_store(d, at, piece, position),
        }
    }

    // A store that the frame of a page in flight serves. The rest of a coming page's line comes with it.
    fn write_in_flight<D: LineDevice>(
        &mut self,
        d: &mut D,
        slot: u32,
        entry: &Slot,
        at: Address,
        piece: &Piece,
    ) -> Access
        requires line { at.line < PAGE_LINES }
        requires span { at.from + length piece.now ≤ LINE_BYTES }
        requires ready { IsReady self.old (D.state d.old) slot entry.now }
        requires page { entry.now.page.0 ≡ at.page.0 }
        requires entry { entry_at self.old at.page.0 ≡ Some entry.now }
        ensures store { IsFrameStore entry.now.frame at.page.0 at.line at.from piece.now
            self.old (D.state d.old) result self.new (D.state d.new) }
        ensures own { D.own d.new ≡ D.own d.old }
    {
        self.carry(d, entry, at.line, piece.as_slice().len());
        self.plb.store_hit(slot, at.line);
        self.write_frame(entry.frame, at, piece)
    }

    // The device's bytes of a line that isn't copied come into the frame, where only a part of the line is stored.
    fn carry<D: LineDevice>(&mut self, d: &mut D, entry: &Slot, line: u8, size: usize)
        requires line { line < PAGE_LINES }
        requires frame { entry.now.frame < length self.old.frames }
        requires resident { (D.state d.old).resident entry.now.page.0 ≡ true }
        ensures memory { self.new ≡ frame_set entry.now.frame
            (carried_frame (carries (Some entry.now) line size) line
            (line_at (D.state d.old) entry.now.page.0 line))
            self.old }
        ensures device { DrainsIf (carries (Some entry.now) line size)
            (D.state d.old) (D.state d.new) }
        ensures own { D.own d.new ≡ D.own d.old }
    {
        if carries(entry.way, entry.bits.has(line), size) {
            let bytes = d.read_line(entry.page, line, false);
            self.frames.fill(entry.frame, line, &bytes);
        }
    }

    // A store that a frame serves.
    fn write_frame(&mut self, frame: u32, at: Address, piece: &Piece) -> Access
        requires page { at.page.0 < length self.old.table.homes }
        requires frame { frame < length self.old.frames }
        requires line { at.line < PAGE_LINES }
        requires span { at.from + length piece.now ≤ LINE_BYTES }
        ensures access { result ≡ Access.Served Reply.Done Side.Host }
        ensures memory { self.new ≡ frame_set frame (stored_frame at.line at.from piece.now)
            (born_set at.page.0 self.old) }
    {
        self.frames.write(frame, at.line, at.from, piece);
        self.frames.refer(frame, true);
        self.table.bear(at.page);
        Access::Served(Reply::Done, Side::Host)
    }

    // A store that the device serves. The page is born before its post.
    fn post_store<D: LineDevice>(
        &mut self,
        d: &mut D,
        at: Address,
        piece: &Piece,
        position: u32,
    ) -> Access
        requires page { at.page.0 < length self.old.table.homes }
        requires line { at.line < PAGE_LINES }
        requires span { at.from + length piece.now ≤ LINE_BYTES }
        requires room { HasRoom (D.state d.old) at.page.0 }
        ensures store { IsStoreBy false None ((D.state d.old).resident at.page.0)
            at.page.0 at.line at.from piece.now position
            self.old (D.state d.old) result self.new (D.state d.new) }
        ensures own { D.own d.new ≡ D.own d.old }
    {
        if !d.resident(at.page) {
            return Access::Miss(at.page);
        }
        self.table.bear(at.page);
        d.post(at.page, at.line, at.from, piece, Some(position));
        Access::Served(Reply::Done, Side::Device)
    }
}
