// A memory over a plain device of 16 pages, whose calls see to it that they may be made.
ghost use Rattle.std.specs.Prelude.{◌≡◌, ◌<◌, ◌^◌, IfSome, IsTrue, None, length, replicate, true};
ghost use Rattle.ff_memory.specs.Memory.{fresh_memory};
ghost use Rattle.ff_plain.specs.Plain.{state_of};
ghost use Rattle.ff_plb.specs.Plb.{IsInUse, IsNoneEmpty, entry_of, slot_at};
ghost use Rattle.ff_plb.specs.declared.slot.Way.TheVariants.{Coming};
ghost use Rattle.ff_table.specs.Table.{fresh_table};

use ff_base::{Marks, PageNo};
use ff_frames::Frames;
use ff_lines::LineDevice;
use ff_memory::{Access, Memory, What};
use ff_model::{Op, Piece};
use ff_plain::Plain;
use ff_plb::{NextStep, Plb, Way};
use ff_table::{Home, Table};
use std::alloc::Global;
use std::marker::Model;

const PAGES: u32 = 16;

const SLOTS: u32 = 2;

#[derive(Drop)]
pub struct Rig {
    memory: Memory,
    device: Plain,
}

impl Model for Rig {
    ghost use Rattle.std.specs.Prelude.{◌≡◌, length};
    ghost use Rattle.ff_memory.specs.Located.{IsLocated};
    ghost use Rattle.ff_memory.specs.Memory.{MemoryView};
    ghost use Rattle.ff_plain.specs.Plain.{state_of};

    ghost Value = { MemoryView };

    ghost view = { λ rig. rig.memory };

    ghost invariant = { λ rig. IsLocated rig.memory (state_of rig.device) × (length rig.memory.table.homes ≡ 16) };
}

fn table(alloc: Global) -> Option<Table>
    ensures { IfSome result (λ table. table ≡ fresh_table 16 (replicate 16 0)) }
{
    match Marks::new(alloc, PAGES) {
        Ok(marks) => Table::new(alloc, PAGES, marks).ok(),
        Err(_) => None,
    }
}

fn memory(alloc: Global, frames: u32) -> Option<Memory>
    requires { frames < 2 ^ 31 }
    ensures { IfSome result (λ memory. memory ≡ fresh_memory frames 16 (replicate 16 0) 2 16) }
{
    let table = table(alloc)?;
    match (Frames::new(alloc, frames), Plb::new(alloc, SLOTS)) {
        (Ok(frames), Ok(plb)) => Some(Memory::new(frames, table, plb, PAGES)),
        _ => None,
    }
}

// The slot of the next step of a page that goes this way.
fn next_slot(plb: &Plb, way: Way) -> Option<u32>
    ensures { IfSome result (IsInUse plb.now) }
{
    let finish = plb.least_next(way, NextStep::Finish);
    let land = plb.least_next(way, NextStep::Land);
    finish.or(land).or(plb.least_next(way, NextStep::Lift))
}

// Whether a page that a frame holds may leave it.
fn may_leave(memory: &Memory, device: &Plain, page: PageNo) -> bool
    ensures rests { IsTrue result → entry_of memory.now.slots page.0 ≡ None }
    ensures resident { IsTrue result → (state_of device.now).resident page.0 ≡ true }
    ensures slot { IsTrue result → IsNoneEmpty memory.now.slots → ⊥ }
{
    memory.plb().find(page).is_none() && device.resident(page) && memory.plb().free_slot().is_some()
}

// The slot of a coming page.
fn coming_slot(plb: &Plb, page: PageNo) -> Option<u32>
    ensures { IfSome result (λ slot. IsInUse plb.now slot
        × IfSome (slot_at plb.now slot) (λ entry. entry.way ≡ Coming)) }
{
    let slot = plb.find(page)?;
    match plb.entry(slot).way {
        Way::Coming => Some(slot),
        Way::Leaving => None,
    }
}

impl Rig {
    pub fn new(alloc: Global, frames: u32) -> Option<Rig>
        requires { frames < 2 ^ 31 }
    {
        let memory = memory(alloc, frames)?;
        match Plain::new(alloc, PAGES) {
            Ok(device) => Some(Rig { memory, device }),
            Err(_) => None,
        }
    }

    pub fn memory(&self) -> &Memory {
        &self.memory
    }

    /// The marked lines of a page.
    pub fn into_lines(self, page: PageNo) -> Option<u64> {
        let Rig { memory, device } = self;
        drop(device);
        memory.known();
        if page.0 >= PAGES {
            return None;
        }
        let marks = memory.into_marks();
        Some(marks.lines(page))
    }

    pub fn is_referred(&self, frame: u32) -> bool {
        frame < self.memory.frames().len() && self.memory.frames().referred(frame)
    }

    pub fn load(&mut self, at: u32, len: u32) -> Option<Access> {
        let op = Op::Load { at, len };
        if !op.is_in_range(PAGES) {
            return None;
        }
        Some(self.memory.load(&mut self.device, at, len))
    }

    pub fn store(&mut self, at: u32, bytes: &Piece, position: u32) -> Option<Access> {
        let op = Op::Store {
            at,
            bytes: bytes.copy(),
        };
        if !op.is_in_range(PAGES) {
            return None;
        }
        Some(self.memory.store(&mut self.device, at, bytes, position))
    }

    pub fn mark(&mut self, page: PageNo, lines: u64) -> Option<Access> {
        if page.0 >= PAGES {
            return None;
        }
        Some(self.memory.mark(&mut self.device, page, lines))
    }

    pub fn release(&mut self, page: PageNo, lines: u64) {
        if page.0 < PAGES {
            self.memory.release(page, lines);
        }
    }

    pub fn clear_referred(&mut self, from: u32, to: u32) {
        let frames = self.memory.frames().len();
        if from < frames && to < frames {
            self.memory.clear_referred(from, to);
        }
    }

    /// The next step of a page that goes this way.
    pub fn advance(&mut self, way: Way) -> Option<What> {
        let slot = next_slot(self.memory.plb(), way)?;
        Some(self.memory.advance(&mut self.device, slot))
    }

    /// The page comes into a frame, where it may.
    pub fn promote(&mut self, page: PageNo) -> bool {
        if page.0 >= PAGES || !self.memory.can_promote(&self.device, page) {
            return false;
        }
        self.memory.begin_promote(&mut self.device, page);
        true
    }

    /// The page that rests in the frame leaves it, where it may.
    pub fn retreat(&mut self, frame: u32) -> bool {
        if frame >= self.memory.frames().len() {
            return false;
        }
        match self.memory.frames().page(frame) {
            Some(page) if may_leave(&self.memory, &self.device, page) => {
                self.memory.begin_retreat(&mut self.device, page);
                true
            }
            _ => false,
        }
    }

    /// The page turns back, where it is coming.
    pub fn turn_back(&mut self, page: PageNo) -> bool {
        let _ = self.device.resident(page);
        self.memory.known();
        match coming_slot(self.memory.plb(), page) {
            Some(slot) => {
                self.memory.turn_back(slot);
                true
            }
            None => false,
        }
    }

    /// A step that brings a page home.
    pub fn come_home(&mut self, page: PageNo) -> bool {
        if page.0 >= PAGES {
            return false;
        }
        match self.memory.table().home(page) {
            Home::Host(frame) => self.retreat(frame),
            Home::Ssd => self.turn_back(page),
        }
    }
}
