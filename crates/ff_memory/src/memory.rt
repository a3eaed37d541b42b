// The host memory: its parts, and the frame that serves a line.
ghost use Rattle.std.specs.Prelude.{◌≡◌, ◌<◌, IfSome, length};
ghost use Rattle.ff_base.specs.declared.numbers.TheConstants.{PAGE_LINES};
ghost use Rattle.ff_lines.specs.LineMask.{has_line};
ghost use Rattle.ff_plb.specs.Plb.{IsInUse, slot_at};

use crate::address::{frame_in_flight, frame_of_home};
use ff_base::{Marks, PageNo};
use ff_frames::Frames;
use ff_plb::Plb;
use ff_table::Table;
use std::marker::Model;

/// The page frames, the page table and the look-aside buffer. Each call takes the device on which the other pages are.
#[derive(Drop)]
pub struct Memory {
    pub(crate) frames: Frames,
    pub(crate) table: Table,
    pub(crate) plb: Plb,
    pub(crate) capacity: u32,
}

impl Model for Memory {
    ghost use Rattle.ff_memory.specs.Memory.{MemoryView};

    ghost Value = { MemoryView };

    ghost use Rattle.ff_memory.specs.MemoryFields.{view_of};

    ghost view = { view_of };
}

impl Memory {
    ghost use Rattle.ff_memory.specs.Memory.{IsMemorySound};
    ghost use Rattle.ff_memory.specs.LineBytes.{frame_in_flight, serving_frame};

    /// A memory of these parts, in which at most `capacity` pages may be born.
    pub fn new(frames: Frames, table: Table, plb: Plb, capacity: u32) -> Memory
        ensures { result
            ≡ record { frames = frames; table = table; slots = plb; capacity = capacity } }
    {
        Memory {
            frames,
            table,
            plb,
            capacity,
        }
    }

    /// What the parts of every memory keep. For the prover alone.
    pub fn known(&self)
        ensures { IsMemorySound self.now }
    {
        self.frames.known();
        self.table.known();
        self.plb.known();
    }

    // The frame that serves a line below 64.
    pub(crate) fn serving(&self, page: PageNo, line: u8) -> Option<u32>
        requires page { page.0 < length self.now.table.homes }
        requires line { line < PAGE_LINES }
        ensures { result ≡ serving_frame self.now page.0 line }
    {
        match self.plb.find(page) {
            None => frame_of_home(self.table.home(page)),
            Some(slot) => self.serving_in_flight(slot, line),
        }
    }

    fn serving_in_flight(&self, slot: u32, line: u8) -> Option<u32>
        requires slot { IsInUse self.now.slots slot }
        requires line { line < PAGE_LINES }
        ensures { IfSome (slot_at self.now.slots slot)
            (λ entry. result ≡ frame_in_flight entry.way entry.frame (has_line entry.bits line)) }
    {
        let entry = self.plb.entry(slot);
        frame_in_flight(entry.way, entry.frame, entry.bits.has(line))
    }

    /// The page frames.
    pub fn frames(&self) -> &Frames
        ensures { result.now ≡ self.now.frames }
    {
        &self.frames
    }

    /// The page table.
    pub fn table(&self) -> &Table
        ensures { result.now ≡ self.now.table }
    {
        &self.table
    }

    /// The look-aside buffer.
    pub fn plb(&self) -> &Plb
        ensures { result.now ≡ self.now.slots }
    {
        &self.plb
    }

    /// The marks of all pages.
    pub fn into_marks(self) -> Marks
        ensures { result ≡ self.table.marks }
    {
        let Memory {
            frames,
            table,
            plb,
            capacity: _,
        } = self;
        drop(frames);
        drop(plb);
        table.into_marks()
    }
}
