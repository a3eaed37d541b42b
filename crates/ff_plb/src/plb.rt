// The slots of the buffer.
ghost use Rattle.std.specs.Prelude.{ℕ, ◌≡◌, ◌<◌, ◌↔◌, not, IfOk, IfSome, IsSome, IsTrue, MatchOption, None, Some, option_copied, option_map, replicate, length};
ghost use Rattle.ff_base.specs.declared.numbers.TheConstants.{PAGE_LINES};
ghost use Rattle.ff_lines.specs.LineMask.{has_line, mask_others};
ghost use Rattle.ff_plb.specs.NextStep.{IsLeastNext, IsNextIn, IsNoneNext};
ghost use Rattle.ff_plb.specs.Plb.{ArePagesApart, HasEntry, HasFlight, IsEmpty, IsFound, IsInUse, IsLeastEmpty, IsNoneEmpty, entry_if, entry_of, slot_at, with_slot};
ghost use Rattle.ff_plb.specs.Slot.{after_landing, after_lift, after_store, after_turn, landing_of};

use crate::slot::{Flight, Landing, NextStep, Slot, Way};
use ff_base::{NoMemory, PageNo};
use ff_lines::LineMask;
use std::alloc::Global;
use std::marker::Model;

/// The promotion look-aside buffer. A contract sees it as the list of its slots.
#[derive(Drop)]
pub struct Plb {
    slots: Vec<Option<Slot>>,
}

impl Model for Plb {
    ghost use Rattle.std.specs.Prelude.{List, Option};
    ghost use Rattle.ff_plb.specs.declared.slot.Slot.{Slot};

    ghost Value = { List (Option Slot) };

    ghost use Rattle.ff_plb.specs.PlbFields.{view_of, IsKept};

    ghost view = { view_of };

    ghost invariant = { IsKept };
}

// So many empty slots.
fn empty_slots(alloc: Global, count: u32) -> Result<Vec<Option<Slot>>, NoMemory>
    ensures { IfOk result (λ slots. slots.items ≡ replicate count None) }
{
    let slots = vec![in alloc; None; count as usize]?;
    Ok(slots)
}

fn is_of(slot: &Option<Slot>, page: PageNo) -> bool
    ensures { IsTrue result ↔ IsSome (entry_if slot.now page.0) }
{
    match slot {
        Some(entry) => entry.page == page,
        None => false,
    }
}

fn find_in(slots: &[Option<Slot>], page: PageNo) -> Option<usize>
    ensures { MatchOption result (entry_of slots.now page.0 ≡ None)
        (IsFound slots.now page.0) }
{
    for (at, slot) in slots.iter().enumerate() {
        if is_of(slot, page) {
            return Some(at);
        }
    }
    None
}

fn first_empty(slots: &[Option<Slot>]) -> Option<usize>
    ensures { MatchOption result (IsNoneEmpty slots.now)
        (IsLeastEmpty slots.now) }
{
    for (at, slot) in slots.iter().enumerate() {
        if slot.is_none() {
            return Some(at);
        }
    }
    None
}

fn has_next(slot: &Option<Slot>, way: Way, step: NextStep) -> bool
    ensures { IsTrue result ↔ IsNextIn slot.now way step }
{
    match slot {
        Some(entry) => entry.way == way && entry.is_next(step),
        None => false,
    }
}

fn first_next(slots: &[Option<Slot>], way: Way, step: NextStep) -> Option<usize>
    ensures { MatchOption result (IsNoneNext slots.now way step) (IsLeastNext slots.now way step) }
{
    for (at, slot) in slots.iter().enumerate() {
        if has_next(slot, way, step) {
            return Some(at);
        }
    }
    None
}

impl Plb {
    /// So many empty slots, 1 to 64 in a geometry.
    pub fn new(alloc: Global, slots: u32) -> Result<Plb, NoMemory>
        ensures { IfOk result (λ plb. plb ≡ replicate slots None) }
    {
        let slots = empty_slots(alloc, slots)?;
        Ok(Plb { slots })
    }

    /// What every buffer keeps. For the prover alone.
    pub fn known(&self)
        ensures { ArePagesApart self.now }
    {
        let _ = &self.slots;
    }

    /// The slot of a page's entry.
    pub fn find(&self, page: PageNo) -> Option<u32>
        ensures { MatchOption result (entry_of self.now page.0 ≡ None) (IsFound self.now page.0) }
    {
        let slot = find_in(&self.slots, page)?;
        Some(slot as u32)
    }

    /// The least empty slot.
    pub fn free_slot(&self) -> Option<u32>
        ensures { MatchOption result (IsNoneEmpty self.now) (IsLeastEmpty self.now) }
    {
        let slot = first_empty(&self.slots)?;
        Some(slot as u32)
    }

    /// The least slot with a page that goes this way and whose next step is this.
    pub fn least_next(&self, way: Way, step: NextStep) -> Option<u32>
        ensures { MatchOption result (IsNoneNext self.now way step)
            (IsLeastNext self.now way step) }
    {
        let slot = first_next(&self.slots, way, step)?;
        Some(slot as u32)
    }

    /// The entry in a slot.
    pub fn get(&self, slot: u32) -> Option<&Slot>
        requires { slot < length self.now }
        ensures { option_copied result ≡ slot_at self.now slot }
    {
        self.slots[slot as usize].as_ref()
    }

    /// The entry in a slot that has one.
    pub fn entry(&self, slot: u32) -> Slot
        requires { IsInUse self.now slot }
        ensures { HasEntry self.now slot result }
    {
        match self.slots[slot as usize] {
            Some(entry) => entry,
            None => unreachable!(),
        }
    }

    // Replaces the entry in a slot by another of its page.
    fn put(&mut self, slot: u32, entry: Slot)
        requires range { slot < length self.old }
        requires page { IfSome (slot_at self.old slot) (λ old. entry.page ≡ old.page) }
        requires used { IsSome (slot_at self.old slot) }
        ensures { self.new ≡ with_slot self.old slot (Some entry) }
    {
        self.slots[slot as usize] = Some(entry);
    }

    /// Begins the flight of a page that has no entry.
    pub fn begin(&mut self, slot: u32, page: PageNo, frame: u32, way: Way, bits: LineMask)
        requires empty { IsEmpty self.old slot }
        requires page { entry_of self.old page.0 ≡ None }
        ensures { self.new ≡ with_slot self.old slot
            (Some (record { page = page; frame = frame; way = way; bits = bits; flight = None })) }
    {
        self.slots[slot as usize] = Some(Slot {
            page,
            frame,
            way,
            bits,
            flight: None,
        });
    }

    /// A line is under way.
    pub fn lift(&mut self, slot: u32, flight: Flight)
        requires { IsInUse self.old slot }
        ensures { self.new
            ≡ with_slot self.old slot (option_map (after_lift flight) (slot_at self.old slot)) }
    {
        let entry = self.entry(slot);
        self.put(slot, entry.lifted(flight));
    }

    /// Ends the flight of a line, whose bit is set then. It is dropped where the bit was set before.
    pub fn land(&mut self, slot: u32) -> Landing
        requires { HasFlight self.old slot }
        ensures landing { IfSome (slot_at self.old slot) (λ entry.
            IfSome entry.flight (λ flight. result ≡ landing_of flight entry)) }
        ensures slots { self.new
            ≡ with_slot self.old slot (option_map after_landing (slot_at self.old slot)) }
    {
        let entry = self.entry(slot);
        self.put(slot, entry.landed());
        entry.landing()
    }

    /// A store to a line below 64 that the frame served: the line of a coming page counts as copied, and the flight of a
    /// leaving page's line is cancelled.
    pub fn store_hit(&mut self, slot: u32, line: u8)
        requires used { IsInUse self.old slot }
        requires line { line < PAGE_LINES }
        ensures { self.new
            ≡ with_slot self.old slot (option_map (after_store line) (slot_at self.old slot)) }
    {
        let entry = self.entry(slot);
        self.put(slot, entry.stored(line));
    }

    /// A coming page turns back. The lines that aren't dirty count as copied.
    pub fn turn_back(&mut self, slot: u32, dirty: LineMask)
        requires { IsInUse self.old slot }
        ensures slots { self.new
            ≡ with_slot self.old slot (option_map (after_turn dirty) (slot_at self.old slot)) }
        ensures copied { (line : ℕ) → line < PAGE_LINES
            → has_line (mask_others dirty) line ≡ not (has_line dirty line) }
    {
        let entry = self.entry(slot);
        self.put(slot, entry.turned(dirty));
    }

    /// Ends the flight of a page.
    pub fn close(&mut self, slot: u32)
        requires { IsInUse self.old slot }
        ensures { self.new ≡ with_slot self.old slot None }
    {
        self.slots[slot as usize] = None;
    }
}
