// A flash in memory that keeps the trait's contract.
ghost use Rattle.std.specs.Prelude.{◌≡◌, ◌<◌, ◌↔◌, IfOk, IfSome, IsSome, IsTrue, length, Some};
ghost use Rattle.ff_base.specs.Geometry.{IsWithinLimits};
ghost use Rattle.ff_flash.specs.Cells.{ChangesEach, Erases, IsClosed, IsSealed, Probes, Programs, ReadsBytes, Seals, cell_after_erase, cell_at, cell_probe, cells_after, erased, program, seal};
ghost use Rattle.ff_flash.specs.FlashState.{HasOperationsLeft, Operates, powered_off, powered_up};
ghost use Rattle.ff_flash.specs.Injected.{stop_of};
ghost use Rattle.ff_flash.specs.Plans.{IsPlan, planned_of};
ghost use Rattle.ff_flash.specs.SimFlash.{IsSimFlashSound, arrive_of_cut, fresh_flash, next_in};

use crate::injector::Injector;
use crate::page_arena::PageArena;
use crate::page_states::{
    PageState, copied, erase_at, erased_states, probe_of, program_at, seal_at,
};
use crate::{Flash, FlashStop, Plan, Probe, Spare};
use ff_base::{Block, Geometry, NoMemory, PageBuf, Ppn};
use std::alloc::Global;
use std::marker::Model;

/// A flash in memory that fails and loses its power by a plan.
#[derive(Drop)]
pub struct SimFlash {
    blocks: u32,
    per_block: u32,
    states: Vec<PageState>,
    arena: PageArena,
    injector: Injector,
}

impl Model for SimFlash {
    ghost use Rattle.ff_flash.specs.FlashState.{FlashState};

    ghost Value = { FlashState };

    ghost use Rattle.ff_flash.specs.SimFlashFields.{IsKept, view_of};

    ghost view = { view_of };

    ghost invariant = { IsKept };
}

impl SimFlash {
    /// A flash whose pages are all erased, with its power on.
    pub fn new(alloc: Global, geometry: &Geometry, plan: Plan) -> Result<SimFlash, NoMemory>
        requires limits { IsWithinLimits geometry.now }
        requires plan { IsPlan (planned_of plan) }
        ensures { IfOk result (λ flash. flash ≡ fresh_flash geometry.now (planned_of plan)) }
    {
        let places = geometry.blocks * geometry.per_block;
        Ok(SimFlash {
            blocks: geometry.blocks,
            per_block: geometry.per_block,
            states: erased_states(alloc, places)?,
            arena: PageArena::new(alloc, places)?,
            injector: Injector::new(plan),
        })
    }

    /// An equal flash.
    pub fn copy(&self, alloc: Global) -> Result<SimFlash, NoMemory>
        ensures { IfOk result (λ flash. flash ≡ self.now) }
    {
        Ok(SimFlash {
            blocks: self.blocks,
            per_block: self.per_block,
            states: copied(alloc, &self.states)?,
            arena: self.arena.copy(alloc)?,
            injector: self.injector.copy(alloc)?,
        })
    }

    /// How many of the waiting posts arrive, where an operation that was cut turned the power off.
    pub fn cut_arrive(&self) -> Option<u32>
        ensures arrive { result ≡ arrive_of_cut self.now }
        ensures known { IsSimFlashSound self.now }
    {
        self.injector.cut_arrive()
    }

    /// What a probe of a place would tell, where the flash has the place. It is no operation, and isn't counted.
    pub fn glance(&self, at: Ppn) -> Option<Probe>
        ensures within { IsSome result ↔ (at.0 < length self.now.cells) }
        ensures probe { IfSome result (λ probe. probe ≡ cell_probe (cell_at self.now.cells at.0)) }
    {
        if at.0 as usize >= self.states.len() {
            return None;
        }
        Some(probe_of(self.states[at.0 as usize]))
    }

    /// Whether the flash has this plan.
    pub fn plan_is(&self, plan: &Plan) -> bool
        ensures { IsTrue result ↔ (self.now.plan ≡ Some (planned_of plan.now)) }
    {
        self.injector.plan_is(plan)
    }
}

impl Flash for SimFlash {
    ghost state = { λ flash. flash };

    fn probe(&mut self, at: Ppn) -> Result<Probe, FlashStop>
        requires place { at.0 < length self.old.cells }
        requires life { HasOperationsLeft self.old }
        ensures cells { Probes self.old.cells at.0 result self.new.cells }
        ensures counts { Operates self.old (stop_of result) self.new }
    {
        self.injector.next().answer()?;
        Ok(probe_of(self.states[at.0 as usize]))
    }

    fn read(&mut self, at: Ppn, into: &mut PageBuf) -> Result<(), FlashStop>
        requires place { at.0 < length self.old.cells }
        requires sealed { IsSealed (cell_at self.old.cells at.0) }
        requires life { HasOperationsLeft self.old }
        ensures cells { ReadsBytes self.old.cells at.0 into.old result into.new self.new.cells }
        ensures counts { Operates self.old (stop_of result) self.new }
    {
        self.injector.next().answer()?;
        into.copy_from(self.arena.page(at.0));
        Ok(())
    }

    fn program(&mut self, at: Ppn, from: &PageBuf, spare: Spare) -> Result<(), FlashStop>
        requires place { at.0 < length self.old.cells }
        requires erased { cell_at self.old.cells at.0 ≡ erased }
        requires life { HasOperationsLeft self.old }
        ensures cells { Programs self.old.cells at.0 from.now spare result self.new.cells }
        ensures counts { Operates self.old (stop_of result) self.new }
        ensures planned { self.new.cells
            ≡ cells_after (program from.now spare) (next_in self.old) self.old.cells at.0 }
    {
        let injected = self.injector.next();
        self.arena.put(at.0, from.as_slice());
        program_at(&mut self.states, at.0, spare, injected);
        injected.answer()
    }

    fn seal(&mut self, at: Ppn) -> Result<(), FlashStop>
        requires place { at.0 < length self.old.cells }
        requires closed { IsClosed (cell_at self.old.cells at.0) }
        requires life { HasOperationsLeft self.old }
        ensures cells { Seals self.old.cells at.0 result self.new.cells }
        ensures counts { Operates self.old (stop_of result) self.new }
        ensures planned { self.new.cells ≡ cells_after seal (next_in self.old) self.old.cells at.0 }
    {
        let injected = self.injector.next();
        seal_at(&mut self.states, at.0, injected);
        injected.answer()
    }

    fn erase(&mut self, block: Block) -> Result<(), FlashStop>
        requires block { block.0 < self.old.blocks }
        requires life { HasOperationsLeft self.old }
        ensures cells { Erases self.old.per_block self.old.cells block.0 result self.new.cells }
        ensures counts { Operates self.old (stop_of result) self.new }
        ensures planned { ChangesEach
            (cell_after_erase self.old.per_block block.0 (next_in self.old))
            self.old.cells self.new.cells }
    {
        let injected = self.injector.next();
        let first = block.0 * self.per_block;
        erase_at(&mut self.states, first, self.per_block, injected);
        injected.answer()
    }

    fn power_off(&mut self)
        ensures { self.new ≡ powered_off self.old }
    {
        self.injector.power_off();
    }

    fn power_up(&mut self)
        ensures { self.new ≡ powered_up self.old }
    {
        self.injector.power_up();
    }

    fn is_on(&self) -> bool {
        self.injector.is_on()
    }

    fn fault_count(&self) -> u64 {
        self.injector.fault_count()
    }

    fn operation_count(&self) -> u64 {
        self.injector.operation_count()
    }
}
