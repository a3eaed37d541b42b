// A store of pages, and its calls.
ghost use Rattle.std.specs.Prelude.{◌≡◌, ◌≢◌, ◌*◌, ◌+◌, ◌<◌, ◌≤◌, ◌↔◌, ◌&&◌, true, false, length, replicate, IfOk, IfErr, IfSome, IsTrue, MatchOption, MatchResult, None, Some, Ok, Err, is_some};
ghost use Rattle.ff_base.specs.Geometry.{IsWithinLimits};
ghost use Rattle.ff_flash.specs.Cells.{IsSealed, cell_at, erased};
ghost use Rattle.ff_flash.specs.FlashState.{HasOperationsLeft, powered_off};
ghost use Rattle.ff_flash.specs.Injected.{stop_of};
ghost use Rattle.ff_flash.specs.declared.flash.FlashStop.TheVariants.{Off};
ghost use Rattle.ff_space.specs.BlockTable.{IsBlockTableSound, new_table};
ghost use Rattle.ff_map.specs.PageMap.{IsPageMapSound, empty_map, place_of};
ghost use Rattle.ff_gc.specs.Collector.{new_collector};
ghost use Rattle.ff_gc.specs.World.{page_bytes};
ghost use Rattle.ff_store.specs.Calls.{Collects, Fetches, Flushes, IsCall, IsProgrammed, MatchSealed, SameBytes, SealsPage, WantsCollect, waiting_page};
ghost use Rattle.ff_store.specs.Left.{left_of};
ghost use Rattle.ff_store.specs.PageStore.{IsStoreSound, new_store};
ghost use Rattle.ff_store.specs.Pages.{is_mapped, mapped_with, page_capacity};
ghost use Rattle.ff_store.specs.Recoverable.{IsRecoverable};
ghost use Rattle.ff_store.specs.declared.store.FlushStep.TheVariants.{Collected, Programmed};

use crate::pending::Pending;
use ff_base::{Geometry, NoMemory, PageBuf, PageNo, Ppn};
use ff_flash::{Flash, FlashStop};
use ff_gc::{Collector, FlashCounts, GcStep, OperationKind};
use ff_map::PageMap;
use ff_space::BlockTable;
use std::alloc::Global;
use std::marker::Model;

/// What a step of a flush did.
#[derive(Clone, Copy, Debug, PartialEq, Eq)]
pub enum FlushStep {
    /// The page was programmed, and is to be sealed.
    Programmed,
    /// A collection step was made for a page to program. The flush is to be asked for again.
    Collected,
    /// This page was sealed, and is stored with the bytes of its flush.
    Sealed(PageNo),
}

/// A store of logical pages over a flash.
#[derive(Drop)]
pub struct PageStore<F: Flash> {
    pub(crate) flash: F,
    pub(crate) collector: Collector,
    pub(crate) space: BlockTable,
    pub(crate) places: PageMap,
    pub(crate) counts: FlashCounts,
    pub(crate) waits: Option<Pending>,
    pub(crate) owed: bool,
    pub(crate) per_block: u32,
    pub(crate) low: u32,
    pub(crate) opened: u64,
}

impl<F: Flash> Model for PageStore<F> {
    ghost use Rattle.ff_store.specs.PageStore.{PageStoreView};
    ghost use Rattle.ff_gc.specs.World.{world_of};

    ghost Value = { PageStoreView };

    ghost use Rattle.ff_store.specs.PageStoreFields.{IsKept};

    ghost view = { λ s. record {
      world = world_of s.collector (F.state s.flash) s.space s.places s.counts;
      waits = s.waits;
      owed = s.owed;
      low = s.low;
      opened = s.opened;
    } };

    ghost invariant = { λ s. IsKept (record {
      world = world_of s.collector (F.state s.flash) s.space s.places s.counts;
      waits = s.waits;
      owed = s.owed;
      low = s.low;
      opened = s.opened;
    }) s.per_block };
}

#[derive(Drop)]
struct EmptyParts {
    collector: Collector,
    space: BlockTable,
    places: PageMap,
}

fn make_parts(alloc: Global, geometry: &Geometry) -> Result<EmptyParts, NoMemory>
    requires { IsWithinLimits geometry.now }
    ensures collector { IfOk result (λ parts. parts.collector ≡ new_collector geometry.now) }
    ensures table { IfOk result (λ parts. parts.space ≡ new_table geometry.now) }
    ensures places { IfOk result (λ parts. parts.places ≡ empty_map geometry.now) }
{
    Ok(EmptyParts {
        collector: Collector::new(alloc, geometry)?,
        space: BlockTable::new(alloc, geometry)?,
        places: PageMap::new(alloc, geometry)?,
    })
}

impl<F: Flash> PageStore<F> {
    /// A store over a flash of which every page is erased. The error is want of memory, and hands the flash back.
    pub fn new(alloc: Global, flash: F, geometry: &Geometry) -> Result<PageStore<F>, F>
        requires geometry { IsWithinLimits geometry.now }
        requires blocks { (F.state flash).blocks ≡ geometry.now.blocks }
        requires per_block { (F.state flash).per_block ≡ geometry.now.per_block }
        requires cells { (F.state flash).cells
            ≡ replicate (geometry.now.blocks * geometry.now.per_block) erased }
        ensures { MatchResult result (λ store. store ≡ new_store (F.state flash) geometry.now)
            (λ back. back ≡ flash) }
    {
        let opened = flash.operation_count();
        match make_parts(alloc, geometry) {
            Ok(parts) => Ok(PageStore {
                flash,
                collector: parts.collector,
                space: parts.space,
                places: parts.places,
                counts: FlashCounts::new(),
                waits: None,
                owed: false,
                per_block: geometry.per_block,
                low: geometry.low,
                opened,
            }),
            Err(_) => Err(flash),
        }
    }

    /// What every store keeps. For the prover alone.
    #[tactic(auto, using(crate::proofs::Remaining::left_most))]
    pub fn known(&self)
        ensures store { IsStoreSound self.now }
        ensures recoverable { IsRecoverable self.now }
        ensures left { left_of self.now.world ≤ 6 * self.now.world.gc.per_block + 5 }
        ensures table { IsBlockTableSound self.now.world.table }
        ensures map { IsPageMapSound self.now.world.places }
    {
        self.space.known();
        self.places.known();
    }

    pub fn is_mapped(&self, page: PageNo) -> bool
        ensures { result ≡ is_mapped self.now.world.places page }
    {
        self.places.get(page).is_some()
    }

    /// The page that is to be sealed.
    pub fn pending(&self) -> Option<PageNo>
        ensures { result ≡ waiting_page self.now }
    {
        self.waits.map(|pending| pending.page)
    }

    /// How many logical pages there are.
    pub fn pages(&self) -> u32
        ensures { result ≡ length self.now.world.places.pages }
    {
        self.places.pages()
    }

    /// How many operations of each kind were begun since the store was made.
    pub fn counts(&self) -> FlashCounts
        ensures { result ≡ self.now.world.counts }
    {
        self.counts
    }

    /// Reads a page. One that isn't mapped is zeros, without a flash operation.
    pub fn fetch(&mut self, page: PageNo, into: &mut PageBuf) -> Result<(), FlashStop>
        requires life { HasOperationsLeft self.old.world.flash }
        ensures off { self.old.world.flash.on ≡ false → (result ≡ Err Off) × (self.new ≡ self.old) }
        ensures call { self.old.world.flash.on ≡ true → IsCall self.old (stop_of result) self.new }
        ensures bytes { IfOk result (λ _. into.new ≡ page_bytes self.old.world page) }
        ensures kept { IfErr result (λ _. into.new ≡ into.old) }
        ensures mapped { self.old.world.flash.on ≡ true
            → MatchOption (place_of self.old.world.places page)
            ((self.new ≡ self.old) × (result ≡ Ok tt))
            (λ at. Fetches self.old at into.old result into.new self.new) }
    {
        if !self.flash.is_on() {
            return Err(FlashStop::Off);
        }
        self.known();
        match self.places.get(page) {
            Some(at) => self.read(at, into),
            None => {
                into.clear();
                Ok(())
            }
        }
    }

    fn read(&mut self, at: Ppn, into: &mut PageBuf) -> Result<(), FlashStop>
        requires life { HasOperationsLeft self.old.world.flash }
        requires on { self.old.world.flash.on ≡ true }
        requires place { at.0 < length self.old.world.flash.cells }
        requires sealed { IsSealed (cell_at self.old.world.flash.cells at.0) }
        ensures { Fetches self.old at into.old result into.new self.new }
    {
        self.counts.begin(OperationKind::Read);
        self.flash.read(at, into)
    }

    /// Makes one step of the flush of a page: programs it, or makes a collection step where no block has a page to
    /// program or one is owed. No flush waits, and the mapped pages with this one are at most the capacity.
    pub fn flush_step(&mut self, page: PageNo, from: &PageBuf) -> Result<FlushStep, FlashStop>
        requires life { HasOperationsLeft self.old.world.flash }
        requires none { self.old.waits ≡ None }
        requires page { page.0 < length self.old.world.places.pages }
        requires room { mapped_with self.old.world.places page ≤ page_capacity self.old.world }
        ensures off { self.old.world.flash.on ≡ false → (result ≡ Err Off) × (self.new ≡ self.old) }
        ensures call { self.old.world.flash.on ≡ true → IsCall self.old (stop_of result) self.new }
        ensures step { self.old.world.flash.on ≡ true
            → Flushes self.old page from.now result self.new }
        ensures same { SameBytes self.old self.new }
        ensures programmed { result ≡ Ok Programmed → IsProgrammed self.new page from.now }
        ensures none { result ≢ Ok Programmed → self.new.waits ≡ None }
        ensures left { result ≡ Ok Collected → left_of self.new.world < left_of self.old.world }
    {
        if !self.flash.is_on() {
            return Err(FlashStop::Off);
        }
        self.flush(page, from)
    }

    /// Seals the page that waits: it is stored with the programmed bytes then. `Failed` ends the flush, and the page
    /// keeps its old bytes.
    pub fn seal_step(&mut self) -> Result<FlushStep, FlashStop>
        requires life { HasOperationsLeft self.old.world.flash }
        requires waits { IsTrue (is_some self.old.waits) }
        ensures off { self.old.world.flash.on ≡ false → (result ≡ Err Off) × (self.new ≡ self.old) }
        ensures call { self.old.world.flash.on ≡ true → IsCall self.old (stop_of result) self.new }
        ensures step { self.old.world.flash.on ≡ true
            → IfSome self.old.waits (λ p. SealsPage self.old p result self.new) }
        ensures placed { IfOk result (λ step. MatchSealed self.old step self.new) }
        ensures stopped { IfErr result (λ _. SameBytes self.old self.new) }
    {
        if !self.flash.is_on() {
            return Err(FlashStop::Off);
        }
        match self.waits {
            Some(pending) => self.end_flush(pending),
            None => unreachable!(),
        }
    }

    /// Makes one step of the collector. No flush waits.
    pub fn collect_step(&mut self) -> Result<GcStep, FlashStop>
        requires life { HasOperationsLeft self.old.world.flash }
        requires none { self.old.waits ≡ None }
        ensures off { self.old.world.flash.on ≡ false → (result ≡ Err Off) × (self.new ≡ self.old) }
        ensures call { self.old.world.flash.on ≡ true → IsCall self.old (stop_of result) self.new }
        ensures step { self.old.world.flash.on ≡ true
            → Collects self.old.owed self.old result self.new }
        ensures same { SameBytes self.old self.new }
    {
        if !self.flash.is_on() {
            return Err(FlashStop::Off);
        }
        self.collect_on()
    }

    /// Whether the collector has something to do: a collection runs, or few blocks are erased and one can be collected.
    pub fn wants_collect(&self) -> bool
        ensures { IsTrue result ↔ WantsCollect self.now }
    {
        self.collector.busy() || self.space.erased() <= self.low && self.space.has_victim()
    }

    /// The flash, to be looked at.
    pub fn flash(&self) -> &F
        ensures { F.state result.now ≡ self.now.world.flash }
    {
        &self.flash
    }

    /// Turns the power off.
    pub fn power_off(&mut self)
        ensures { self.new ≡ record self.old {
          world = record self.old.world { flash = powered_off self.old.world.flash };
        } }
    {
        self.flash.power_off();
    }

    pub fn into_flash(self) -> F
        ensures { F.state result ≡ self.world.flash }
    {
        self.flash
    }
}
