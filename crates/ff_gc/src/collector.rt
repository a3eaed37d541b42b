// The collector, and what it does at each step.
ghost use Rattle.std.specs.Prelude.{◌≡◌, true, false, [], IfOk, Ok, Err};
ghost use Rattle.ff_base.specs.Count.{HasCountLeft};
ghost use Rattle.ff_flash.specs.declared.flash.FlashStop.TheVariants.{Off};
ghost use Rattle.ff_flash.specs.FlashState.{HasOperationsLeft};
ghost use Rattle.ff_gc.specs.Collector.{is_busy, mounted_phase, new_collector};
ghost use Rattle.ff_gc.specs.FlashCounts.{total_of};
ghost use Rattle.ff_gc.specs.Steps.{IsStep};
ghost use Rattle.ff_gc.specs.World.{IsCollectorReady, Keeps, world_of};

use crate::counts::FlashCounts;
use crate::phase::Phase;
use ff_base::{Block, Geometry, NoMemory, PageBuf};
use ff_flash::{Flash, FlashStop};
use ff_map::{Move, PageMap};
use ff_space::BlockTable;
use std::alloc::Global;
use std::marker::Model;

/// What a step of the collector did.
#[derive(Clone, Copy, Debug, PartialEq, Eq)]
pub enum GcStep {
    /// Nothing: no collection runs, and no block can be collected.
    Idle,
    /// A page of the victim was read.
    Read,
    /// The copy of a page was programmed.
    Programmed,
    /// The copy was sealed.
    Sealed,
    /// The copies took the place of their originals.
    Committed,
    /// The victim was erased.
    Erased,
    /// The destination was erased: it had no page left for a copy.
    Aborted,
}

/// A collection as steps, of which each makes at most one flash operation.
#[derive(Drop)]
pub struct Collector {
    pub(crate) per_block: u32,
    pub(crate) phase: Phase,
    pub(crate) moves: Vec<Move>,
    pub(crate) bytes: PageBuf,
}

impl Model for Collector {
    ghost use Rattle.ff_gc.specs.Collector.{CollectorView};

    ghost Value = { CollectorView };

    ghost use Rattle.ff_gc.specs.CollectorFields.{view_of, IsKept};

    ghost view = { view_of };

    ghost invariant = { IsKept };
}

impl Collector {
    /// A collector that has nothing to do.
    pub fn new(alloc: Global, geometry: &Geometry) -> Result<Collector, NoMemory>
        ensures { IfOk result (λ collector. collector ≡ new_collector geometry.now) }
    {
        Ok(Collector {
            per_block: geometry.per_block,
            phase: Phase::Idle,
            moves: Vec::with_capacity(alloc, geometry.per_block as usize)?,
            bytes: PageBuf::new(alloc)?,
        })
    }

    /// Starts with the erase of the block that a mount left for it, if there is one.
    pub fn after_mount(&mut self, spare: Option<Block>)
        ensures { self.new ≡ record self.old { phase = mounted_phase spare; moves = [] } }
    {
        self.phase = mounted(spare);
        self.moves.clear();
    }

    /// Whether a collection runs.
    pub fn busy(&self) -> bool
        ensures { result ≡ is_busy self.now.phase }
    {
        !matches!(self.phase, Phase::Idle)
    }

    /// Makes one step of the collection, and counts the operation that it began. Where no collection runs, it begins
    /// one. `Failed` comes only from a flash operation that failed, and a later step makes it again. Collector, flash,
    /// block table and page map are those of one store.
    pub fn step<F: Flash>(
        &mut self,
        flash: &mut F,
        space: &mut BlockTable,
        map: &mut PageMap,
        counts: &mut FlashCounts,
    ) -> Result<GcStep, FlashStop>
        requires ready { (F.state flash.old).on ≡ true
            → IsCollectorReady
            (world_of self.old (F.state flash.old) space.old map.old counts.old) }
        requires life { HasOperationsLeft (F.state flash.old) }
        requires counted { HasCountLeft (total_of counts.old) }
        ensures off { (F.state flash.old).on ≡ false → (result ≡ Err Off)
            × (world_of self.new (F.state flash.new) space.new map.new counts.new
            ≡ world_of self.old (F.state flash.old) space.old map.old counts.old) }
        ensures step { (F.state flash.old).on ≡ true
            → IsStep (world_of self.old (F.state flash.old) space.old map.old counts.old) result
            (world_of self.new (F.state flash.new) space.new map.new counts.new) }
        ensures kept { (F.state flash.old).on ≡ true
            → Keeps (world_of self.old (F.state flash.old) space.old map.old counts.old)
            (world_of self.new (F.state flash.new) space.new map.new counts.new) }
    {
        if !flash.is_on() {
            return Err(FlashStop::Off);
        }
        space.known();
        self.powered_step(flash, space, map, counts)
    }

    fn powered_step<F: Flash>(
        &mut self,
        flash: &mut F,
        space: &mut BlockTable,
        map: &mut PageMap,
        counts: &mut FlashCounts,
    ) -> Result<GcStep, FlashStop>
        requires ready { IsCollectorReady
            (world_of self.old (F.state flash.old) space.old map.old counts.old) }
        requires life { HasOperationsLeft (F.state flash.old) }
        requires counted { HasCountLeft (total_of counts.old) }
        ensures { IsStep (world_of self.old (F.state flash.old) space.old map.old counts.old) result
            (world_of self.new (F.state flash.new) space.new map.new counts.new) }
    {
        match self.phase {
            Phase::Idle => self.begin(flash, space, map, counts),
            Phase::Reading(job) => self.read_next(flash, space, map, counts, job),
            Phase::Programming(job, original) => {
                self.program_next(flash, space, map, counts, job, original)
            }
            Phase::Sealing(job, original, at) => {
                self.seal_copy(flash, space, map, counts, job, original, at)
            }
            Phase::Commit(job) => self.commit(flash, space, map, counts, job),
            Phase::Erasing(block) => self.erase(flash, space, map, counts, block, GcStep::Erased),
            Phase::Aborting(block) => self.erase(flash, space, map, counts, block, GcStep::Aborted),
        }
    }
}

fn mounted(spare: Option<Block>) -> Phase
    ensures { result ≡ mounted_phase spare }
{
    match spare {
        Some(block) => Phase::Erasing(block),
        None => Phase::Idle,
    }
}
