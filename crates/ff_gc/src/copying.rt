// How the pages of a victim are copied.
ghost use Rattle.std.specs.Prelude.{◌≡◌, ◌+◌, ◌*◌, ◌<◌, ◌^◌, length};
ghost use Rattle.ff_base.specs.Count.{HasCountLeft};
ghost use Rattle.ff_flash.specs.Cells.{IsClosed, IsSealed, cell_at, erased};
ghost use Rattle.ff_space.specs.Blocks.{CanAdvance};
ghost use Rattle.ff_space.specs.BlockTable.{IsInRange, block_at};
ghost use Rattle.ff_flash.specs.FlashState.{HasOperationsLeft};
ghost use Rattle.ff_gc.specs.FlashCounts.{total_of};
ghost use Rattle.ff_gc.specs.Steps.{ProgramsCopy, ProgramsNext, ReadsNext, ReadsPage, SealsCopy, next_place};
ghost use Rattle.ff_gc.specs.declared.phase.Phase.TheVariants.{Programming, Reading};
ghost use Rattle.ff_gc.specs.World.{IsCollectorReady, world_of};

use crate::collector::{Collector, GcStep};
use crate::counts::{FlashCounts, OperationKind};
use crate::originals::{next_original, phase_after};
use crate::phase::{Job, Original, Phase};
use ff_base::Ppn;
use ff_flash::{Flash, FlashStop};
use ff_map::PageMap;
use ff_space::BlockTable;

impl Collector {
    // Reads the next page of the victim, or ends the collection.
    pub(crate) fn read_next<F: Flash>(
        &mut self,
        flash: &mut F,
        space: &mut BlockTable,
        map: &mut PageMap,
        counts: &mut FlashCounts,
        job: Job,
    ) -> Result<GcStep, FlashStop>
        requires ready { IsCollectorReady
            (world_of self.old (F.state flash.old) space.old map.old counts.old) }
        requires life { HasOperationsLeft (F.state flash.old) }
        requires counted { HasCountLeft (total_of counts.old) }
        requires phase { self.old.phase ≡ Reading job }
        ensures { ReadsNext (world_of self.old (F.state flash.old) space.old map.old counts.old)
            job result
            (world_of self.new (F.state flash.new) space.new map.new counts.new) }
    {
        match next_original(map, self.per_block, job) {
            Some(original) => self.read_page(flash, space, map, counts, job, original),
            None => self.commit(flash, space, map, counts, job),
        }
    }

    fn read_page<F: Flash>(
        &mut self,
        flash: &mut F,
        space: &BlockTable,
        map: &PageMap,
        counts: &mut FlashCounts,
        job: Job,
        original: Original,
    ) -> Result<GcStep, FlashStop>
        requires life { HasOperationsLeft (F.state flash.old) }
        requires counted { HasCountLeft (total_of counts.old) }
        requires place { original.from.0 < length (F.state flash.old).cells }
        requires sealed { IsSealed (cell_at (F.state flash.old).cells original.from.0) }
        ensures { ReadsPage (world_of self.old (F.state flash.old) space.now map.now counts.old)
            job original result
            (world_of self.new (F.state flash.new) space.now map.now counts.new) }
    {
        let _ = space;
        let _ = map;
        counts.begin(OperationKind::Read);
        match flash.read(original.from, &mut self.bytes) {
            Ok(()) => {
                self.phase = Phase::Programming(job, original);
                Ok(GcStep::Read)
            }
            Err(stop) => Err(stop),
        }
    }

    // Programs the copy of a page, or gives the collection up where its destination is full.
    pub(crate) fn program_next<F: Flash>(
        &mut self,
        flash: &mut F,
        space: &mut BlockTable,
        map: &PageMap,
        counts: &mut FlashCounts,
        job: Job,
        original: Original,
    ) -> Result<GcStep, FlashStop>
        requires ready { IsCollectorReady
            (world_of self.old (F.state flash.old) space.old map.now counts.old) }
        requires life { HasOperationsLeft (F.state flash.old) }
        requires counted { HasCountLeft (total_of counts.old) }
        requires phase { self.old.phase ≡ Programming job original }
        ensures { ProgramsNext (world_of self.old (F.state flash.old) space.old map.now counts.old)
            job original result
            (world_of self.new (F.state flash.new) space.new map.now counts.new) }
    {
        let next = space.next(job.into);
        if next < self.per_block {
            let at = Ppn(job.into.0 * self.per_block + next);
            return self.program_copy(flash, space, map, counts, job, original, at);
        }
        self.phase = Phase::Aborting(job.into);
        self.moves.clear();
        space.wait_erase(job.into);
        self.erase(flash, space, map, counts, job.into, GcStep::Aborted)
    }

    fn program_copy<F: Flash>(
        &mut self,
        flash: &mut F,
        space: &mut BlockTable,
        map: &PageMap,
        counts: &mut FlashCounts,
        job: Job,
        original: Original,
        at: Ppn,
    ) -> Result<GcStep, FlashStop>
        requires life { HasOperationsLeft (F.state flash.old) }
        requires counted { HasCountLeft (total_of counts.old) }
        requires block { IsInRange space.old job.into.0 }
        requires can { CanAdvance space.old.per_block (block_at space.old job.into.0) }
        requires at { at.0 ≡ next_place self.old.per_block space.old job }
        requires place { at.0 < length (F.state flash.old).cells }
        requires erased { cell_at (F.state flash.old).cells at.0 ≡ erased }
        ensures { ProgramsCopy (world_of self.old (F.state flash.old) space.old map.now counts.old)
            job original result
            (world_of self.new (F.state flash.new) space.new map.now counts.new) }
    {
        let _ = map;
        counts.begin(OperationKind::Program);
        match flash.program(at, &self.bytes, original.spare()) {
            Ok(()) => {
                space.advance(job.into);
                self.phase = Phase::Sealing(job, original, at);
                Ok(GcStep::Programmed)
            }
            Err(FlashStop::Failed) => {
                space.advance(job.into);
                Err(FlashStop::Failed)
            }
            Err(FlashStop::Off) => Err(FlashStop::Off),
        }
    }

    // Seals the copy of a page.
    pub(crate) fn seal_copy<F: Flash>(
        &mut self,
        flash: &mut F,
        space: &BlockTable,
        map: &PageMap,
        counts: &mut FlashCounts,
        job: Job,
        original: Original,
        at: Ppn,
    ) -> Result<GcStep, FlashStop>
        requires life { HasOperationsLeft (F.state flash.old) }
        requires counted { HasCountLeft (total_of counts.old) }
        requires place { at.0 < length (F.state flash.old).cells }
        requires closed { IsClosed (cell_at (F.state flash.old).cells at.0) }
        requires room { length self.old.moves < self.old.per_block }
        requires some { 0 < self.old.per_block }
        requires small { job.victim.0 * self.old.per_block + self.old.per_block < 2 ^ 32 }
        ensures { SealsCopy (world_of self.old (F.state flash.old) space.now map.now counts.old)
            job original at result
            (world_of self.new (F.state flash.new) space.now map.now counts.new) }
    {
        let _ = space;
        counts.begin(OperationKind::Seal);
        match flash.seal(at) {
            Ok(()) => {
                self.moves.push_reserved(original.move_to(at));
                self.phase = phase_after(map, self.per_block, job.past(original, self.per_block));
                Ok(GcStep::Sealed)
            }
            Err(FlashStop::Failed) => {
                self.phase = Phase::Programming(job, original);
                Err(FlashStop::Failed)
            }
            Err(FlashStop::Off) => Err(FlashStop::Off),
        }
    }
}
