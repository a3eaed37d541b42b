// How a collection ends.
ghost use Rattle.std.specs.Prelude.{◌≡◌, length};
ghost use Rattle.ff_base.specs.Count.{HasCountLeft};
ghost use Rattle.ff_space.specs.BlockTable.{CanEnd, IsInState};
ghost use Rattle.ff_space.specs.declared.block.BlockState.TheVariants.{Waiting};
ghost use Rattle.ff_map.specs.PageMap.{CanSwitch};
ghost use Rattle.ff_flash.specs.FlashState.{HasOperationsLeft};
ghost use Rattle.ff_gc.specs.FlashCounts.{total_of};
ghost use Rattle.ff_gc.specs.Steps.{Commits, ErasesBlock};
ghost use Rattle.ff_gc.specs.World.{world_of};

use crate::collector::{Collector, GcStep};
use crate::counts::{FlashCounts, OperationKind};
use crate::phase::{Job, Phase};
use ff_base::Block;
use ff_flash::{Flash, FlashStop};
use ff_map::PageMap;
use ff_space::BlockTable;

impl Collector {
    // Switches the pages that are still in the victim to their copies.
    pub(crate) fn commit<F: Flash>(
        &mut self,
        flash: &F,
        space: &mut BlockTable,
        map: &mut PageMap,
        counts: &FlashCounts,
        job: Job,
    ) -> Result<GcStep, FlashStop>
        requires moves { CanSwitch map.old self.old.moves }
        requires blocks { CanEnd space.old job.victim.0 job.into.0 }
        ensures { Commits (world_of self.old (F.state flash.now) space.old map.old counts.now)
            job result
            (world_of self.new (F.state flash.now) space.new map.new counts.now) }
    {
        let _ = flash;
        let _ = counts;
        map.switch(&self.moves);
        space.end_collection(job.victim, job.into);
        self.moves.clear();
        self.phase = Phase::Erasing(job.victim);
        Ok(GcStep::Committed)
    }

    // Erases the waiting block, and ends the collection where that works.
    pub(crate) fn erase<F: Flash>(
        &mut self,
        flash: &mut F,
        space: &mut BlockTable,
        map: &PageMap,
        counts: &mut FlashCounts,
        block: Block,
        ends: GcStep,
    ) -> Result<GcStep, FlashStop>
        requires life { HasOperationsLeft (F.state flash.old) }
        requires counted { HasCountLeft (total_of counts.old) }
        requires waits { IsInState space.old.blocks Waiting block.0 }
        requires size { (F.state flash.old).blocks ≡ length space.old.blocks }
        ensures { ErasesBlock (world_of self.old (F.state flash.old) space.old map.now counts.old)
            block ends result
            (world_of self.new (F.state flash.new) space.new map.now counts.new) }
    {
        let _ = map;
        counts.begin(OperationKind::Erase);
        match flash.erase(block) {
            Ok(()) => {
                space.set_erased(block);
                self.phase = Phase::Idle;
                Ok(ends)
            }
            Err(stop) => Err(stop),
        }
    }
}
