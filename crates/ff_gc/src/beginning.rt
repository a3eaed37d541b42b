// How a collection begins.
ghost use Rattle.std.specs.Prelude.{◌≡◌};
ghost use Rattle.ff_base.specs.Count.{HasCountLeft};
ghost use Rattle.ff_space.specs.BlockTable.{IsInState};
ghost use Rattle.ff_space.specs.Choices.{IsLeast, IsVictimBlock};
ghost use Rattle.ff_space.specs.declared.block.BlockState.TheVariants.{Erased};
ghost use Rattle.ff_flash.specs.FlashState.{HasOperationsLeft};
ghost use Rattle.ff_gc.specs.FlashCounts.{total_of};
ghost use Rattle.ff_gc.specs.Running.{HasBlock};
ghost use Rattle.ff_gc.specs.Steps.{Begins};
ghost use Rattle.ff_gc.specs.declared.phase.Phase.TheVariants.{Idle};
ghost use Rattle.ff_gc.specs.World.{IsCollectorReady, world_of};

use crate::collector::{Collector, GcStep};
use crate::counts::FlashCounts;
use crate::phase::{Job, Phase};
use ff_base::Block;
use ff_flash::{Flash, FlashStop};
use ff_map::PageMap;
use ff_space::BlockTable;

impl Collector {
    // Begins a collection, where a block can be collected.
    pub(crate) fn begin<F: Flash>(
        &mut self,
        flash: &mut F,
        space: &mut BlockTable,
        map: &mut PageMap,
        counts: &mut FlashCounts,
    ) -> Result<GcStep, FlashStop>
        requires ready { IsCollectorReady
            (world_of self.old (F.state flash.old) space.old map.old counts.old) }
        requires life { HasOperationsLeft (F.state flash.old) }
        requires counted { HasCountLeft (total_of counts.old) }
        requires phase { self.old.phase ≡ Idle }
        ensures { Begins (world_of self.old (F.state flash.old) space.old map.old counts.old) result
            (world_of self.new (F.state flash.new) space.new map.new counts.new) }
    {
        match space.victim() {
            None => Ok(GcStep::Idle),
            Some(victim) => self.collect(flash, space, map, counts, victim),
        }
    }

    fn collect<F: Flash>(
        &mut self,
        flash: &mut F,
        space: &mut BlockTable,
        map: &mut PageMap,
        counts: &mut FlashCounts,
        victim: Block,
    ) -> Result<GcStep, FlashStop>
        requires ready { IsCollectorReady
            (world_of self.old (F.state flash.old) space.old map.old counts.old) }
        requires life { HasOperationsLeft (F.state flash.old) }
        requires counted { HasCountLeft (total_of counts.old) }
        requires phase { self.old.phase ≡ Idle }
        requires victim { IsVictimBlock space.old.per_block space.old.blocks victim.0 }
        ensures { Begins (world_of self.old (F.state flash.old) space.old map.old counts.old) result
            (world_of self.new (F.state flash.new) space.new map.new counts.new) }
    {
        space.known();
        if space.mapped(victim) == 0 {
            self.phase = Phase::Erasing(victim);
            space.wait_erase(victim);
            return self.erase(flash, space, map, counts, victim, GcStep::Erased);
        }
        let into = destination(space);
        let job = Job {
            victim,
            into,
            seen: 0,
        };
        self.phase = Phase::Reading(job);
        self.moves.clear();
        space.hold(into, true);
        self.read_next(flash, space, map, counts, job)
    }
}

// The destination of a collection: the least erased block.
fn destination(space: &BlockTable) -> Block
    requires { HasBlock space.now Erased }
    ensures { IsLeast (IsInState space.now.blocks Erased) result.0 }
{
    match space.least_erased() {
        Some(block) => block,
        None => unreachable!(),
    }
}
