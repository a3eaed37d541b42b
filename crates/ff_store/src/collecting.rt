// How the collector is asked for a step.
ghost use Rattle.std.specs.Prelude.{◌≡◌, ◌&&◌, true, None, Ok, Err};
ghost use Rattle.ff_flash.specs.FlashState.{HasOperationsLeft};
ghost use Rattle.ff_flash.specs.Injected.{stop_of};
ghost use Rattle.ff_store.specs.Calls.{Collects, CollectsFor, CollectsNow, IsCall, SameBytes};
ghost use Rattle.ff_store.specs.declared.store.FlushStep.TheVariants.{Collected};

use crate::store::{FlushStep, PageStore};
use ff_flash::{Flash, FlashStop};
use ff_gc::GcStep;

impl<F: Flash> PageStore<F> {
    pub(crate) fn collect_for_flush(&mut self) -> Result<FlushStep, FlashStop>
        requires life { HasOperationsLeft self.old.world.flash }
        requires on { self.old.world.flash.on ≡ true }
        requires none { self.old.waits ≡ None }
        requires now { CollectsNow self.old }
        ensures { CollectsFor self.old result self.new }
    {
        match self.collect(true) {
            Ok(_) => Ok(FlushStep::Collected),
            Err(stop) => Err(stop),
        }
    }

    pub(crate) fn collect_on(&mut self) -> Result<GcStep, FlashStop>
        requires life { HasOperationsLeft self.old.world.flash }
        requires on { self.old.world.flash.on ≡ true }
        requires none { self.old.waits ≡ None }
        ensures call { IsCall self.old (stop_of result) self.new }
        ensures step { Collects self.old.owed self.old result self.new }
        ensures same { SameBytes self.old self.new }
    {
        self.known();
        self.collect(self.owed)
    }

    // Makes one step of the collector. Where it is owed the next one is, until the collection ends.
    fn collect(&mut self, owed: bool) -> Result<GcStep, FlashStop>
        requires life { HasOperationsLeft self.old.world.flash }
        requires on { self.old.world.flash.on ≡ true }
        requires none { self.old.waits ≡ None }
        ensures { Collects owed self.old result self.new }
    {
        let result = self.collector.step(
            &mut self.flash,
            &mut self.space,
            &mut self.places,
            &mut self.counts,
        );
        self.owed = both(owed, self.collector.busy());
        result
    }
}

fn both(one: bool, other: bool) -> bool
    ensures { result ≡ (one && other) }
{
    one && other
}
