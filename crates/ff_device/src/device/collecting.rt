// A turn of the collector.
ghost use Rattle.std.specs.Prelude.{◌≡◌, ◌↔◌, IsTrue, None, true};
ghost use Rattle.ff_flash.specs.FlashState.{HasOperationsLeft};
ghost use Rattle.ff_lines.specs.PageSets.{SameSet};
ghost use Rattle.ff_lines.specs.Works.{KeepsLines};
ghost use Rattle.ff_store.specs.Calls.{WantsCollect};
ghost use Rattle.ff_device.specs.CollectTurn.{work_of, HasCollected, IsCollectTurn};
ghost use Rattle.ff_device.specs.Device.{lines_in, parts_of};
ghost use Rattle.ff_device.specs.Parts.{is_resident, SameShape};
ghost use Rattle.ff_device.specs.StoreSteps.{CallsOnce};
ghost use Rattle.ff_device.specs.WorkRows.{stop_of_work};

use crate::Device;
use ff_flash::{Flash, FlashStop};
use ff_gc::GcStep;
use ff_lines::Work;

fn answer(step: Result<GcStep, FlashStop>) -> Work
    ensures { result ≡ work_of step }
{
    match step {
        Ok(_) => Work::Stepped,
        Err(FlashStop::Failed) => Work::Failed,
        Err(FlashStop::Off) => Work::Off,
    }
}

impl<F: Flash> Device<F> {
    /// Whether a collection runs, or is due.
    pub fn wants_collect(&self) -> bool
        ensures { IsTrue result ↔ WantsCollect self.now.store }
    {
        self.store.wants_collect()
    }

    // Makes one step of the collector.
    fn collect(&mut self) -> Work
        requires on { self.old.store.world.flash.on ≡ true }
        requires idle { self.old.store.waits ≡ None }
        requires life { HasOperationsLeft self.old.store.world.flash }
        ensures row { HasCollected self.old result self.new }
        ensures calls { CallsOnce self.old.store (stop_of_work result) self.new.store }
    {
        answer(self.store.collect_step())
    }

    // The turn with the power on.
    fn collect_turn(&mut self) -> Work
        requires on { self.old.store.world.flash.on ≡ true }
        requires life { HasOperationsLeft self.old.store.world.flash }
        ensures turn { IsCollectTurn self.old result self.new }
        ensures calls { CallsOnce self.old.store (stop_of_work result) self.new.store }
    {
        if self.is_pending() {
            self.seal()
        } else if self.wants_collect() {
            self.collect()
        } else {
            Work::Ready
        }
    }

    #[tactic(auto, using(crate::proofs::Shapes::turn_shape, crate::proofs::Collecting::turn_window, crate::proofs::Shapes::same_shape))]
    /// One step of a flush that waits, or of a collection that runs or is due. `Ready` where there is neither, and `Off`
    /// with the power off.
    pub fn collect_work(&mut self) -> Work
        requires { HasOperationsLeft self.old.store.world.flash }
        ensures turn { IsCollectTurn self.old result self.new }
        ensures kept { KeepsLines (lines_in self.old) (lines_in self.new) }
        ensures calls { CallsOnce self.old.store (stop_of_work result) self.new.store }
        ensures resident { SameSet (is_resident (parts_of self.old))
            (is_resident (parts_of self.new)) }
        ensures window { self.new.window ≡ self.old.window }
        ensures shape { SameShape (parts_of self.old) (parts_of self.new) }
    {
        self.parts_known();
        if self.is_on() {
            self.collect_turn()
        } else {
            Work::Off
        }
    }
}
