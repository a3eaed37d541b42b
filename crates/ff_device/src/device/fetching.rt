// A page that is fetched into a slot.
ghost use Rattle.std.specs.Prelude.{◌≡◌, ◌<◌, None, true, false, length};
ghost use Rattle.ff_base.specs.Count.{HasCountLeft};
ghost use Rattle.ff_cache.specs.Cache.{IsInSet};
ghost use Rattle.ff_cache.specs.Slots.{held, cache_slot_at};
ghost use Rattle.ff_device.specs.StoreState.{seen_of};
ghost use Rattle.ff_device.specs.Device.{parts_of};
ghost use Rattle.ff_device.specs.Steps.{may_go};
ghost use Rattle.ff_device.specs.StoreSteps.{CallsOnce};
ghost use Rattle.ff_device.specs.WorkRows.{FetchRow, stop_of_work};
ghost use Rattle.ff_lines.specs.Works.{IsIdle};

use crate::Device;
use crate::store_steps::fetch;
use ff_base::PageNo;
use ff_flash::{Flash, FlashStop};
use ff_lines::Work;

impl<F: Flash> Device<F> {
    pub(super) fn fetch_into(&mut self, page: PageNo, slot: u32) -> Work
        requires page { page.0 < length (seen_of self.old.store).pages }
        requires used { HasCountLeft (seen_of self.old.store).used }
        requires idle { (seen_of self.old.store).pending ≡ None }
        requires absent { held self.old.cache.slots page.0 ≡ None }
        requires in_set { IsInSet self.old.cache page.0 slot }
        requires clean { (cache_slot_at self.old.cache.slots slot).dirty ≡ false }
        requires goes { may_go self.old.window.posts (cache_slot_at self.old.cache.slots slot)
            ≡ true }
        ensures row { FetchRow page.0 slot result (parts_of self.old) (parts_of self.new) }
        ensures calls { CallsOnce self.old.store (stop_of_work result) self.new.store }
        ensures busy { IsIdle result → ⊥ }
    {
        self.cache.known();
        match fetch(&mut self.store, page, &mut self.page) {
            Ok(()) => {
                self.cache.put(slot, page, &self.page);
                Work::Stepped
            }
            Err(FlashStop::Failed) => Work::Failed,
            Err(FlashStop::Off) => Work::Off,
        }
    }
}
