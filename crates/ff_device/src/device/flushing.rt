// A dirty page that is flushed, and a flush that is sealed.
ghost use Rattle.std.specs.Prelude.{◌≡◌, ◌<◌, None, Some, IsSome, true, length};
ghost use Rattle.ff_base.specs.Count.{HasCountLeft};
ghost use Rattle.ff_cache.specs.Slots.{cache_slot_at};
ghost use Rattle.ff_device.specs.StoreState.{seen_of};
ghost use Rattle.ff_device.specs.Device.{parts_of};
ghost use Rattle.ff_device.specs.StoreSteps.{CallsOnce};
ghost use Rattle.ff_device.specs.WorkRows.{FlushRow, stop_of_work, SealRow};
ghost use Rattle.ff_lines.specs.Works.{IsIdle};

use super::slots::{begin_flush, end_flush};
use crate::Device;
use crate::store_steps::{flush_step, seal_step, store_known};
use ff_base::PageNo;
use ff_flash::{Flash, FlashStop};
use ff_lines::Work;
use ff_store::FlushStep;

impl<F: Flash> Device<F> {
    // Seals the flush that waits.
    pub(super) fn seal(&mut self) -> Work
        requires pending { IsSome (seen_of self.old.store).pending }
        requires used { HasCountLeft (seen_of self.old.store).used }
        ensures row { SealRow result (parts_of self.old) (parts_of self.new) }
        ensures calls { CallsOnce self.old.store (stop_of_work result) self.new.store }
        ensures busy { IsIdle result → ⊥ }
    {
        self.cache.known();
        store_known(&self.store);
        match seal_step(&mut self.store) {
            Ok(FlushStep::Sealed(page)) => {
                end_flush(&mut self.cache, page);
                Work::Stepped
            }
            Ok(FlushStep::Programmed) => unreachable!(),
            Ok(FlushStep::Collected) => unreachable!(),
            Err(FlashStop::Failed) => Work::Failed,
            Err(FlashStop::Off) => Work::Off,
        }
    }

    // Makes a step of the flush of a dirty slot, which holds the page.
    fn flush_page(&mut self, slot: u32, page: PageNo) -> Work
        requires idle { (seen_of self.old.store).pending ≡ None }
        requires used { HasCountLeft (seen_of self.old.store).used }
        requires slot { slot < length self.old.cache.slots }
        requires held { (cache_slot_at self.old.cache.slots slot).page ≡ Some page }
        requires dirty { (cache_slot_at self.old.cache.slots slot).dirty ≡ true }
        ensures row { FlushRow slot result (parts_of self.old) (parts_of self.new) }
        ensures calls { CallsOnce self.old.store (stop_of_work result) self.new.store }
        ensures busy { IsIdle result → ⊥ }
    {
        self.cache.known();
        self.cache.copy_out(slot, &mut self.page);
        match flush_step(&mut self.store, page, &self.page) {
            Ok(FlushStep::Programmed) => {
                begin_flush(&mut self.cache, page);
                Work::Stepped
            }
            Ok(FlushStep::Collected) => Work::Stepped,
            Ok(FlushStep::Sealed(_)) => unreachable!(),
            Err(FlashStop::Failed) => Work::Failed,
            Err(FlashStop::Off) => Work::Off,
        }
    }

    // Makes a step of the flush of a dirty slot.
    pub(super) fn flush(&mut self, slot: u32) -> Work
        requires idle { (seen_of self.old.store).pending ≡ None }
        requires used { HasCountLeft (seen_of self.old.store).used }
        requires slot { slot < length self.old.cache.slots }
        requires dirty { (cache_slot_at self.old.cache.slots slot).dirty ≡ true }
        ensures row { FlushRow slot result (parts_of self.old) (parts_of self.new) }
        ensures calls { CallsOnce self.old.store (stop_of_work result) self.new.store }
        ensures busy { IsIdle result → ⊥ }
    {
        self.cache.known();
        match self.cache.page(slot) {
            Some(page) => self.flush_page(slot, page),
            None => unreachable!(),
        }
    }
}
