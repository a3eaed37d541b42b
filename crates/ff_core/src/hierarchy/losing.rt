// A hierarchy whose power goes off, and what is left of it.
ghost use Rattle.std.specs.Prelude.{◌≡◌, drop};
ghost use Rattle.ff_kept.specs.Waiting.{kept_length};
ghost use Rattle.ff_mount.specs.Held.{nv_of};
ghost use Rattle.ff_core.specs.Hierarchy.{flash_under};
ghost use Rattle.ff_core.specs.Losing.{IsPoweredDown, device_off};

use crate::hierarchy::Hierarchy;
use ff_cache::Nv;
use ff_device::Device;
use ff_evict::{Pick, Picker};
use ff_flash::Flash;
use ff_policy::{Tune, Tuner};

// What is left of a hierarchy.
#[derive(Drop)]
pub(crate) struct Left<F: Flash, T: Tune, E: Pick> {
    pub(crate) nv: Nv,
    pub(crate) flash: F,
    pub(crate) tuner: Tuner<T>,
    pub(crate) picker: Picker<E>,
}

// So many of the oldest posts arrive, and the power goes off. Of so many entries, how many are kept.
#[tactic(auto, using(crate::proofs::PoweredDown::first_kept))]
fn power_down<F: Flash>(device: &mut Device<F>, arrive: u32, entries: u32) -> u32
    ensures kept { result ≡ kept_length (drop arrive device.old.window.posts) entries }
    ensures down { IsPoweredDown arrive device.old device.new }
{
    let lost = device.arrive(arrive);
    device.power_off();
    device.known();
    device.store().known();
    lost.unwrap_or(entries)
}

impl<F: Flash, T: Tune, E: Pick> Hierarchy<F, T, E> {
    // So many of the oldest posts arrive, and the power goes off. Of so many entries, how many are kept.
    pub(crate) fn lose_power(&mut self, arrive: u32, entries: u32) -> u32
        ensures kept { result ≡ kept_length (drop arrive self.old.device.window.posts) entries }
        ensures down { IsPoweredDown arrive self.old.device self.new.device }
        ensures rest { self.new ≡ record self.old { device = self.new.device } }
    {
        power_down(&mut self.device, arrive, entries)
    }

    // The power goes off. Nothing else changes.
    pub(crate) fn power_off(&mut self)
        ensures { self.new ≡ record self.old { device = device_off self.old.device } }
    {
        self.device.power_off();
    }

    // What the battery keeps, the flash, and what the policy was made with.
    pub(crate) fn into_left(self) -> Left<F, T, E>
        ensures nv { result.nv ≡ nv_of self.device.cache self.memory.table.marks }
        ensures flash { F.state result.flash ≡ flash_under self }
        ensures tuner { result.tuner ≡ self.policy.tuner }
        ensures picker { result.picker ≡ self.evictor.picker }
    {
        let parts = self.device.into_parts();
        Left {
            nv: parts.cache.into_nv(self.memory.into_marks()),
            flash: parts.store.into_flash(),
            tuner: self.policy.into_tuner(),
            picker: self.evictor.into_picker(),
        }
    }
}
