// The memory over its device, and what chooses the pages that move.
ghost use Rattle.std.specs.Prelude.{◌≡◌};

mod choosing;
mod losing;
mod performing;
mod serving;

use ff_device::Device;
use ff_evict::{Evictor, Pick};
use ff_flash::Flash;
use ff_memory::Memory;
use ff_policy::{Policy, Tune};
use std::marker::Model;

/// The memory over its device, and what chooses the pages that move.
#[derive(Drop)]
pub struct Hierarchy<F: Flash, T: Tune, E: Pick> {
    pub(crate) memory: Memory,
    pub(crate) device: Device<F>,
    pub(crate) policy: Policy<T>,
    pub(crate) evictor: Evictor<E>,
}

impl<F: Flash, T: Tune, E: Pick> Model for Hierarchy<F, T, E> {
    ghost use Rattle.ff_core.specs.Hierarchy.{HierarchyView};

    ghost Value = { HierarchyView T E };

    ghost view = { λ h. record {
      memory = h.memory;
      device = h.device;
      policy = h.policy;
      evictor = h.evictor;
    } };
}

impl<F: Flash, T: Tune, E: Pick> Hierarchy<F, T, E> {
    ghost use Rattle.ff_core.specs.Hierarchy.{flash_under};

    // Whether the power is on.
    pub(crate) fn is_on(&self) -> bool
        ensures { result ≡ (flash_under self.now).on }
    {
        self.device.store().flash().is_on()
    }

    // How often the flash has failed.
    pub(crate) fn faults(&self) -> u64
        ensures { result ≡ (flash_under self.now).faults }
    {
        self.device.store().flash().fault_count()
    }
}
