// Keeps what a session left, and remounts it.
ghost use Rattle.std.specs.Prelude.{◌≡◌, ◌≤◌, ◌^◌, IfErr, IfOk};
ghost use Rattle.ff_base.specs.Geometry.{IsWithinLimits};
ghost use Rattle.ff_flash.specs.SimFlash.{IsSimFlashSound};
ghost use Rattle.ff_mount.specs.Sound.{AreSound};
ghost use Rattle.ff_sessions.specs.Closing.{IsClosedSession};
ghost use Rattle.ff_sessions.specs.Remounts.{HasRemounted, IsStoppedRemount};

use crate::remounts::{MountedImage, remount};
use crate::session::Session;
use ff_base::{Geometry, NoMemory};
use ff_cache::Nv;
use ff_core::Lost;
use ff_evict::{Pick, Picker};
use ff_flash::SimFlash;
use ff_model::Image;
use ff_mount::{MountStop, Mounted};
use ff_policy::{Tune, Tuner};
use std::alloc::Global;

/// A session that is over, the parts over which the next one may begin, and what its policy is made with.
#[derive(Drop)]
pub struct Closed<T: Tune, E: Pick> {
    pub session: Session,
    pub mounted: Option<Mounted<SimFlash>>,
    pub tuner: Tuner<T>,
    pub picker: Picker<E>,
}

/// Keeps a copy of what a session left, and remounts it. A planned stop of the remount is the session's own, and want of
/// memory is an error.
pub fn close<T: Tune + Drop, E: Pick + Drop>(
    alloc: Global,
    lost: Lost<SimFlash, T, E>,
    geometry: &Geometry,
) -> Result<Closed<T, E>, NoMemory>
    requires geometry { IsWithinLimits geometry.now }
    requires sound { AreSound geometry.now lost.nv lost.flash }
    requires life { lost.flash.operations ≤ 2 ^ 61 }
    ensures { IfOk result (IsClosedSession geometry.now lost) }
{
    match remount_copies(alloc, &lost.nv, &lost.flash, geometry) {
        Ok(MountedImage { mounted, image }) => Ok(kept(lost, Some(mounted), Some(image), None)),
        Err(MountStop::NoMemory) => {
            drop(lost);
            Err(NoMemory)
        }
        Err(stop) => Ok(kept(lost, None, None, Some(stop))),
    }
}

// Mounts copies of what a session left.
fn remount_copies(
    alloc: Global,
    nv: &Nv,
    flash: &SimFlash,
    geometry: &Geometry,
) -> Result<MountedImage<SimFlash>, MountStop>
    requires geometry { IsWithinLimits geometry.now }
    requires sound { AreSound geometry.now nv.now flash.now }
    requires life { flash.now.operations ≤ 2 ^ 61 }
    ensures ok { IfOk result (λ r. HasRemounted geometry.now nv.now flash.now r.mounted.store
        r.mounted.cache r.mounted.marks r.image) }
    ensures err { IfErr result (IsStoppedRemount geometry.now nv.now flash.now) }
{
    let Ok(nv) = nv.copy(alloc) else {
        return Err(MountStop::NoMemory);
    };
    let Ok(flash) = flash.copy(alloc) else {
        return Err(MountStop::NoMemory);
    };
    flash_known(&flash);
    remount(alloc, nv, flash, geometry)
}

fn kept<T: Tune, E: Pick>(
    lost: Lost<SimFlash, T, E>,
    mounted: Option<Mounted<SimFlash>>,
    image: Option<Image>,
    stop: Option<MountStop>,
) -> Closed<T, E>
    ensures { result ≡ record {
      session = record {
        base = lost.base;
        account = lost.account;
        nv = lost.nv;
        flash = lost.flash;
        image = image;
        stop = stop;
      };
      mounted = mounted;
      tuner = lost.tuner;
      picker = lost.picker;
    } }
{
    Closed {
        session: Session {
            base: lost.base,
            account: lost.account,
            nv: lost.nv,
            flash: lost.flash,
            image,
            stop,
        },
        mounted,
        tuner: lost.tuner,
        picker: lost.picker,
    }
}

// What every simulated flash keeps. For the prover alone.
fn flash_known(flash: &SimFlash)
    ensures { IsSimFlashSound flash.now }
{
    let _ = flash.cut_arrive();
}
