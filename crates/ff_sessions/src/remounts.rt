// Mounts what a session left, and makes the image of it.
ghost use Rattle.std.specs.Prelude.{◌≡◌, ◌≤◌, ◌^◌, IfErr, IfOk};
ghost use Rattle.ff_base.specs.Geometry.{IsWithinLimits};
ghost use Rattle.ff_mount.specs.Sound.{AreSound};
ghost use Rattle.ff_sessions.specs.Remounts.{HasRemounted, IsStoppedRemount};

use ff_base::Geometry;
use ff_cache::Nv;
use ff_flash::Flash;
use ff_model::Image;
use ff_mount::{MountBack, MountStop, Mounted, image_of, mount};
use std::alloc::Global;

/// Mounted parts, and the image of them.
#[derive(Drop)]
pub struct MountedImage<F: Flash> {
    pub mounted: Mounted<F>,
    pub image: Image,
}

/// Mounts what a session left, and makes the image of it.
pub fn remount<F: Flash + Drop>(
    alloc: Global,
    nv: Nv,
    flash: F,
    geometry: &Geometry,
) -> Result<MountedImage<F>, MountStop>
    requires geometry { IsWithinLimits geometry.now }
    requires sound { AreSound geometry.now nv (F.state flash) }
    requires life { (F.state flash).operations ≤ 2 ^ 61 }
    ensures ok { IfOk result (λ r. HasRemounted geometry.now nv (F.state flash) r.mounted.store
        r.mounted.cache r.mounted.marks r.image) }
    ensures err { IfErr result (IsStoppedRemount geometry.now nv (F.state flash)) }
{
    match mount(alloc, nv, flash, geometry) {
        Ok(mut mounted) => match image_of(alloc, &mut mounted, geometry) {
            Ok(image) => Ok(MountedImage { mounted, image }),
            Err(stop) => {
                drop(mounted);
                Err(stop)
            }
        },
        Err(back) => Err(stop_of(back)),
    }
}

fn stop_of<F: Flash + Drop>(back: MountBack<F>) -> MountStop
    ensures { result ≡ back.stop }
{
    back.stop
}
