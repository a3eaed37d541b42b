// A mount of what a power loss left.
ghost use Rattle.std.specs.Prelude.{◌≡◌, ◌≤◌, ◌^◌, IfErr, IfOk, IfSome, MatchResult, None};
ghost use Rattle.ff_base.specs.Geometry.{IsWithinLimits};
ghost use Rattle.ff_flash.specs.FlashState.{powered_up};
ghost use Rattle.ff_mount.specs.Held.{nv_of};
ghost use Rattle.ff_mount.specs.Mounted.{IsMounted, IsMountRefused, mount_probes};
ghost use Rattle.ff_mount.specs.Reading.{HasStopped};
ghost use Rattle.ff_mount.specs.Sound.{AreSound};
ghost use Rattle.ff_mount.specs.Stops.{StopsBy, refused_stop};
ghost use Rattle.ff_scan.specs.Probing.{first_stop};
ghost use Rattle.ff_store.specs.PageStore.{IsStoreSound};
ghost use Rattle.ff_store.specs.Remounted.{IsRemountable, IsRemounted, probed_flash};

use crate::image::Mounted;
use crate::stop::MountStop;
use ff_base::Geometry;
use ff_cache::{Cache, Nv, NvParts};
use ff_flash::Flash;
use ff_store::{PageStore, StoreBack, StoreStop};
use std::alloc::Global;

/// What a mount that was refused hands back, and why it was.
#[derive(Drop)]
pub struct MountBack<F: Flash> {
    pub nv: Nv,
    pub flash: F,
    pub stop: MountStop,
}

fn stop_of(stop: StoreStop) -> MountStop
    ensures { result ≡ refused_stop stop }
{
    match stop {
        StoreStop::NoMemory => MountStop::NoMemory,
        StoreStop::Failed => MountStop::Fault,
        StoreStop::Off => MountStop::Off,
    }
}

// Makes the store. A refusal takes the cache apart again.
#[tactic(auto, using(crate::proofs::Refusing::handed_back, crate::proofs::Refusing::stops_same))]
fn mount_store<F: Flash>(
    alloc: Global,
    parts: NvParts,
    flash: F,
    geometry: &Geometry,
) -> Result<Mounted<F>, MountBack<F>>
    requires geometry { IsWithinLimits geometry.now }
    requires sound { IsRemountable geometry.now (F.state flash) }
    requires life { (F.state flash).operations ≤ 2 ^ 62 }
    ensures store { IfOk result (λ mounted. IsRemounted geometry.now mounted.store) }
    ensures sound { IfOk result (λ mounted. IsStoreSound mounted.store) }
    ensures flash { IfOk result (λ mounted. mounted.store.world.flash
        ≡ probed_flash (F.state flash) (mount_probes geometry.now)) }
    ensures cache { IfOk result (λ mounted. mounted.cache ≡ parts.cache) }
    ensures marks { IfOk result (λ mounted. mounted.marks ≡ parts.marks) }
    ensures nv { IfErr result (λ back. back.nv ≡ nv_of parts.cache parts.marks) }
    ensures back { IfErr result
        (λ back. HasStopped (powered_up (F.state flash)) back.stop (F.state back.flash)) }
    ensures planned { IfSome (F.state flash).plan (λ plan. MatchResult result
        (λ _. first_stop plan (F.state flash).operations (mount_probes geometry.now) ≡ None)
        (λ back. StopsBy plan (F.state flash).operations (mount_probes geometry.now)
        back.stop)) }
{
    match PageStore::remount(alloc, flash, geometry) {
        Ok(store) => {
            store.known();
            Ok(Mounted {
                store,
                cache: parts.cache,
                marks: parts.marks,
            })
        }
        Err(StoreBack { flash, stop }) => Err(MountBack {
            nv: parts.cache.into_nv(parts.marks),
            flash,
            stop: stop_of(stop),
        }),
    }
}

/// Mounts what a power loss left: turns the power on, and makes the store by one probe of each place, and the cache
/// and the marks of the content. No cell changes. A mount that is refused hands back what it was given.
pub fn mount<F: Flash>(
    alloc: Global,
    nv: Nv,
    flash: F,
    geometry: &Geometry,
) -> Result<Mounted<F>, MountBack<F>>
    requires geometry { IsWithinLimits geometry.now }
    requires sound { AreSound geometry.now nv (F.state flash) }
    requires life { (F.state flash).operations ≤ 2 ^ 62 }
    ensures mounted { IfOk result (λ mounted. IsMounted geometry.now nv (F.state flash)
        mounted.store mounted.cache mounted.marks) }
    ensures refused { IfErr result (λ back. IsMountRefused geometry.now nv (F.state flash) back.stop
        back.nv (F.state back.flash)) }
    ensures planned { IfSome (F.state flash).plan (λ plan. MatchResult result
        (λ _. first_stop plan (F.state flash).operations (mount_probes geometry.now) ≡ None)
        (λ back. StopsBy plan (F.state flash).operations (mount_probes geometry.now)
        back.stop)) }
{
    let mut flash = flash;
    flash.power_up();
    match Cache::from_nv(alloc, nv, geometry) {
        Ok(parts) => mount_store(alloc, parts, flash, geometry),
        Err(nv) => Err(MountBack {
            nv,
            flash,
            stop: MountStop::NoMemory,
        }),
    }
}
