// A store made of what a power loss left in a flash.
ghost use Rattle.std.specs.Prelude.{◌≡◌, ◌*◌, ◌<◌, ◌≤◌, ◌^◌, length, IfErr, IfOk, IfSome, MatchResult, None};
ghost use Rattle.ff_base.specs.Geometry.{IsWithinLimits};
ghost use Rattle.ff_flash.specs.FlashState.{HasOperationsLeft, powered_up};
ghost use Rattle.ff_scan.specs.Probes.{probes_of};
ghost use Rattle.ff_scan.specs.Probing.{first_stop};
ghost use Rattle.ff_scan.specs.Scan.{new_scan};
ghost use Rattle.ff_gc.specs.Collector.{new_collector};
ghost use Rattle.ff_store.specs.Remounted.{IsHandedBack, IsRemountable, IsRemounted, IsPlannedStop, block_to_erase, probed_flash, store_stop};

use crate::store::PageStore;
use ff_base::{Block, Geometry, NoMemory};
use ff_flash::{Flash, FlashStop};
use ff_gc::{Collector, FlashCounts};
use ff_scan::{Found, Scan};
use std::alloc::Global;

/// Why a store could not be made of a flash.
#[derive(Clone, Copy, Debug, PartialEq, Eq)]
pub enum StoreStop {
    NoMemory,
    /// A probe failed.
    Failed,
    /// The power was cut in a probe.
    Off,
}

/// A flash that is handed back.
#[derive(Drop)]
pub struct StoreBack<F> {
    pub flash: F,
    pub stop: StoreStop,
}

#[derive(Drop)]
struct RemountRoom {
    scan: Scan,
    collector: Collector,
}

fn make_room(alloc: Global, geometry: &Geometry) -> Result<RemountRoom, NoMemory>
    requires { IsWithinLimits geometry.now }
    ensures scan { IfOk result (λ room. room.scan ≡ new_scan geometry.now) }
    ensures collector { IfOk result (λ room. room.collector ≡ new_collector geometry.now) }
{
    Ok(RemountRoom {
        scan: Scan::new(alloc, geometry)?,
        collector: Collector::new(alloc, geometry)?,
    })
}

fn stop_of(stop: FlashStop) -> StoreStop
    ensures { result ≡ store_stop stop }
{
    match stop {
        FlashStop::Failed => StoreStop::Failed,
        FlashStop::Off => StoreStop::Off,
    }
}

// The spare block, where it isn't erased.
fn to_erase(found: &Found) -> Option<Block>
    requires { found.now.spare.0 < length found.now.space.blocks }
    ensures { result ≡ block_to_erase found.now.space found.now.spare.0 }
{
    if found.space.next(found.spare) == 0 {
        None
    } else {
        Some(found.spare)
    }
}

impl<F: Flash> PageStore<F> {
    /// A store made of the flash alone, by one probe of each place, as a power loss left it. The power is turned on
    /// first.
    pub fn remount(
        alloc: Global,
        flash: F,
        geometry: &Geometry,
    ) -> Result<PageStore<F>, StoreBack<F>>
        requires geometry { IsWithinLimits geometry.now }
        requires sound { IsRemountable geometry.now (F.state flash) }
        requires life { (F.state flash).operations ≤ 2 ^ 62 }
        ensures store { IfOk result (λ store. IsRemounted geometry.now store) }
        ensures flash { IfOk result (λ store. store.world.flash
            ≡ probed_flash (F.state flash) (geometry.now.blocks * geometry.now.per_block)) }
        ensures back { IfErr result
            (λ back. IsHandedBack (F.state flash) back.stop (F.state back.flash)) }
        ensures planned { IfSome (F.state flash).plan (λ plan. MatchResult result
            (λ _. first_stop plan (F.state flash).operations
            (geometry.now.blocks * geometry.now.per_block) ≡ None)
            (λ back. IsPlannedStop plan (F.state flash).operations
            (geometry.now.blocks * geometry.now.per_block) back.stop)) }
    {
        let mut flash = flash;
        flash.power_up();
        match make_room(alloc, geometry) {
            Ok(room) => PageStore::probe(flash, room, geometry),
            Err(_) => Err(StoreBack {
                flash,
                stop: StoreStop::NoMemory,
            }),
        }
    }

    fn probe(flash: F, room: RemountRoom, geometry: &Geometry) -> Result<PageStore<F>, StoreBack<F>>
        requires geometry { IsWithinLimits geometry.now }
        requires sound { IsRemountable geometry.now (F.state flash) }
        requires life { (F.state flash).operations ≤ 2 ^ 62 }
        requires up { F.state flash ≡ powered_up (F.state flash) }
        requires scan { room.scan ≡ new_scan geometry.now }
        requires collector { room.collector ≡ new_collector geometry.now }
        ensures store { IfOk result (λ store. IsRemounted geometry.now store) }
        ensures flash { IfOk result (λ store. store.world.flash
            ≡ probed_flash (F.state flash) (geometry.now.blocks * geometry.now.per_block)) }
        ensures back { IfErr result
            (λ back. IsHandedBack (F.state flash) back.stop (F.state back.flash)) }
        ensures planned { IfSome (F.state flash).plan (λ plan. MatchResult result
            (λ _. first_stop plan (F.state flash).operations
            (geometry.now.blocks * geometry.now.per_block) ≡ None)
            (λ back. IsPlannedStop plan (F.state flash).operations
            (geometry.now.blocks * geometry.now.per_block) back.stop)) }
    {
        let mut flash = flash;
        let RemountRoom {
            mut scan,
            collector,
        } = room;
        let _known = flash.fault_count();
        match scan.probe_all(&mut flash) {
            Ok(()) => Ok(PageStore::settle(flash, scan, collector, geometry)),
            Err(stop) => Err(StoreBack {
                flash,
                stop: stop_of(stop),
            }),
        }
    }

    fn settle(flash: F, scan: Scan, collector: Collector, geometry: &Geometry) -> PageStore<F>
        requires geometry { IsWithinLimits geometry.now }
        requires size { length (F.state flash).cells
            ≡ geometry.now.blocks * geometry.now.per_block }
        requires sound { IsRemountable geometry.now (F.state flash) }
        requires life { HasOperationsLeft (F.state flash) }
        requires sizes { scan.geometry ≡ geometry.now }
        requires probes { scan.probes ≡ probes_of (F.state flash).cells }
        requires collector { collector ≡ new_collector geometry.now }
        ensures store { IsRemounted geometry.now result }
        ensures flash { result.world.flash ≡ F.state flash }
    {
        let opened = flash.operation_count();
        let mut collector = collector;
        let found = scan.finish();
        collector.after_mount(to_erase(&found));
        PageStore {
            flash,
            collector,
            space: found.space,
            places: found.places,
            counts: FlashCounts::new(),
            waits: None,
            owed: false,
            per_block: geometry.per_block,
            low: geometry.low,
            opened,
        }
    }
}
