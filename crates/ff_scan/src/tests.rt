// What is found by the probes of three blocks of three pages, and where the probes of a flash stop.
ghost use Rattle.std.specs.Prelude.{◌≡◌, ◌*◌, ◌<◌, ◌≤◌, ◌^◌, true, false, length, IfOk, IsTrue};
ghost use Rattle.ff_base.specs.Geometry.{IsWithinLimits};
ghost use Rattle.ff_flash.specs.Plans.{IsPlan, planned_of};
ghost use Rattle.ff_flash.specs.declared.flash.Probe.TheVariants.{Sealed};
ghost use Rattle.ff_flash.specs.declared.spare.Spare.{Spare};
ghost use Rattle.ff_space.specs.Choices.{NoBlock};
ghost use Rattle.ff_scan.specs.Covered.{IsCoveredBlock};
ghost use Rattle.ff_scan.specs.Probes.{AreProbes};
ghost use Rattle.ff_scan.specs.Tops.{AreTops};

use crate::covered::least_covered;
use crate::scan::{Found, Scan, blank_tops, find};
use crate::tops::{Top, find_tops};
use ff_base::{Block, Geometry, NoMemory, PageNo, Ppn};
use ff_flash::{CutAt, Flash, FlashStop, Plan, Probe, SimFlash, Spare};
use ff_map::PageMap;
use ff_space::{BlockTable, Place};
use std::alloc::Global;
use std::process::Abort;
use std::test::Fail;

const E: Probe = Probe::Erased;

fn s(page: u32, version: u64) -> Probe {
    Probe::Sealed(Spare {
        page: PageNo(page),
        version,
    })
}

fn small() -> Geometry {
    Geometry {
        blocks: 3,
        per_block: 3,
        pages: 2,
        ..Geometry::default()
    }
}

fn is_fit(probe: &Probe, pages: u32) -> bool
    ensures { IsTrue result → (spare : Spare) → probe.now ≡ Sealed spare
        → (spare.page.0 < pages) × (1 ≤ spare.version) × (spare.version < 2 ^ 63) }
{
    match probe {
        Probe::Sealed(spare) => {
            spare.page.0 < pages && 1 <= spare.version && spare.version < 1 << 63
        }
        Probe::Erased | Probe::Spoiled | Probe::Closed => true,
    }
}

fn are_probes(probes: &[Probe], geometry: &Geometry) -> bool
    requires { IsWithinLimits geometry.now }
    ensures { IsTrue result → AreProbes geometry.now probes.now }
{
    if probes.len() != (geometry.blocks * geometry.per_block) as usize {
        return false;
    }
    for place in 0..probes.len() {
        if !is_fit(&probes[place], geometry.pages) {
            return false;
        }
    }
    true
}

fn has_covered(probes: &[Probe], geometry: &Geometry, tops: &[Top]) -> bool
    requires limits { IsWithinLimits geometry.now }
    requires probes { AreProbes geometry.now probes.now }
    requires pages { length tops.now ≡ geometry.now.pages }
    requires tops { AreTops geometry.now.per_block probes.now (length probes.now) tops.now }
    ensures { IsTrue result → NoBlock (IsCoveredBlock geometry.now probes.now) → ⊥ }
{
    match least_covered(probes, geometry, tops) {
        Some(_) => true,
        None => false,
    }
}

fn sizes(rt: &impl Abort) -> Geometry
    ensures { IsWithinLimits result }
{
    let geometry = small();
    geometry.check().expect(rt, "a geometry out of bounds");
    geometry
}

fn find_covered(probes: &[Probe], geometry: &Geometry, tops: &mut [Top]) -> bool
    requires limits { IsWithinLimits geometry.now }
    requires probes { AreProbes geometry.now probes.now }
    requires pages { length tops.old ≡ geometry.now.pages }
    requires none { AreTops geometry.now.per_block probes.now 0 tops.old }
    ensures { IsTrue result → NoBlock (IsCoveredBlock geometry.now probes.now) → ⊥ }
{
    find_tops(probes, geometry, tops);
    has_covered(probes, geometry, tops)
}

fn check_covered(
    rt: &impl Abort,
    alloc: Global,
    probes: &[Probe],
    geometry: &Geometry,
) -> Result<(), Fail>
    requires limits { IsWithinLimits geometry.now }
    requires probes { AreProbes geometry.now probes.now }
    ensures { IfOk result (λ _. NoBlock (IsCoveredBlock geometry.now probes.now) → ⊥) }
{
    let mut tops = blank_tops(alloc, geometry.pages)?;
    assert!(rt; find_covered(probes, geometry, &mut tops));
    Ok(())
}

fn find_in(alloc: Global, probes: &[Probe], geometry: &Geometry) -> Result<Found, NoMemory>
    requires limits { IsWithinLimits geometry.now }
    requires probes { AreProbes geometry.now probes.now }
    requires covered { NoBlock (IsCoveredBlock geometry.now probes.now) → ⊥ }
{
    let mut blank = blank_tops(alloc, geometry.pages)?;
    let mut space = BlockTable::new(alloc, geometry)?;
    let mut places = PageMap::new(alloc, geometry)?;
    let spare = find(probes, geometry, &mut blank, &mut space, &mut places);
    Ok(Found {
        space,
        places,
        spare,
    })
}

// What is found by these probes.
fn found(rt: &impl Abort, alloc: Global, probes: &[Probe]) -> Result<Found, Fail> {
    let geometry = sizes(rt);
    assert!(rt; are_probes(probes, &geometry));
    check_covered(rt, alloc, probes, &geometry)?;
    Ok(find_in(alloc, probes, &geometry)?)
}

// The spare block, where the next page is programmed, how many blocks are erased, the next version, and the place and
// the version of each page.
type Wanted = (u32, Place, u32, u64, [Option<(u32, u64)>; 2]);

fn mapping(found: &Found, page: u32) -> Option<(u32, u64)> {
    let at = found.places.get(PageNo(page))?;
    Some((at.0, found.places.version(PageNo(page))?))
}

fn told(found: &Found) -> Wanted {
    (
        found.spare.0,
        found.space.place(),
        found.space.erased(),
        found.places.next_version(),
        [mapping(found, 0), mapping(found, 1)],
    )
}

fn check(rt: &impl Abort, alloc: Global, probes: &[Probe], wanted: Wanted) -> Result<(), Fail> {
    let found = found(rt, alloc, probes)?;
    assert_eq!(rt; told(&found), wanted);
    Ok(())
}

#[test]
fn nothing_is_found_where_all_is_erased(rt: HostRuntime) -> Result<(), Fail> {
    let wanted = (0, Place::TakeErased(Block(0)), 3, 1, [None, None]);
    check(&rt, rt.alloc(), &[E; 9], wanted)
}

#[test]
fn the_least_covered_block_is_spare(rt: HostRuntime) -> Result<(), Fail> {
    let spoiled = Probe::Spoiled;
    let probes = [s(0, 1), s(1, 2), E, s(0, 1), spoiled, E, E, E, E];
    let wanted = (1, Place::Free(Ppn(2)), 1, 3, [Some((0, 1)), Some((1, 2))]);
    check(&rt, rt.alloc(), &probes, wanted)
}

#[test]
fn the_spare_block_may_be_erased_already(rt: HostRuntime) -> Result<(), Fail> {
    let probes = [s(0, 1), s(1, 1), E, E, E, E, s(0, 1), E, E];
    let wanted = (1, Place::Free(Ppn(2)), 1, 2, [Some((0, 1)), Some((1, 1))]);
    check(&rt, rt.alloc(), &probes, wanted)
}

#[test]
fn of_equal_versions_the_least_place_is_mapped(rt: HostRuntime) -> Result<(), Fail> {
    let probes = [s(0, 5), E, E, E, s(0, 5), E, s(0, 5), s(1, 4), s(0, 3)];
    let wanted = (0, Place::Free(Ppn(5)), 0, 6, [Some((4, 5)), Some((7, 4))]);
    check(&rt, rt.alloc(), &probes, wanted)
}

#[test]
fn a_block_without_sealed_pages_is_covered(rt: HostRuntime) -> Result<(), Fail> {
    let closed = Probe::Closed;
    let probes = [s(0, 2), s(0, 1), s(1, 3), closed, E, E, s(0, 9), s(1, 1), E];
    let wanted = (1, Place::Free(Ppn(8)), 0, 10, [Some((6, 9)), Some((2, 3))]);
    check(&rt, rt.alloc(), &probes, wanted)
}

// How the flash goes.
#[derive(Clone, Copy)]
enum Way {
    Works,
    /// The fourth operation fails, and the ninth is cut.
    Fails,
    /// The ninth operation is cut.
    Cut,
}

fn plan_of(alloc: Global, way: Way) -> Result<Plan, NoMemory>
    ensures { IfOk result (λ plan. IsPlan (planned_of plan)) }
{
    let ninth = CutAt {
        at: 9,
        mask: 0,
        arrive: 0,
    };
    match way {
        Way::Works => Ok(Plan {
            fail: Vec::new(alloc),
            cuts: Vec::new(alloc),
        }),
        Way::Fails => Ok(Plan {
            fail: vec![in alloc; 4]?,
            cuts: vec![in alloc; ninth]?,
        }),
        Way::Cut => Ok(Plan {
            fail: Vec::new(alloc),
            cuts: vec![in alloc; ninth]?,
        }),
    }
}

// How the probes of a flash end, and how many were made.
type Ended = (Result<(), FlashStop>, u64);

fn probe_in(alloc: Global, geometry: &Geometry, flash: &mut SimFlash) -> Result<Ended, NoMemory>
    requires limits { IsWithinLimits geometry.now }
    requires on { flash.old.on ≡ true }
    requires uncut { flash.old.cut ≡ false }
    requires places { length flash.old.cells ≡ geometry.now.blocks * geometry.now.per_block }
    requires life { flash.old.operations ≤ 2 ^ 62 }
{
    let mut scan = Scan::new(alloc, geometry)?;
    let result = scan.probe_all(flash);
    Ok((result, flash.operation_count()))
}

fn probed(alloc: Global, geometry: &Geometry, way: Way) -> Result<Ended, NoMemory>
    requires { IsWithinLimits geometry.now }
{
    let mut flash = SimFlash::new(alloc, geometry, plan_of(alloc, way)?)?;
    probe_in(alloc, geometry, &mut flash)
}

fn check_probed(rt: &impl Abort, alloc: Global, way: Way, wanted: Ended) -> Result<(), Fail> {
    let geometry = sizes(rt);
    assert_eq!(rt; probed(alloc, &geometry, way)?, wanted);
    Ok(())
}

#[test]
fn probes_end_at_the_first_that_stops(rt: HostRuntime) -> Result<(), Fail> {
    let alloc = rt.alloc();
    check_probed(&rt, alloc, Way::Works, (Ok(()), 9))?;
    check_probed(&rt, alloc, Way::Fails, (Err(FlashStop::Failed), 4))?;
    check_probed(&rt, alloc, Way::Cut, (Err(FlashStop::Off), 9))
}
