// The map of the newest pages outside the spare block.
ghost use Rattle.std.specs.Prelude.{◌≡◌, ◌≢◌, ◌+◌, ◌*◌, ◌/◌, ◌<◌, ◌↔◌, length, None, IfNone, IfSome, IsTrue};
ghost use Rattle.ff_base.specs.Geometry.{IsWithinLimits};
ghost use Rattle.ff_flash.specs.declared.spare.Spare.{Spare};
ghost use Rattle.ff_map.specs.PageMap.{mapping_of};
ghost use Rattle.ff_scan.specs.Mapped.{AreTopsMapped, IsTop};
ghost use Rattle.ff_scan.specs.Probes.{AreProbes, probe_at};
ghost use Rattle.ff_scan.specs.Tops.{AreTops};

use crate::tops::Top;
use ff_base::{Block, Geometry, Ppn};
use ff_flash::{Probe, Spare};
use ff_map::PageMap;
use ff_space::BlockTable;

// Maps each page to its newest place outside the spare block, the first of those that are as new.
pub fn map_all(
    space: &mut BlockTable,
    places: &mut PageMap,
    probes: &[Probe],
    geometry: &Geometry,
    tops: &[Top],
    spare: Block,
)
    requires limits { IsWithinLimits geometry.now }
    requires probes { AreProbes geometry.now probes.now }
    requires pages { length tops.now ≡ geometry.now.pages }
    requires tops { AreTops geometry.now.per_block probes.now (length probes.now) tops.now }
    requires none { AreTopsMapped geometry.now probes.now spare.0 0 space.old places.old }
    ensures { AreTopsMapped geometry.now probes.now spare.0 (length probes.now) space.new
        places.new }
{
    for place in 0..geometry.blocks * geometry.per_block {
        map_place(space, places, probes, geometry, tops, spare, Ppn(place));
    }
}

#[tactic(auto, using(crate::proofs::Mappings::mapped_left))]
fn map_place(
    space: &mut BlockTable,
    places: &mut PageMap,
    probes: &[Probe],
    geometry: &Geometry,
    tops: &[Top],
    spare: Block,
    place: Ppn,
)
    requires limits { IsWithinLimits geometry.now }
    requires probes { AreProbes geometry.now probes.now }
    requires pages { length tops.now ≡ geometry.now.pages }
    requires tops { AreTops geometry.now.per_block probes.now (length probes.now) tops.now }
    requires place { place.0 < length probes.now }
    requires mapped { AreTopsMapped geometry.now probes.now spare.0 place.0 space.old places.old }
    ensures { AreTopsMapped geometry.now probes.now spare.0 (place.0 + 1) space.new places.new }
{
    if let Some(found) = wanted(places, probes, geometry, tops, spare, place) {
        map_found(space, places, probes, geometry, spare, place, found);
    }
}

fn map_found(
    space: &mut BlockTable,
    places: &mut PageMap,
    probes: &[Probe],
    geometry: &Geometry,
    spare: Block,
    place: Ppn,
    found: Spare,
)
    requires limits { IsWithinLimits geometry.now }
    requires probes { AreProbes geometry.now probes.now }
    requires place { place.0 < length probes.now }
    requires mapped { AreTopsMapped geometry.now probes.now spare.0 place.0 space.old places.old }
    requires top { IsTop geometry.now.per_block probes.now spare.0 place.0 found }
    requires none { mapping_of places.old found.page ≡ None }
    ensures { AreTopsMapped geometry.now probes.now spare.0 (place.0 + 1) space.new places.new }
{
    space.add_mapped(Block(place.0 / geometry.per_block));
    places.set(found.page, place, found.version);
}

// What a place holds, where it is to be mapped.
fn wanted(
    places: &PageMap,
    probes: &[Probe],
    geometry: &Geometry,
    tops: &[Top],
    spare: Block,
    place: Ppn,
) -> Option<Spare>
    requires limits { IsWithinLimits geometry.now }
    requires probes { AreProbes geometry.now probes.now }
    requires pages { length tops.now ≡ geometry.now.pages }
    requires tops { AreTops geometry.now.per_block probes.now (length probes.now) tops.now }
    requires place { place.0 < length probes.now }
    ensures top { IfSome result
        (λ found. IsTop geometry.now.per_block probes.now spare.0 place.0 found) }
    ensures none { IfSome result (λ found. mapping_of places.now found.page ≡ None) }
    ensures other { IfNone result ((found : Spare)
        → IsTop geometry.now.per_block probes.now spare.0 place.0 found
        → mapping_of places.now found.page ≢ None) }
{
    match probes[place.0 as usize] {
        Probe::Sealed(found) => {
            let top = is_top(probes, geometry, tops, spare, place, found);
            if top && places.get(found.page).is_none() {
                Some(found)
            } else {
                None
            }
        }
        Probe::Erased | Probe::Spoiled | Probe::Closed => None,
    }
}

// Whether no page outside the spare block is newer than this one, which is outside too.
fn is_top(
    probes: &[Probe],
    geometry: &Geometry,
    tops: &[Top],
    spare: Block,
    place: Ppn,
    found: Spare,
) -> bool
    requires limits { IsWithinLimits geometry.now }
    requires probes { AreProbes geometry.now probes.now }
    requires pages { length tops.now ≡ geometry.now.pages }
    requires tops { AreTops geometry.now.per_block probes.now (length probes.now) tops.now }
    requires found { probe_at probes.now place.0 ≡ Probe.Sealed found }
    ensures { IsTrue result ↔ IsTop geometry.now.per_block probes.now spare.0 place.0 found }
{
    let newest = tops[found.page.0 as usize].outside(spare.0);
    place.0 / geometry.per_block != spare.0 && found.version == newest
}
