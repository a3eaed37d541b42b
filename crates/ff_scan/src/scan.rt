// A scan of a flash.
ghost use Rattle.std.specs.Prelude.{◌≡◌, ◌*◌, ◌≤◌, ◌^◌, [], true, false, length, replicate, IfOk, IfSome};
ghost use Rattle.ff_base.specs.Geometry.{IsWithinLimits};
ghost use Rattle.ff_flash.specs.Injected.{stop_of};
ghost use Rattle.ff_space.specs.BlockTable.{new_table};
ghost use Rattle.ff_space.specs.Choices.{IsLeast, NoBlock};
ghost use Rattle.ff_map.specs.PageMap.{empty_map};
ghost use Rattle.ff_scan.specs.Covered.{IsCoveredBlock};
ghost use Rattle.ff_scan.specs.Found.{IsScan};
ghost use Rattle.ff_scan.specs.Probes.{AreProbes, probes_of};
ghost use Rattle.ff_scan.specs.Probing.{IsProbed, first_stop};
ghost use Rattle.ff_scan.specs.Scan.{new_scan};
ghost use Rattle.ff_scan.specs.Tops.{AreTops, blank_top};

use crate::blocks::place_all;
use crate::covered::least_covered;
use crate::mapping::map_all;
use crate::probing::probe_all;
use crate::tops::{Top, find_tops};
use crate::version::next_version;
use ff_base::{Block, Geometry, NoMemory};
use ff_flash::{Flash, FlashStop, Probe};
use ff_map::PageMap;
use ff_space::BlockTable;
use std::alloc::Global;
use std::marker::Model;

/// What the probes of a flash told, with the room for all that is found by them.
#[derive(Drop)]
pub struct Scan {
    geometry: Geometry,
    probes: Vec<Probe>,
    tops: Vec<Top>,
    space: BlockTable,
    places: PageMap,
}

impl Model for Scan {
    ghost use Rattle.ff_scan.specs.Scan.{ScanView};

    ghost Value = { ScanView };

    ghost use Rattle.ff_scan.specs.ScanFields.{view_of, IsKept};

    ghost view = { view_of };

    ghost invariant = { IsKept };
}

/// The block table and the page map of a flash, and its spare block: the least one that is covered.
#[derive(Drop)]
pub struct Found {
    pub space: BlockTable,
    pub places: PageMap,
    pub spare: Block,
}

pub(crate) fn blank_tops(alloc: Global, pages: u32) -> Result<Vec<Top>, NoMemory>
    ensures { IfOk result (λ tops. tops.items ≡ replicate pages blank_top) }
{
    let blank = Top {
        first: 0,
        block: 0,
        second: 0,
    };
    Ok(vec![in alloc; blank; pages as usize]?)
}

impl Scan {
    /// A scan that takes no memory from now on.
    pub fn new(alloc: Global, geometry: &Geometry) -> Result<Scan, NoMemory>
        requires { IsWithinLimits geometry.now }
        ensures { IfOk result (λ scan. scan ≡ new_scan geometry.now) }
    {
        let places = (geometry.blocks * geometry.per_block) as usize;
        Ok(Scan {
            geometry: *geometry,
            probes: Vec::with_capacity(alloc, places)?,
            tops: blank_tops(alloc, geometry.pages)?,
            space: BlockTable::new(alloc, geometry)?,
            places: PageMap::new(alloc, geometry)?,
        })
    }

    /// Probes each place once, in rising order, up to the first probe that stops.
    pub fn probe_all<F: Flash>(&mut self, flash: &mut F) -> Result<(), FlashStop>
        requires on { (F.state flash.old).on ≡ true }
        requires uncut { (F.state flash.old).cut ≡ false }
        requires places { length (F.state flash.old).cells
            ≡ self.old.geometry.blocks * self.old.geometry.per_block }
        requires life { (F.state flash.old).operations ≤ 2 ^ 62 }
        requires none { self.old.probes ≡ [] }
        ensures geometry { self.new.geometry ≡ self.old.geometry }
        ensures probes { IfOk result (λ _. self.new.probes ≡ probes_of (F.state flash.old).cells) }
        ensures flash { IsProbed (F.state flash.old)
            (self.old.geometry.blocks * self.old.geometry.per_block) (stop_of result)
            (F.state flash.new) }
        ensures planned { IfSome (F.state flash.old).plan (λ plan. stop_of result
            ≡ first_stop plan (F.state flash.old).operations
            (self.old.geometry.blocks * self.old.geometry.per_block)) }
    {
        let places = self.geometry.blocks * self.geometry.per_block;
        probe_all(flash, places, &mut self.probes)
    }

    /// What the probes tell. A block is covered.
    pub fn finish(self) -> Found
        requires probes { AreProbes self.geometry self.probes }
        requires covered { NoBlock (IsCoveredBlock self.geometry self.probes) → ⊥ }
        ensures { IsScan self.geometry self.probes result.spare.0 result.space result.places }
    {
        let Scan {
            geometry,
            probes,
            mut tops,
            mut space,
            mut places,
        } = self;
        let spare = find(&probes, &geometry, &mut tops, &mut space, &mut places);
        Found {
            space,
            places,
            spare,
        }
    }
}

// Records in an empty table and an empty map what the probes tell, and finds the spare block.
pub(crate) fn find(
    probes: &[Probe],
    geometry: &Geometry,
    tops: &mut [Top],
    space: &mut BlockTable,
    places: &mut PageMap,
) -> Block
    requires limits { IsWithinLimits geometry.now }
    requires probes { AreProbes geometry.now probes.now }
    requires covered { NoBlock (IsCoveredBlock geometry.now probes.now) → ⊥ }
    requires tops { tops.old ≡ replicate geometry.now.pages blank_top }
    requires space { space.old ≡ new_table geometry.now }
    requires places { places.old ≡ empty_map geometry.now }
    ensures { IsScan geometry.now probes.now result.0 space.new places.new }
{
    find_tops(probes, geometry, tops);
    let spare = spare_block(probes, geometry, tops);
    place_all(space, probes, geometry, spare);
    map_all(space, places, probes, geometry, tops, spare);
    places.start_version(next_version(probes, geometry));
    spare
}

fn spare_block(probes: &[Probe], geometry: &Geometry, tops: &[Top]) -> Block
    requires limits { IsWithinLimits geometry.now }
    requires probes { AreProbes geometry.now probes.now }
    requires pages { length tops.now ≡ geometry.now.pages }
    requires tops { AreTops geometry.now.per_block probes.now (length probes.now) tops.now }
    requires covered { NoBlock (IsCoveredBlock geometry.now probes.now) → ⊥ }
    ensures { IsLeast (IsCoveredBlock geometry.now probes.now) result.0 }
{
    match least_covered(probes, geometry, tops) {
        Some(block) => block,
        None => unreachable!(),
    }
}
