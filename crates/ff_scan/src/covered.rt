// The covered blocks.
ghost use Rattle.std.specs.Prelude.{◌≡◌, ◌<◌, ◌↔◌, length, IsTrue, MatchOption};
ghost use Rattle.ff_base.specs.Geometry.{IsWithinLimits};
ghost use Rattle.ff_space.specs.Choices.{IsLeast, NoBlock};
ghost use Rattle.ff_scan.specs.Covered.{IsPlaceBacked, IsCoveredByProbes, IsCoveredBlock};
ghost use Rattle.ff_scan.specs.Probes.{AreProbes};
ghost use Rattle.ff_scan.specs.Tops.{AreTops};

use crate::tops::Top;
use ff_base::{Block, Geometry};
use ff_flash::Probe;

// The least covered block.
pub fn least_covered(probes: &[Probe], geometry: &Geometry, tops: &[Top]) -> Option<Block>
    requires limits { IsWithinLimits geometry.now }
    requires probes { AreProbes geometry.now probes.now }
    requires pages { length tops.now ≡ geometry.now.pages }
    requires tops { AreTops geometry.now.per_block probes.now (length probes.now) tops.now }
    ensures { MatchOption result (NoBlock (IsCoveredBlock geometry.now probes.now))
        (λ block. IsLeast (IsCoveredBlock geometry.now probes.now) block.0) }
{
    for block in 0..geometry.blocks {
        if is_covered(probes, geometry, tops, block) {
            return Some(Block(block));
        }
    }
    None
}

fn is_covered(probes: &[Probe], geometry: &Geometry, tops: &[Top], block: u32) -> bool
    requires limits { IsWithinLimits geometry.now }
    requires probes { AreProbes geometry.now probes.now }
    requires pages { length tops.now ≡ geometry.now.pages }
    requires tops { AreTops geometry.now.per_block probes.now (length probes.now) tops.now }
    requires block { block < geometry.now.blocks }
    ensures { IsTrue result ↔ IsCoveredByProbes geometry.now.per_block probes.now block }
{
    let first = block * geometry.per_block;
    for place in first..first + geometry.per_block {
        if !is_backed(probes, geometry, tops, place) {
            return false;
        }
    }
    true
}

// Whether a place holds nothing sealed, or what it holds is backed by another block.
#[tactic(auto, using(crate::proofs::Covering::backed_of, crate::proofs::Covering::backed_most))]
fn is_backed(probes: &[Probe], geometry: &Geometry, tops: &[Top], place: u32) -> bool
    requires limits { IsWithinLimits geometry.now }
    requires probes { AreProbes geometry.now probes.now }
    requires pages { length tops.now ≡ geometry.now.pages }
    requires tops { AreTops geometry.now.per_block probes.now (length probes.now) tops.now }
    requires in_range { place < length probes.now }
    ensures { IsTrue result ↔ IsPlaceBacked geometry.now.per_block probes.now place }
{
    match probes[place as usize] {
        Probe::Sealed(spare) => {
            let newest = tops[spare.page.0 as usize].outside(place / geometry.per_block);
            spare.version <= newest
        }
        Probe::Erased | Probe::Spoiled | Probe::Closed => true,
    }
}
