// The next version.
ghost use Rattle.std.specs.Prelude.{◌+◌, ◌<◌, length};
ghost use Rattle.ff_scan.specs.Found.{IsNextVersion};
ghost use Rattle.ff_scan.specs.Probes.{AreProbes};

use ff_base::Geometry;
use ff_flash::Probe;

// One more than the greatest version, or 1.
#[tactic(auto, using(crate::proofs::Versions::next_none))]
pub fn next_version(probes: &[Probe], geometry: &Geometry) -> u64
    requires { AreProbes geometry.now probes.now }
    ensures { IsNextVersion probes.now (length probes.now) result }
{
    let mut next = 1;
    for place in 0..probes.len() {
        next = next_after(probes, geometry, place, next);
    }
    next
}

#[tactic(auto, using(crate::proofs::Versions::next_more, crate::proofs::Versions::next_kept))]
fn next_after(probes: &[Probe], geometry: &Geometry, place: usize, next: u64) -> u64
    requires probes { AreProbes geometry.now probes.now }
    requires place { place < length probes.now }
    requires next { IsNextVersion probes.now place next }
    ensures { IsNextVersion probes.now (place + 1) result }
{
    match probes[place] {
        Probe::Sealed(spare) => next.max(spare.version + 1),
        Probe::Erased | Probe::Spoiled | Probe::Closed => next,
    }
}
