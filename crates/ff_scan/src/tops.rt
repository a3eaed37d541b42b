// The newest versions of each logical page: with them the covered blocks are found in time linear in places and pages.
ghost use Rattle.std.specs.Prelude.{◌≡◌, ◌+◌, ◌<◌, ◌≤◌, length, slice_set};
ghost use Rattle.ff_base.specs.Geometry.{IsWithinLimits};
ghost use Rattle.ff_scan.specs.Probes.{AreProbes};
ghost use Rattle.ff_scan.specs.Tops.{AreTops, IsTopRaised, outside, top_at};

use ff_base::Geometry;
use ff_flash::{Probe, Spare};

/// The newest version of a page with the block that it stands in, and the newest version in any other block. 0 is no
/// version.
#[derive(Clone, Copy)]
pub struct Top {
    pub first: u64,
    pub block: u32,
    pub second: u64,
}

impl Top {
    pub fn outside(&self, block: u32) -> u64
        ensures { result ≡ outside self.now block }
    {
        if self.block == block {
            self.second
        } else {
            self.first
        }
    }

    fn raised(self, version: u64, block: u32) -> Top
        requires { self.second ≤ self.first }
        ensures { IsTopRaised self version block result }
    {
        if self.block == block {
            Top {
                first: self.first.max(version),
                ..self
            }
        } else if self.first < version {
            Top {
                first: version,
                block,
                second: self.first,
            }
        } else {
            Top {
                second: self.second.max(version),
                ..self
            }
        }
    }
}

// Finds the newest versions of all pages.
pub fn find_tops(probes: &[Probe], geometry: &Geometry, tops: &mut [Top])
    requires limits { IsWithinLimits geometry.now }
    requires probes { AreProbes geometry.now probes.now }
    requires pages { length tops.old ≡ geometry.now.pages }
    requires none { AreTops geometry.now.per_block probes.now 0 tops.old }
    ensures { AreTops geometry.now.per_block probes.now (length probes.now) tops.new }
{
    for place in 0..probes.len() {
        note_place(probes, geometry, tops, place);
    }
}

fn note_place(probes: &[Probe], geometry: &Geometry, tops: &mut [Top], place: usize)
    requires limits { IsWithinLimits geometry.now }
    requires probes { AreProbes geometry.now probes.now }
    requires pages { length tops.old ≡ geometry.now.pages }
    requires in_range { place < length probes.now }
    requires tops { AreTops geometry.now.per_block probes.now place tops.old }
    ensures { AreTops geometry.now.per_block probes.now (place + 1) tops.new }
{
    if let Probe::Sealed(spare) = probes[place] {
        note(tops, spare, place as u32 / geometry.per_block);
    }
}

fn note(tops: &mut [Top], spare: Spare, block: u32)
    requires page { spare.page.0 < length tops.old }
    requires order { (top_at tops.old spare.page.0).second ≤ (top_at tops.old spare.page.0).first }
    ensures only { tops.new ≡ slice_set tops.old spare.page.0 (top_at tops.new spare.page.0) }
    ensures there { IsTopRaised (top_at tops.old spare.page.0) spare.version block
        (top_at tops.new spare.page.0) }
{
    let at = spare.page.0 as usize;
    tops[at] = tops[at].raised(spare.version, block);
}
