// The write places of the blocks.
ghost use Rattle.std.specs.Prelude.{◌≡◌, ◌+◌, ◌<◌, ◌≤◌, ◌↔◌, true, IsTrue};
ghost use Rattle.ff_base.specs.Geometry.{IsWithinLimits};
ghost use Rattle.ff_flash.specs.declared.flash.Probe.TheVariants.{Erased};
ghost use Rattle.ff_space.specs.BlockTable.{IsInRange, block_at, changed_at};
ghost use Rattle.ff_space.specs.Blocks.{erased_block};
ghost use Rattle.ff_scan.specs.Found.{IsUsed};
ghost use Rattle.ff_scan.specs.Placed.{AreBlocksPlaced, found_entry};
ghost use Rattle.ff_scan.specs.Probes.{AreProbes};

use ff_base::{Block, Geometry};
use ff_flash::Probe;
use ff_space::BlockTable;

// Records the write places of all blocks. The spare block waits to be erased then, if it isn't.
pub fn place_all(space: &mut BlockTable, probes: &[Probe], geometry: &Geometry, spare: Block)
    requires limits { IsWithinLimits geometry.now }
    requires probes { AreProbes geometry.now probes.now }
    requires none { AreBlocksPlaced geometry.now probes.now spare.0 0 space.old }
    ensures { AreBlocksPlaced geometry.now probes.now spare.0 geometry.now.blocks space.new }
{
    for block in 0..geometry.blocks {
        place_one(space, probes, geometry, spare, Block(block));
    }
}

fn place_one(
    space: &mut BlockTable,
    probes: &[Probe],
    geometry: &Geometry,
    spare: Block,
    block: Block,
)
    requires limits { IsWithinLimits geometry.now }
    requires probes { AreProbes geometry.now probes.now }
    requires block { block.0 < geometry.now.blocks }
    requires placed { AreBlocksPlaced geometry.now probes.now spare.0 block.0 space.old }
    ensures { AreBlocksPlaced geometry.now probes.now spare.0 (block.0 + 1) space.new }
{
    let write_place = used(probes, geometry, block);
    if block == spare {
        set_spare(space, block, write_place);
    } else {
        space.set_place(block, write_place);
    }
}

#[tactic(auto, using(crate::proofs::Placing::changed_twice))]
fn set_spare(space: &mut BlockTable, block: Block, next: u32)
    requires in_range { IsInRange space.old block.0 }
    requires erased { block_at space.old block.0 ≡ erased_block }
    requires next { next ≤ space.old.per_block }
    ensures { space.new ≡ changed_at space.old block.0
        (λ _. found_entry space.old.per_block true next) }
{
    space.set_place(block, next);
    if next > 0 {
        space.wait_erase(block);
    }
}

// The write place of a block.
#[tactic(auto, using(crate::proofs::Placing::used_none))]
fn used(probes: &[Probe], geometry: &Geometry, block: Block) -> u32
    requires limits { IsWithinLimits geometry.now }
    requires probes { AreProbes geometry.now probes.now }
    requires block { block.0 < geometry.now.blocks }
    ensures { IsUsed geometry.now.per_block probes.now block.0 geometry.now.per_block result }
{
    let mut next = 0;
    for page in 0..geometry.per_block {
        next = used_more(probes, geometry, block, page, next);
    }
    next
}

fn used_more(probes: &[Probe], geometry: &Geometry, block: Block, page: u32, next: u32) -> u32
    requires limits { IsWithinLimits geometry.now }
    requires probes { AreProbes geometry.now probes.now }
    requires block { block.0 < geometry.now.blocks }
    requires page { page < geometry.now.per_block }
    requires used { IsUsed geometry.now.per_block probes.now block.0 page next }
    ensures { IsUsed geometry.now.per_block probes.now block.0 (page + 1) result }
{
    let place = block.0 * geometry.per_block + page;
    if is_erased(&probes[place as usize]) {
        next
    } else {
        page + 1
    }
}

fn is_erased(probe: &Probe) -> bool
    ensures { IsTrue result ↔ (probe.now ≡ Erased) }
{
    matches!(probe, Probe::Erased)
}
