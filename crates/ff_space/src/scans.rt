// The passes over all blocks: the first block in a state, and the full one with the fewest mapped pages.
ghost use Rattle.std.specs.Prelude.{◌+◌, ◌<◌, ◌≤◌, length, MatchOption};
ghost use Rattle.ff_base.specs.Geometry.{greatest_of};
ghost use Rattle.ff_base.specs.declared.limits.LimitName.TheVariants.{Blocks};
ghost use Rattle.ff_space.specs.BlockTable.{IsInState};
ghost use Rattle.ff_space.specs.Choices.{IsCollectable, IsLeast, IsVictimBlock, NoBlock};
ghost use Rattle.ff_space.specs.Scanned.{FirstFound, IsTarget};
ghost use Rattle.ff_space.specs.declared.block.BlockState.TheVariants.{Erased, Open};

use crate::block::{BlockEntry, BlockState};
use ff_base::Block;

/// What stands for the next page, before the erased blocks are counted.
#[derive(Clone, Copy)]
pub enum Target {
    /// The least open block.
    Open(Block),
    /// The least erased block; none is open.
    Erased(Block),
    /// No block is open or erased.
    Neither,
}

/// The least block in this state.
pub fn least_in_state(blocks: &[BlockEntry], wanted: BlockState) -> Option<Block>
    requires { length blocks.now ≤ greatest_of Blocks }
    ensures { MatchOption result (NoBlock (IsInState blocks.now wanted))
        (λ block. IsLeast (IsInState blocks.now wanted) block.0) }
{
    for (at, entry) in blocks.iter().enumerate() {
        if entry.state == wanted {
            return Some(Block(at as u32));
        }
    }
    None
}

/// The least open block, or else the least erased one.
pub fn open_or_erased(blocks: &[BlockEntry]) -> Target
    requires { length blocks.now ≤ greatest_of Blocks }
    ensures { IsTarget blocks.now result }
{
    let mut erased = None;
    for at in 0..blocks.len() {
        if blocks[at].state == BlockState::Open {
            return Target::Open(Block(at as u32));
        }
        erased = first_erased(blocks, at, erased);
    }
    match erased {
        Some(block) => Target::Erased(block),
        None => Target::Neither,
    }
}

// The erased block that was found before, or else this block where it is erased.
fn first_erased(blocks: &[BlockEntry], at: usize, before: Option<Block>) -> Option<Block>
    requires size { length blocks.now ≤ greatest_of Blocks }
    requires in_range { at < length blocks.now }
    requires before { FirstFound blocks.now Erased at before }
    ensures { FirstFound blocks.now Erased (at + 1) result }
{
    match before {
        Some(block) => Some(block),
        None if blocks[at].state == BlockState::Erased => Some(Block(at as u32)),
        None => None,
    }
}

/// The full block with the fewest mapped pages, and the least of these, where one has a page that isn't mapped.
pub fn fewest_mapped(blocks: &[BlockEntry], per_block: u32) -> Option<Block>
    requires { length blocks.now ≤ greatest_of Blocks }
    ensures { MatchOption result (NoBlock (IsCollectable per_block blocks.now))
        (λ block. IsVictimBlock per_block blocks.now block.0) }
{
    let mut found = None;
    let mut fewest = per_block;
    for (at, entry) in blocks.iter().enumerate() {
        if entry.state == BlockState::Full && entry.mapped < fewest {
            found = Some(Block(at as u32));
            fewest = entry.mapped;
        }
    }
    found
}
