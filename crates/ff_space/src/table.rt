// The block table: the blocks by number, with the count of the erased ones beside them.
ghost use Rattle.std.specs.Prelude.{◌≡◌, ◌≢◌, ◌<◌, ◌≤◌, IfOk, MatchOption, if◌then◌else◌, IsTrue, ◌↔◌};
ghost use Rattle.ff_base.specs.Geometry.{IsWithinLimits};
ghost use Rattle.ff_space.specs.Blocks.{CanAdvance, IsBlockSound, advanced, after_hold, block_placed, erased_block, mapped_less, mapped_more, taken_block, waiting};
ghost use Rattle.ff_space.specs.declared.block.BlockState.TheVariants.{Erased, Held, Open, Waiting};

use crate::block::{BlockEntry, BlockState};
use crate::scans::{Target, fewest_mapped, least_in_state, open_or_erased};
use ff_base::{Block, Geometry, NoMemory, Ppn};
use std::alloc::Global;
use std::marker::Model;

/// Where the next page is programmed.
#[derive(Clone, Copy, Debug, PartialEq, Eq)]
pub enum Place {
    /// The write place of an open block.
    Free(Ppn),
    /// No block is open: this erased block is to be taken first.
    TakeErased(Block),
    /// No block is open, and the last erased block is kept for the collector.
    Nowhere,
}

/// The blocks of the flash: their states, write places and counts of mapped pages.
#[derive(Drop)]
pub struct BlockTable {
    per_block: u32,
    erased: u32,
    collectable: u32,
    blocks: Vec<BlockEntry>,
}

impl Model for BlockTable {
    ghost use Rattle.ff_space.specs.BlockTable.{BlockTableView};

    ghost Value = { BlockTableView };

    ghost use Rattle.ff_space.specs.BlockTableFields.{view_of, IsKept};

    ghost view = { view_of };

    ghost invariant = { IsKept };
}

/// So many erased blocks are kept for the collector.
const KEPT_ERASED: u32 = 1;

impl BlockTable {
    ghost use Rattle.ff_space.specs.BlockTable.{CanEnd, IsInRange, IsInState, IsBlockTableSound, after_collection, block_at, changed_at, erased_count, new_table};
    ghost use Rattle.ff_space.specs.Choices.{IsAllMapped, IsFreePlace, IsLeast, IsPlace, IsVictimBlock, NoBlock};

    /// A table of which every block is erased.
    pub fn new(alloc: Global, geometry: &Geometry) -> Result<BlockTable, NoMemory>
        requires { IsWithinLimits geometry.now }
        ensures { IfOk result (λ table. table ≡ new_table geometry.now) }
    {
        let blocks = vec![in alloc; BlockEntry::erased(); geometry.blocks as usize]?;
        Ok(BlockTable {
            per_block: geometry.per_block,
            erased: geometry.blocks,
            collectable: 0,
            blocks,
        })
    }

    /// What every table keeps. For the prover alone.
    pub fn known(&self)
        ensures { IsBlockTableSound self.now }
    {
        let _ = &self.blocks;
    }

    /// Where the next page is programmed.
    #[tactic(auto, using(crate::proofs::Counted::count_of_none))]
    pub fn place(&self) -> Place
        ensures { IsPlace self.now result }
    {
        match open_or_erased(&self.blocks) {
            Target::Open(block) => Place::Free(self.write_place(block)),
            Target::Erased(block) if self.erased > KEPT_ERASED => Place::TakeErased(block),
            Target::Erased(_) | Target::Neither => Place::Nowhere,
        }
    }

    /// The block to collect: the full one with the fewest mapped pages, if one of its pages isn't mapped.
    pub fn victim(&self) -> Option<Block>
        ensures { MatchOption result (IsAllMapped self.now)
            (λ block. IsVictimBlock self.now.per_block self.now.blocks block.0) }
    {
        fewest_mapped(&self.blocks, self.per_block)
    }

    /// Whether a block can be collected. It doesn't look at the blocks.
    pub fn has_victim(&self) -> bool
        ensures { IsTrue result ↔ (IsAllMapped self.now → ⊥) }
    {
        self.collectable > 0
    }

    /// The least erased block.
    pub fn least_erased(&self) -> Option<Block>
        ensures { MatchOption result (NoBlock (IsInState self.now.blocks Erased))
            (λ block. IsLeast (IsInState self.now.blocks Erased) block.0) }
    {
        least_in_state(&self.blocks, BlockState::Erased)
    }

    /// How many blocks are erased.
    pub fn erased(&self) -> u32
        ensures { result ≡ erased_count self.now.blocks }
    {
        self.erased
    }

    /// How many pages of the block are mapped.
    pub fn mapped(&self, block: Block) -> u32
        requires { IsInRange self.now block.0 }
        ensures { result ≡ (block_at self.now block.0).mapped }
    {
        self.entry(block).mapped
    }

    /// The write place of the block, counted in pages from the block's first: at most the pages of a block.
    pub fn next(&self, block: Block) -> u32
        requires { IsInRange self.now block.0 }
        ensures { result ≡ (block_at self.now block.0).next }
    {
        self.entry(block).next
    }

    /// Opens an erased block, with its write place at its first page.
    pub fn take(&mut self, block: Block)
        requires in_range { IsInRange self.old block.0 }
        requires state { (block_at self.old block.0).state ≡ Erased }
        ensures { self.new ≡ changed_at self.old block.0 (λ _. taken_block) }
    {
        self.put(block, BlockEntry::taken(self.per_block));
    }

    /// Moves the write place on: a page was programmed there. An open block with no page left becomes full.
    pub fn advance(&mut self, block: Block)
        requires in_range { IsInRange self.old block.0 }
        requires can { CanAdvance self.old.per_block (block_at self.old block.0) }
        ensures { self.new ≡ changed_at self.old block.0 (advanced self.old.per_block) }
    {
        let entry = self.entry(block).advanced(self.per_block);
        self.put(block, entry);
    }

    /// Makes an erased block the destination of a collection, or ends that.
    pub fn hold(&mut self, block: Block, on: bool)
        requires in_range { IsInRange self.old block.0 }
        requires state { (block_at self.old block.0).state ≡ (if on then Erased else Held) }
        ensures { self.new ≡ changed_at self.old block.0 (after_hold self.old.per_block on) }
    {
        let entry = self.entry(block).after_hold(self.per_block, on);
        self.put(block, entry);
    }

    /// Counts one more mapped page of the block.
    pub fn add_mapped(&mut self, block: Block)
        requires in_range { IsInRange self.old block.0 }
        requires used { (block_at self.old block.0).state ≢ Waiting }
        requires room { (block_at self.old block.0).mapped < (block_at self.old block.0).next }
        ensures { self.new ≡ changed_at self.old block.0 mapped_more }
    {
        let entry = self.entry(block).mapped_more();
        self.put(block, entry);
    }

    /// Counts one mapped page of the block fewer.
    pub fn drop_mapped(&mut self, block: Block)
        requires in_range { IsInRange self.old block.0 }
        requires mapped { 0 < (block_at self.old block.0).mapped }
        ensures { self.new ≡ changed_at self.old block.0 mapped_less }
    {
        let entry = self.entry(block).mapped_less();
        self.put(block, entry);
    }

    /// Lets a block without mapped pages wait for its erasing.
    pub fn wait_erase(&mut self, block: Block)
        requires in_range { IsInRange self.old block.0 }
        requires unmapped { (block_at self.old block.0).mapped ≡ 0 }
        ensures { self.new ≡ changed_at self.old block.0 waiting }
    {
        let entry = self.entry(block).waiting();
        self.put(block, entry);
    }

    /// Ends a collection: the victim's mapped pages are counted in the destination, which is held no more and becomes
    /// erased, open or full by its write place. The victim waits to be erased, and none of its pages is mapped.
    pub fn end_collection(&mut self, victim: Block, into: Block)
        requires { CanEnd self.old victim.0 into.0 }
        ensures { self.new ≡ after_collection self.old victim.0 into.0 }
    {
        let emptied = self.entry(victim);
        let filled = self.entry(into).filled(self.per_block, emptied.mapped);
        self.put(into, filled);
        self.put(victim, emptied.emptied());
    }

    /// Records that a waiting block was erased.
    pub fn set_erased(&mut self, block: Block)
        requires in_range { IsInRange self.old block.0 }
        requires state { (block_at self.old block.0).state ≡ Waiting }
        ensures { self.new ≡ changed_at self.old block.0 (λ _. erased_block) }
    {
        self.put(block, BlockEntry::erased());
    }

    /// Records the write place at which an erased block was found when the flash was scanned.
    pub fn set_place(&mut self, block: Block, next: u32)
        requires in_range { IsInRange self.old block.0 }
        requires state { (block_at self.old block.0).state ≡ Erased }
        requires next { next ≤ self.old.per_block }
        ensures { self.new
            ≡ changed_at self.old block.0 (λ _. block_placed self.old.per_block next) }
    {
        self.put(block, BlockEntry::placed(self.per_block, next));
    }

    // The page at the write place of a block.
    fn write_place(&self, block: Block) -> Ppn
        requires { IsLeast (IsInState self.now.blocks Open) block.0 }
        ensures { IsFreePlace self.now result.0 }
    {
        let entry = self.entry(block);
        Ppn(block.0 * self.per_block + entry.next)
    }

    fn entry(&self, block: Block) -> BlockEntry
        requires { IsInRange self.now block.0 }
        ensures entry { result ≡ block_at self.now block.0 }
        ensures sound { IsBlockSound self.now.per_block result }
    {
        self.blocks[block.0 as usize]
    }

    // Replaces a block, and counts the erased ones and those that can be collected anew.
    fn put(&mut self, block: Block, entry: BlockEntry)
        requires in_range { IsInRange self.old block.0 }
        requires sound { IsBlockSound self.old.per_block entry }
        ensures { self.new ≡ changed_at self.old block.0 (λ _. entry) }
    {
        let at = block.0 as usize;
        let before = self.blocks[at];
        self.erased = self.erased + entry.state.erased() - before.state.erased();
        self.collectable = self.collectable + entry.collectable(self.per_block)
            - before.collectable(self.per_block);
        self.blocks[at] = entry;
    }
}
