// How a block's pages are used.
ghost use Rattle.std.specs.Prelude.{◌≡◌, ◌/◌, ◌*◌, ◌<◌, ◌^◌, MatchOption, length, if◌then◌else◌};
ghost use Rattle.std.specs.Option.{ForSome};
ghost use Rattle.ff_space.specs.Blocks.{advanced};
ghost use Rattle.ff_space.specs.BlockTable.{block_at, changed_at};
ghost use Rattle.ff_space.specs.Choices.{IsNoPlace};
ghost use Rattle.ff_space.specs.declared.block.BlockState.TheVariants.{Erased, Open};
ghost use Rattle.ff_map.specs.PageMap.{IsFreeBut, mapping_of, with_mapping};
ghost use Rattle.ff_store.specs.Calls.{IsWritePlace, dropped, new_mapping, opened_block};

use crate::pending::Pending;
use ff_base::{Block, PageNo, Ppn};
use ff_map::PageMap;
use ff_space::{BlockTable, Place};

/// The page that is programmed next.
#[derive(Clone, Copy)]
pub struct WritePlace {
    pub block: Block,
    pub at: Ppn,
    /// The block is erased and not yet open.
    pub erased: bool,
}

/// The page that is programmed next, if there is one.
#[tactic(auto, using(crate::proofs::Written::erased_place))]
pub fn write_place(space: &BlockTable, per_block: u32) -> Option<WritePlace>
    requires per_block { per_block ≡ space.now.per_block }
    requires some { 0 < per_block }
    requires small { length space.now.blocks * per_block < 2 ^ 32 }
    ensures { MatchOption result (IsNoPlace space.now)
        (λ place. IsWritePlace space.now place.block.0 place.at.0
        × ((block_at space.now place.block.0).state ≡ (if place.erased then Erased else Open))) }
{
    space.known();
    match space.place() {
        Place::Free(at) => Some(WritePlace {
            block: Block(at.0 / per_block),
            at,
            erased: false,
        }),
        Place::TakeErased(block) => Some(WritePlace {
            block,
            at: Ppn(block.0 * per_block),
            erased: true,
        }),
        Place::Nowhere => None,
    }
}

/// Records that the page was programmed.
pub fn use_place(space: &mut BlockTable, place: WritePlace)
    requires in_range { place.block.0 < length space.old.blocks }
    requires state { (block_at space.old place.block.0).state
        ≡ (if place.erased then Erased else Open) }
    ensures { space.new ≡ changed_at space.old place.block.0
        (λ entry. advanced space.old.per_block (opened_block entry)) }
{
    match place.erased {
        true => use_erased(space, place.block),
        false => use_open(space, place.block),
    }
}

#[tactic(auto, using(crate::proofs::Written::used_open, crate::proofs::Written::can_advance))]
fn use_open(space: &mut BlockTable, block: Block)
    requires in_range { block.0 < length space.old.blocks }
    requires state { (block_at space.old block.0).state ≡ Open }
    ensures { space.new ≡ changed_at space.old block.0
        (λ entry. advanced space.old.per_block (opened_block entry)) }
{
    space.known();
    space.advance(block);
}

#[tactic(auto, using(crate::proofs::Written::used_erased, crate::proofs::Written::can_advance_taken))]
fn use_erased(space: &mut BlockTable, block: Block)
    requires in_range { block.0 < length space.old.blocks }
    requires state { (block_at space.old block.0).state ≡ Erased }
    ensures { space.new ≡ changed_at space.old block.0
        (λ entry. advanced space.old.per_block (opened_block entry)) }
{
    space.known();
    space.take(block);
    space.advance(block);
}

/// The old place of a page is counted no more.
pub fn drop_old(space: &mut BlockTable, places: &PageMap, per_block: u32, page: PageNo)
    requires some { 0 < per_block }
    requires within { ForSome (mapping_of places.now page)
        (λ m. m.at.0 / per_block < length space.old.blocks) }
    requires counted { ForSome (mapping_of places.now page)
        (λ m. 0 < (block_at space.old (m.at.0 / per_block)).mapped) }
    ensures { space.new ≡ dropped per_block space.old (mapping_of places.now page) }
{
    if let Some(at) = places.get(page) {
        space.drop_mapped(Block(at.0 / per_block));
    }
}

/// Maps a page to the place where it was programmed.
pub fn map_page(places: &mut PageMap, pending: Pending)
    requires page { pending.page.0 < length places.old.pages }
    requires place { pending.at.0 < places.old.places }
    requires free { IsFreeBut places.old pending.at pending.page }
    ensures { places.new ≡ with_mapping places.old pending.page (new_mapping pending) }
{
    places.set(pending.page, pending.at, pending.version);
}
