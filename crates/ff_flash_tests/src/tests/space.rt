// The table's calls on eight blocks of four pages, and what is chosen after them.
use ff_base::{Block, Geometry, Ppn};
use ff_space::{BlockTable, Place};
use std::process::Abort;
use std::test::Fail;

// Where the next page goes, which block is collected, how many are erased, and the least of them.
type Answers = (Place, Option<Block>, u32, Option<Block>);

fn check(rt: &impl Abort, table: &BlockTable, wanted: Answers) {
    table.known();
    let answers = (
        table.place(),
        table.victim(),
        table.erased(),
        table.least_erased(),
    );
    assert_eq!(rt; answers, wanted);
}

fn some(block: u32) -> Option<Block> {
    Some(Block(block))
}

#[test]
fn a_collection_frees_its_victim(rt: HostRuntime) -> Result<(), Fail> {
    let mut table = BlockTable::new(rt.alloc(), &Geometry::default())?;
    table.set_place(Block(2), 4);
    table.add_mapped(Block(2));
    check(
        &rt,
        &table,
        (Place::TakeErased(Block(0)), some(2), 7, some(0)),
    );
    table.hold(Block(0), true);
    table.advance(Block(0));
    table.end_collection(Block(2), Block(0));
    assert_eq!(rt; (table.mapped(Block(0)), table.mapped(Block(2))), (1, 0));
    table.set_erased(Block(2));
    check(&rt, &table, (Place::Free(Ppn(1)), None, 7, some(1)));
    Ok(())
}

#[test]
fn a_block_is_taken_and_one_is_held_in_vain(rt: HostRuntime) -> Result<(), Fail> {
    let mut table = BlockTable::new(rt.alloc(), &Geometry::default())?;
    table.take(Block(5));
    table.advance(Block(5));
    table.add_mapped(Block(5));
    table.drop_mapped(Block(5));
    table.hold(Block(0), true);
    table.hold(Block(0), false);
    table.wait_erase(Block(1));
    assert_eq!(rt; table.next(Block(5)), 1);
    check(&rt, &table, (Place::Free(Ppn(21)), None, 6, some(0)));
    Ok(())
}
