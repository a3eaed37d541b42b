// The collector's calls where there is nothing to collect, and the counts. Collections are tested over the store.
use ff_base::{Block, Geometry};
use ff_gc::{Collector, FlashCounts, OperationKind};
use std::test::Fail;

#[test]
fn each_kind_is_counted_by_itself(rt: HostRuntime) {
    let mut counts = FlashCounts::new();
    counts.begin(OperationKind::Read);
    counts.begin(OperationKind::Program);
    counts.begin(OperationKind::Program);
    counts.begin(OperationKind::Seal);
    counts.begin(OperationKind::Erase);
    let told = (counts.reads, counts.programs, counts.seals, counts.erases);
    assert_eq!(rt; told, (1, 2, 1, 1));
}

#[test]
fn a_mount_leaves_an_erase(rt: HostRuntime) -> Result<(), Fail> {
    let mut collector = Collector::new(rt.alloc(), &Geometry::default())?;
    assert!(rt; !collector.busy());
    collector.after_mount(Some(Block(3)));
    assert!(rt; collector.busy());
    collector.after_mount(None);
    assert!(rt; !collector.busy());
    Ok(())
}
