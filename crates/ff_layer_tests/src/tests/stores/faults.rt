// Six flushes, and a seventh that collects a block first, where each operation fails or is cut.
use super::{StoreRig, rig_of};
use crate::tests::found::Found;
use crate::tests::plans::{Fault, SMALL, STORES, fill, set_byte};
use ff_base::{PageBuf, PageNo};
use ff_flash::{Flash, FlashStop};
use ff_store::FlushStep;
use std::test::Fail;

// How many of the stores are flushed.
const FLUSHED: usize = 7;

// A program and a seal each, and a read, a program, a seal and an erase of the collection.
const OPERATIONS: u32 = 18;

// Whether each page is fetched with the byte that is wanted.
fn has_bytes(rig: &mut StoreRig, page: &mut PageBuf, wanted: &[u8; 5]) -> bool {
    for (number, byte) in wanted.iter().enumerate() {
        if rig.fetch(number as u32, page) != Some(Ok(())) || page.line(0)[0] != *byte {
            return false;
        }
    }
    true
}

// Makes the flushes, and again one that fails. The answer is whether one did, and none where a flush that is made again
// fails, or a page has other bytes.
fn flush_all(rig: &mut StoreRig, page: &mut PageBuf) -> Option<bool> {
    let mut wanted = [0; 5];
    let mut failed = false;
    for (number, byte) in &STORES[..FLUSHED] {
        let (number, byte) = (*number, *byte);
        fill(page, byte);
        let sealed = Some(Ok(FlushStep::Sealed(PageNo(number))));
        if rig.flush(number, page) != sealed {
            failed = true;
            if !has_bytes(rig, page, &wanted) {
                return None;
            }
            fill(page, byte);
            if rig.flush(number, page) != sealed {
                return None;
            }
        }
        set_byte(&mut wanted, number, byte);
    }
    if has_bytes(rig, page, &wanted) {
        Some(failed)
    } else {
        None
    }
}

#[test]
fn a_flush_that_failed_leaves_the_old_bytes(rt: HostRuntime) -> Result<(), Fail> {
    let mut page = PageBuf::new(rt.alloc())?;
    for made in 0..OPERATIONS {
        let mut rig = rig_of(&rt, rt.alloc(), &SMALL, Fault::Fail(made));
        let failed = flush_all(&mut rig, &mut page);
        drop(rig);
        assert_eq!(rt; failed, Some(true), "after {made}");
    }
    Ok(())
}

// The bytes that are stored where a cut ends the flushes. One inside the seal of a flush stores them, or not.
fn flush_until_cut(rig: &mut StoreRig, page: &mut PageBuf, mask: u32) -> [u8; 5] {
    let mut wanted = [0; 5];
    for (number, byte) in &STORES[..FLUSHED] {
        let (number, byte) = (*number, *byte);
        fill(page, byte);
        let off = rig.flush(number, page) == Some(Err(FlashStop::Off));
        if !off || rig.store().pending().is_some() && mask & 1 == 1 {
            set_byte(&mut wanted, number, byte);
        }
        if off {
            return wanted;
        }
    }
    wanted
}

// What a flash has after a cut: how many operations were begun, whether the newest pages have the bytes that are wanted,
// and whether a block can be erased.
fn found_after(rig: StoreRig, page: &mut PageBuf, wanted: [u8; 5]) -> (u64, bool, bool) {
    let mut flash = rig.into_store().into_flash();
    let count = flash.operation_count();
    flash.power_up();
    let found = Found::of(&mut flash, page);
    drop(flash);
    (
        count,
        found.best_bytes() == wanted,
        found.has_covered_block(),
    )
}

#[test]
fn a_cut_leaves_what_is_stored(rt: HostRuntime) -> Result<(), Fail> {
    let mut page = PageBuf::new(rt.alloc())?;
    for made in 0..OPERATIONS {
        for mask in [0, 1, 3] {
            let mut rig = rig_of(&rt, rt.alloc(), &SMALL, Fault::Cut(made, mask));
            let wanted = flush_until_cut(&mut rig, &mut page, mask);
            let found = found_after(rig, &mut page, wanted);
            let count = u64::from(made) + 1;
            assert_eq!(rt; found, (count, true, true), "after {made} with {mask}");
        }
    }
    Ok(())
}

// What a mount after a cut gives: how many operations were begun, whether the pages have the bytes that are wanted, and
// whether a flush fails that is made now.
fn served_after(
    rig: &mut StoreRig,
    page: &mut PageBuf,
    wanted: &[u8; 5],
) -> (u64, bool, Option<bool>) {
    let count = rig.store().flash().operation_count();
    let kept = has_bytes(rig, page, wanted);
    (count, kept, flush_all(rig, page))
}

#[test]
fn a_mount_finds_what_is_stored(rt: HostRuntime) -> Result<(), Fail> {
    let mut page = PageBuf::new(rt.alloc())?;
    for made in 0..OPERATIONS {
        for mask in [0, 1, 3] {
            let mut rig = rig_of(&rt, rt.alloc(), &SMALL, Fault::Cut(made, mask));
            let wanted = flush_until_cut(&mut rig, &mut page, mask);
            let mut rig = rig
                .remount(rt.alloc())
                .expect(&rt, "a mount that was refused");
            let served = served_after(&mut rig, &mut page, &wanted);
            drop(rig);
            let probed = u64::from(made) + 1 + 8;
            assert_eq!(rt;
                served,
                (probed, true, Some(false)),
                "after {made} with {mask}"
            );
        }
    }
    Ok(())
}
