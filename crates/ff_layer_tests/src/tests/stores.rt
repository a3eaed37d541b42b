// Flushes, fetches and collections over a simulated flash.
mod faults;
mod rig;

use super::plans::{Fault, SMALL, counted, fill};
use ff_base::{Geometry, PageBuf, PageNo};
use ff_flash::{Flash, FlashStop};
use ff_gc::GcStep;
use ff_store::FlushStep;
pub use rig::StoreRig;
use std::alloc::Global;
use std::process::Abort;
use std::test::Fail;

// A call, and the byte of its page, or the step that it makes.
#[derive(Clone, Copy)]
enum Call {
    Flush(u32, u8),
    Fetch(u32, u8),
    Collect(GcStep),
}

fn rig_of(rt: &impl Abort, alloc: Global, geometry: &Geometry, fault: Fault) -> StoreRig {
    StoreRig::new(alloc, geometry, fault).expect(rt, "want of memory")
}

// Whether a call gives what it has to.
fn is_made(rig: &mut StoreRig, page: &mut PageBuf, call: Call) -> bool {
    match call {
        Call::Flush(number, byte) => {
            fill(page, byte);
            rig.flush(number, page) == Some(Ok(FlushStep::Sealed(PageNo(number))))
        }
        Call::Fetch(number, byte) => {
            rig.fetch(number, page) == Some(Ok(())) && page.line(0)[0] == byte
        }
        Call::Collect(step) => rig.collect_step() == Some(Ok(step)),
    }
}

// The first call that gives something else.
fn first_unlike(rig: &mut StoreRig, page: &mut PageBuf, calls: &[Call]) -> Option<usize> {
    for (number, &call) in calls.iter().enumerate() {
        if !is_made(rig, page, call) {
            return Some(number);
        }
    }
    None
}

fn make_all(rt: &impl Abort, rig: &mut StoreRig, page: &mut PageBuf, calls: &[Call]) {
    assert_eq!(rt; first_unlike(rig, page, calls), None);
}

// Seven stores before a cache of one page: a store flushes the page of the one before it, and fetches its own.
const SEVEN_STORES: [Call; 8] = [
    Call::Flush(0, 0xa0),
    Call::Flush(1, 0xa1),
    Call::Flush(2, 0xa2),
    Call::Flush(3, 0xa3),
    Call::Flush(4, 0xa4),
    Call::Fetch(0, 0xa0),
    Call::Flush(0, 0xb0),
    Call::Fetch(1, 0xa1),
];

#[test]
fn a_flush_without_a_place_collects(rt: HostRuntime) -> Result<(), Fail> {
    let mut page = PageBuf::new(rt.alloc())?;
    let mut rig = rig_of(&rt, rt.alloc(), &SMALL, Fault::Nothing);
    make_all(&rt, &mut rig, &mut page, &SEVEN_STORES);
    assert_eq!(rt; rig.store().flash().operation_count(), 14);
    assert!(rt; rig.store().wants_collect());
    let last = [
        Call::Flush(1, 0xb1),
        Call::Fetch(2, 0xa2),
        Call::Fetch(0, 0xb0),
        Call::Fetch(1, 0xb1),
        Call::Fetch(3, 0xa3),
        Call::Fetch(4, 0xa4),
    ];
    make_all(&rt, &mut rig, &mut page, &last[..2]);
    assert_eq!(rt; counted(rig.store()), [4, 8, 8, 1]);
    make_all(&rt, &mut rig, &mut page, &last[2..]);
    drop(rig);
    Ok(())
}

#[test]
fn a_page_flushed_anew_keeps_its_bytes_over_a_commit(rt: HostRuntime) -> Result<(), Fail> {
    let mut page = PageBuf::new(rt.alloc())?;
    let geometry = Geometry {
        blocks: 6,
        low: 8,
        ..SMALL
    };
    let mut rig = rig_of(&rt, rt.alloc(), &geometry, Fault::Nothing);
    assert!(rt; !rig.store().wants_collect());
    make_all(&rt, &mut rig, &mut page, &SEVEN_STORES);
    assert!(rt; rig.store().wants_collect());
    let calls = [
        Call::Collect(GcStep::Read),
        Call::Collect(GcStep::Programmed),
        Call::Collect(GcStep::Sealed),
        Call::Flush(1, 0xb1),
        Call::Fetch(2, 0xa2),
        Call::Collect(GcStep::Committed),
        Call::Collect(GcStep::Erased),
        Call::Flush(2, 0xb2),
        Call::Fetch(1, 0xb1),
    ];
    make_all(&rt, &mut rig, &mut page, &calls);
    assert_eq!(rt; counted(rig.store()), [5, 9, 9, 1]);
    drop(rig);
    Ok(())
}

// Whether each of three pages is flushed anew, and then fetched, with a byte.
fn takes_each_anew(rig: &mut StoreRig, page: &mut PageBuf, byte: u8) -> bool {
    for number in 0..3 {
        if !is_made(rig, page, Call::Flush(number, byte)) {
            return false;
        }
    }
    for number in 0..3 {
        if !is_made(rig, page, Call::Fetch(number, byte)) {
            return false;
        }
    }
    true
}

// Three blocks of two pages have room for three pages.
#[test]
fn a_full_store_takes_each_page_anew(rt: HostRuntime) -> Result<(), Fail> {
    let mut page = PageBuf::new(rt.alloc())?;
    let geometry = Geometry {
        blocks: 3,
        pages: 3,
        ..SMALL
    };
    let mut rig = rig_of(&rt, rt.alloc(), &geometry, Fault::Nothing);
    for turn in 0..4 {
        assert!(rt;
            takes_each_anew(&mut rig, &mut page, 16 * turn + 1),
            "turn {turn}"
        );
    }
    drop(rig);
    Ok(())
}

// Whether page 3 is programmed and then waits, and whether it is sealed and then mapped.
fn is_flushed_in_steps(rig: &mut StoreRig, page: &PageBuf) -> [bool; 4] {
    let programmed = rig.flush_step(3, page) == Some(Ok(FlushStep::Programmed));
    let waits = waiting(rig) == (Some(PageNo(3)), false);
    let sealed = rig.seal_step() == Some(Ok(FlushStep::Sealed(PageNo(3))));
    [programmed, waits, sealed, waiting(rig) == (None, true)]
}

// The page that is to be sealed, and whether page 3 is mapped.
fn waiting(rig: &StoreRig) -> (Option<PageNo>, bool) {
    (rig.store().pending(), rig.store().is_mapped(PageNo(3)))
}

// Whether each call is answered so that the power is off.
fn are_off(rig: &mut StoreRig, page: &mut PageBuf) -> [bool; 3] {
    rig.power_off();
    [
        rig.flush(3, page) == Some(Err(FlashStop::Off)),
        rig.fetch(3, page) == Some(Err(FlashStop::Off)),
        rig.collect_step() == Some(Err(FlashStop::Off)),
    ]
}

#[test]
fn a_page_is_mapped_when_it_is_sealed(rt: HostRuntime) -> Result<(), Fail> {
    let mut page = PageBuf::new(rt.alloc())?;
    let mut rig = rig_of(&rt, rt.alloc(), &SMALL, Fault::Nothing);
    fill(&mut page, 0xa3);
    let flushed = is_flushed_in_steps(&mut rig, &page);
    let off = are_off(&mut rig, &mut page);
    let on = rig.into_store().into_flash().is_on();
    assert_eq!(rt; (flushed, off, on), ([true; 4], [true; 3], false));
    Ok(())
}
