// Stores before a cache of one page, where each operation of the flash fails or is cut.
use super::rig::DeviceRig;
use super::rows::ONE_WAY;
use super::{load, store};
use crate::tests::found::Found;
use crate::tests::plans::{Fault, STORES, set_byte};
use ff_base::{PageBuf, PageNo};
use ff_cache::Cache;
use ff_device::Device;
use ff_flash::{Flash, SimFlash};
use ff_lines::Work;
use std::alloc::Global;
use std::test::Fail;

// The operations of the stores, the last of which is the fetch of page 2.
const OPERATIONS: u32 = 21;

fn has_bytes(rig: &mut DeviceRig, wanted: &[u8; 5]) -> bool {
    for (page, byte) in wanted.iter().enumerate() {
        if load(rig, page as u32) != Some(*byte) {
            return false;
        }
    }
    true
}

// Stores a byte, and again where that failed and each page has the bytes that it had.
fn store_again(rig: &mut DeviceRig, page: u32, byte: u8, wanted: &[u8; 5]) -> Option<Work> {
    let answer = store(rig, page, byte);
    if answer == Some(Work::Failed) && has_bytes(rig, wanted) {
        store(rig, page, byte)
    } else {
        answer
    }
}

// Makes the stores until the power is off. The answer is the bytes that are stored then.
fn store_all(rig: &mut DeviceRig) -> Option<[u8; 5]> {
    let mut wanted = [0; 5];
    for (page, byte) in &STORES {
        match store_again(rig, *page, *byte, &wanted)? {
            Work::Ready => set_byte(&mut wanted, *page, *byte),
            Work::Off => return Some(wanted),
            _ => return None,
        }
    }
    Some(wanted)
}

fn cached_byte(cache: &Cache, page: u32) -> Option<u8> {
    cache.known();
    match cache.find(PageNo(page)) {
        Some(slot) => Some(cache.line(slot, 0)[0]),
        None => None,
    }
}

// The first bytes of five pages with the power gone: those of their ways, or else of their best sealed versions.
fn bytes_left(device: Device<SimFlash>, buffer: &mut PageBuf) -> [u8; 5] {
    device.known();
    let parts = device.into_parts();
    let mut flash = parts.store.into_flash();
    flash.power_up();
    let mut bytes = Found::of(&mut flash, buffer).best_bytes();
    for (page, byte) in bytes.iter_mut().enumerate() {
        *byte = cached_byte(&parts.cache, page as u32).unwrap_or(*byte);
    }
    bytes
}

// The first bytes that are left of the pages, where no post is lost.
fn left(mut rig: DeviceRig, buffer: &mut PageBuf) -> Option<[u8; 5]> {
    let lost = rig.arrive(1);
    let bytes = bytes_left(rig.into_device(), buffer);
    match lost {
        Some(_) => None,
        None => Some(bytes),
    }
}

fn is_same(stored: Option<[u8; 5]>, left: Option<[u8; 5]>) -> bool {
    match (stored, left) {
        (Some(stored), Some(left)) => stored == left,
        _ => false,
    }
}

// Whether the fault comes, and what is stored is left.
fn is_left(mut rig: DeviceRig, buffer: &mut PageBuf, fault: Fault) -> bool {
    let stored = store_all(&mut rig);
    let has_come = rig.has_come(fault);
    let left = left(rig, buffer);
    has_come && is_same(stored, left)
}

// Whether that holds of an operation that fails, and of one that is cut by each of three masks.
fn is_left_by_each(alloc: Global, buffer: &mut PageBuf, after: u32) -> bool {
    let faults = [
        Fault::Fail(after),
        Fault::Cut(after, 0),
        Fault::Cut(after, 1),
        Fault::Cut(after, 3),
    ];
    for fault in &faults {
        match DeviceRig::new(alloc, &ONE_WAY, *fault) {
            Some(rig) => {
                if !is_left(rig, buffer, *fault) {
                    return false;
                }
            }
            None => return false,
        }
    }
    true
}

#[test]
fn each_fault_leaves_what_is_stored(rt: HostRuntime) -> Result<(), Fail> {
    let mut buffer = PageBuf::new(rt.alloc())?;
    for after in 0..OPERATIONS {
        let left = is_left_by_each(rt.alloc(), &mut buffer, after);
        assert!(rt; left, "after {after}");
    }
    Ok(())
}
