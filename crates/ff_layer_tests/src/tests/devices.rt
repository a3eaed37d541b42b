// Steps on a device over a simulated flash, by their answers.
mod faults;
mod rig;
mod rows;

use super::plans::Fault;
use ff_lines::Work;
use rig::DeviceRig;
use rows::{ROWS, Step};
use std::test::Fail;

// The first byte of a page, which is made resident.
fn load(rig: &mut DeviceRig, page: u32) -> Option<u8> {
    match rig.serve(page)? {
        Work::Ready => Some(rig.read(page, true)?[0]),
        _ => None,
    }
}

// Stores a byte at the start of a page. The answer is that of the last step of work.
fn store(rig: &mut DeviceRig, page: u32, byte: u8) -> Option<Work> {
    let answer = rig.serve(page)?;
    if answer == Work::Ready {
        rig.post(page, 0, &[byte], Some(0))?;
    }
    Some(answer)
}

// Whether a page becomes resident, and another is no longer.
fn replaces(rig: &mut DeviceRig, page: u32, old: u32) -> bool {
    let was = rig.is_resident(old);
    let answer = rig.serve(page);
    was && answer == Some(Work::Ready) && !rig.is_resident(old)
}

fn starts_with(line: Option<[u8; 64]>, bytes: &[u8; 4]) -> bool {
    match line {
        Some(line) => line[..4] == bytes[..],
        None => false,
    }
}

// Whether a step is answered so.
fn is_answered(rig: &mut DeviceRig, step: &Step) -> bool {
    match step {
        Step::Load(page, byte) => load(rig, *page) == Some(*byte),
        Step::Store(page, byte) => store(rig, *page, *byte) == Some(Work::Ready),
        Step::Read(page, hit, bytes) => starts_with(rig.read(*page, *hit), bytes),
        Step::Post(from, bytes, position, waiting) => {
            rig.post(0, *from, bytes, *position) == Some(*waiting)
        }
        Step::Land(page) => rig.post(*page, 0, &[1], None).is_some(),
        Step::Pin(page, on) => rig.pin(*page, *on),
        Step::Drain => {
            rig.drain_all();
            rig.waiting() == 0
        }
        Step::DrainOne(found, waiting) => rig.drain_one() == (*found, *waiting),
        Step::Serve(page, old) => replaces(rig, *page, *old),
        Step::Work(page, answer) => rig.serve(*page) == Some(*answer),
        Step::Collect(answer) => rig.collect_work() == Some(*answer),
        Step::Arrive(count, lost) => rig.arrive(*count) == *lost,
        Step::Waits(waiting) => rig.waiting() == *waiting,
        Step::Rests => rig.rests(),
        Step::Counts(counts) => rig.counts() == *counts,
        Step::PowerOff => {
            rig.power_off();
            true
        }
    }
}

#[test]
fn steps_are_answered_so(rt: HostRuntime) -> Result<(), Fail> {
    for (at, row) in ROWS.iter().enumerate() {
        let mut rig = DeviceRig::new(rt.alloc(), &row.geometry, Fault::Nothing).expect(
            &rt,
            "want of memory",
        );
        for (number, step) in row.steps.iter().enumerate() {
            assert!(rt; is_answered(&mut rig, step), "step {number} of row {at}");
        }
        drop(rig);
    }
    Ok(())
}
