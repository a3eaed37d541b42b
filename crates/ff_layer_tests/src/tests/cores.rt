// Calls and background turns over a simulated flash, by their answers and counts.
ghost use Rattle.std.specs.Prelude.{◌≡◌, IfOk};
ghost use Rattle.ff_base.specs.Geometry.{IsWithinLimits};

mod rows;

use super::plans::{Fault, USUAL, plan_of};
use super::rules::{ByDirty, ByHits};
use ff_base::{Caller, Geometry, PageNo};
use ff_cache::{Cache, Nv};
use ff_core::{Back, Core, Driven, Lost, Record, Room};
use ff_evict::Picker;
use ff_flash::{Flash, SimFlash};
use ff_model::{Counts, Kind, Op, Piece, Reply};
use ff_policy::Tuner;
use rows::{LOSSES, Loss, ROWS, Row, Step};
use std::alloc::Global;
use std::test::Fail;

pub type TestCore = Core<SimFlash, ByHits, ByDirty>;

const ROOM: Room = Room {
    calls: 32,
    turns: 256,
};

/// A geometry that is within its bounds.
pub fn checked(geometry: Geometry) -> Result<Geometry, Fail>
    ensures { IfOk result (λ checked. IsWithinLimits checked) }
{
    match geometry.check() {
        Ok(()) => Ok(geometry),
        Err(_) => Err("out of bounds")?,
    }
}

pub fn core_of(alloc: Global, geometry: Geometry, fault: Fault) -> Result<TestCore, Fail> {
    let geometry = checked(geometry)?;
    let plan = plan_of(alloc, fault)?;
    let flash = SimFlash::new(alloc, &geometry, plan)?;
    let tuner = Tuner::new(1, 4, ByHits);
    let picker = Picker::new(ByDirty);
    match Core::fresh(alloc, flash, geometry, tuner, picker, ROOM) {
        Ok(core) => Ok(core),
        Err(back) => {
            drop(back);
            Err("no memory")?
        }
    }
}

// Whether a step is answered so.
fn is_answered(core: &mut TestCore, step: &Step) -> bool {
    match step {
        Step::Load(at, bytes) => load(core, *at, bytes),
        Step::Store(at, bytes) => store(core, *at, bytes) == Some(Reply::Done),
        Step::Full(at, bytes) => store(core, *at, bytes) == Some(Reply::Full),
        Step::Fault(at, bytes) => store(core, *at, bytes) == Some(Reply::Fault),
        Step::Mark(page) => {
            let op = Op::Mark {
                page: PageNo(*page),
                from: 0,
                count: 64,
            };
            call(core, &op) == Some(Reply::Done)
        }
        Step::Turns(kind, count, did) => turns(core, *kind, *count) == *did,
    }
}

// Whether a load gives these bytes.
fn load(core: &mut TestCore, at: u32, bytes: &[u8]) -> bool {
    if bytes.len() > 64 {
        return false;
    }
    let op = Op::Load {
        at,
        len: bytes.len() as u32,
    };
    call(core, &op) == Some(Reply::Bytes(Piece::from_slice(bytes)))
}

fn store(core: &mut TestCore, at: u32, bytes: &[u8]) -> Option<Reply> {
    if bytes.len() > 64 {
        return None;
    }
    let op = Op::Store {
        at,
        bytes: Piece::from_slice(bytes),
    };
    call(core, &op)
}

// The reply to a call of caller 0.
fn call(core: &mut TestCore, op: &Op) -> Option<Reply> {
    if core.spare_calls() == 0 {
        return None;
    }
    match core.drive(Caller(0), 0, op) {
        Driven::Served(reply) => Some(reply),
        Driven::Off => None,
    }
}

// Makes so many turns of a kind, and tells how many did something.
fn turns(core: &mut TestCore, kind: Kind, count: u32) -> u32 {
    let mut did: u32 = 0;
    for _ in 0..count {
        if core.spare_turns() == 0 {
            return did;
        }
        let answer = match kind {
            Kind::Promote => core.promote_turn(),
            Kind::Evict => core.evict_turn(),
            Kind::Collect => core.collect_turn(),
            Kind::Drain => core.drain_turn(),
        };
        if let Back::Did(_) = answer {
            did = did.saturating_add(1);
        }
    }
    did
}

// The first step that is answered otherwise.
fn first_unlike(core: &mut TestCore, steps: &[Step]) -> Option<usize> {
    for (number, step) in steps.iter().enumerate() {
        if !is_answered(core, step) {
            return Some(number);
        }
    }
    None
}

// The first step that is answered otherwise, and the counts.
fn play(core: &mut TestCore, steps: &[Step]) -> (Option<usize>, Counts) {
    let unlike = first_unlike(core, steps);
    (unlike, core.counts())
}

fn made_of(alloc: Global, row: &Row) -> Result<(Option<usize>, Counts), Fail> {
    let mut core = core_of(alloc, row.geometry, row.fault)?;
    let made = play(&mut core, row.steps);
    drop(core);
    Ok(made)
}

#[test]
fn calls_and_turns_come_to_these_answers_and_counts(rt: HostRuntime) -> Result<(), Fail> {
    for (at, row) in ROWS.iter().enumerate() {
        assert_eq!(rt; made_of(rt.alloc(), row)?, (None, row.counts), "row {at}");
    }
    Ok(())
}

// How many events, answered calls and turns there are, and the threshold's floor.
fn held(core: &TestCore) -> (u64, u32, u32, u8) {
    (
        core.events(),
        core.history().len(),
        core.log().len(),
        core.floor(),
    )
}

fn power_off(core: TestCore, arrive: u32) -> Lost<SimFlash, ByHits, ByDirty> {
    core.power(arrive)
}

// The number of a record's first event, how many events there were, the counts, and the first turn's answer.
fn told(account: &Record) -> (u64, u64, Counts, Option<Back>) {
    let first = match account.log().get(0) {
        Some(turn) => Some(turn.answer),
        None => None,
    };
    (
        account.from_event(),
        account.events(),
        *account.counts(),
        first,
    )
}

// What room a core has, what a verify is answered, how many turns of the drainer did something, and what is held then.
fn begun(core: &mut TestCore) -> ((u32, u32), Option<Reply>, u32, (u64, u32, u32, u8)) {
    let room = (core.spare_calls(), core.spare_turns());
    let verified = call(core, &Op::Verify);
    let did = turns(core, Kind::Drain, 1);
    (room, verified, did, held(core))
}

#[test]
fn a_session_ends_in_its_record(rt: HostRuntime) -> Result<(), Fail> {
    let mut core = core_of(rt.alloc(), USUAL, Fault::Nothing)?;
    let begun = begun(&mut core);
    let geometry = *core.geometry();
    let lost = power_off(core, 4);
    let told = told(&lost.account);
    drop(lost);
    assert_eq!(rt; begun, ((32, 256), Some(Reply::Done), 0, (1, 1, 1, 1)));
    assert_eq!(rt; geometry, Geometry::default());
    assert_eq!(rt; told, (0, 1, Counts::default(), Some(Back::Idle)));
    Ok(())
}

// The first two bytes of page 0, where it is cached.
fn first_bytes(cache: &Cache) -> (u8, u8) {
    cache.known();
    match cache.find(PageNo(0)) {
        Some(slot) => {
            let line = cache.line(slot, 0);
            (line[0], line[1])
        }
        None => (0, 0),
    }
}

// What the battery keeps of a session, and how many entries are kept.
fn kept_of(lost: Lost<SimFlash, ByHits, ByDirty>) -> (Nv, u32)
    ensures { result.0 ≡ lost.nv }
{
    let kept = lost.account.kept();
    (lost.nv, kept)
}

// How many entries are kept, and the first two bytes of page 0 in what the battery kept.
fn left_by(alloc: Global, core: TestCore, arrive: u32) -> Result<(u32, u8, u8), Fail> {
    core.known();
    let geometry = *core.geometry();
    let (nv, kept) = kept_of(core.power(arrive));
    match Cache::from_nv(alloc, nv, &geometry) {
        Ok(parts) => {
            let (first, second) = first_bytes(&parts.cache);
            drop(parts);
            Ok((kept, first, second))
        }
        Err(nv) => {
            drop(nv);
            Err("no memory")?
        }
    }
}

// Marks page 0 and stores to it, twice, with a verify between where that is asked. Whether each was answered done.
fn stored_twice(core: &mut TestCore, verified: bool) -> [bool; 4] {
    let marked = is_answered(core, &Step::Mark(0));
    let first = is_answered(core, &Step::Store(0, &[0xaa]));
    let seen = !verified || call(core, &Op::Verify) == Some(Reply::Done);
    [
        marked,
        first,
        seen,
        is_answered(core, &Step::Store(1, &[0xbb])),
    ]
}

// How both stores were answered, how many accesses of the device there were, and what a loss of power left.
fn lost_of(alloc: Global, loss: &Loss) -> Result<([bool; 4], u64, (u32, u8, u8)), Fail> {
    let mut core = core_of(alloc, USUAL, Fault::Nothing)?;
    let stored = stored_twice(&mut core, loss.verified);
    let device = core.counts().device;
    Ok((stored, device, left_by(alloc, core, loss.arrive)?))
}

#[test]
fn a_loss_of_power_keeps_what_arrived_and_was_acknowledged(rt: HostRuntime) -> Result<(), Fail> {
    for loss in LOSSES.iter() {
        assert_eq!(rt; lost_of(rt.alloc(), loss)?, ([true; 4], 2, loss.left));
    }
    Ok(())
}

// Drives a load until the power is cut before an event, or to its end.
fn load_until(core: &mut TestCore, cut: Option<u64>) -> Option<Driven> {
    if core.spare_calls() == 0 {
        return None;
    }
    Some(core.drive_until(Caller(0), 0, &Op::Load { at: 0, len: 1 }, cut))
}

// The events, the answered calls, and whether the power is on.
fn came_to(core: &TestCore) -> (u64, u32, bool) {
    (core.events(), core.history().len(), core.flash().is_on())
}

fn cut_power(core: &mut TestCore) {
    core.cut_power();
}

// What a load comes to before whose second step the power is cut, what it came to then, and after one more cut.
fn cut_twice(core: &mut TestCore) -> (Option<Driven>, [(u64, u32, bool); 2]) {
    let driven = load_until(core, Some(1));
    let first = came_to(core);
    cut_power(core);
    (driven, [first, came_to(core)])
}

#[test]
fn the_power_is_cut_before_an_event(rt: HostRuntime) -> Result<(), Fail> {
    let mut core = core_of(rt.alloc(), USUAL, Fault::Nothing)?;
    let came_to = cut_twice(&mut core);
    drop(core);
    assert_eq!(rt; came_to, (Some(Driven::Off), [(1, 0, false); 2]));
    Ok(())
}
