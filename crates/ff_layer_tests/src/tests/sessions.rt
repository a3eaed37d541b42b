// A session over mounted parts that begins at the last event number, and a run of two sessions.
ghost use Rattle.std.specs.Prelude.{◌≡◌, ◌≤◌, ◌^◌, IfSome};
ghost use Rattle.ff_base.specs.Geometry.{IsWithinLimits};
ghost use Rattle.ff_core.specs.Resume.{CanResume};
ghost use Rattle.ff_mount.specs.Held.{held_content, nv_of};
ghost use Rattle.ff_mount.specs.Sound.{AreSound};
ghost use Rattle.ff_sessions.specs.Remounts.{HasRemounted};
ghost use Rattle.ff_trace.specs.Within.{AreWithin};

use super::cores::{TestCore, checked, core_of};
use super::plans::{Fault, USUAL};
use super::rules::{ByDirty, ByHits};
use ff_base::{Caller, Geometry};
use ff_cache::Nv;
use ff_core::{Back, Core, Room, Turn};
use ff_evict::Picker;
use ff_flash::{Flash, Plan, SimFlash};
use ff_model::{Image, Kind, Op, Reply};
use ff_mount::{Mounted, image_of, mount};
use ff_policy::Tuner;
use ff_sessions::{Session, run};
use ff_trace::Row;
use std::alloc::Global;
use std::test::Fail;

const LAST_EVENT: u64 = 1 << 62;

const VERIFY: Row = Row::Call {
    caller: Caller(0),
    op: Op::Verify,
};

const ROWS: [Row; 4] = [
    VERIFY,
    Row::Power { arrive: 0 },
    Row::Turns {
        kind: Kind::Promote,
        count: 1,
    },
    VERIFY,
];

// Mounted parts, and the image of them.
#[derive(Drop)]
struct Remounted {
    mounted: Mounted<SimFlash>,
    image: Image,
}

fn remount(alloc: Global, nv: Nv, flash: SimFlash, geometry: &Geometry) -> Option<Remounted>
    requires geometry { IsWithinLimits geometry.now }
    requires sound { AreSound geometry.now nv flash }
    requires life { flash.operations ≤ 2 ^ 61 }
    ensures { IfSome result (λ r. HasRemounted geometry.now nv flash r.mounted.store
        r.mounted.cache r.mounted.marks r.image) }
{
    match mount(alloc, nv, flash, geometry) {
        Ok(mut mounted) => match image_of(alloc, &mut mounted, geometry) {
            Ok(image) => Some(Remounted { mounted, image }),
            Err(_) => {
                drop(mounted);
                None
            }
        },
        Err(back) => {
            drop(back);
            None
        }
    }
}

// The same, over a flash that has few operations.
fn remount_young(alloc: Global, nv: Nv, flash: SimFlash, geometry: &Geometry) -> Option<Remounted>
    requires geometry { IsWithinLimits geometry.now }
    requires sound { AreSound geometry.now nv flash }
    ensures { IfSome result (λ r. HasRemounted geometry.now nv flash r.mounted.store
        r.mounted.cache r.mounted.marks r.image) }
{
    if flash.operation_count() > 1 << 61 {
        return None;
    }
    remount(alloc, nv, flash, geometry)
}

// A session over mounted parts, from the last event number on.
fn resumed(
    alloc: Global,
    parts: Remounted,
    geometry: Geometry,
    tuner: Tuner<ByHits>,
    picker: Picker<ByDirty>,
) -> Option<TestCore>
    requires geometry { IsWithinLimits geometry }
    requires parts { CanResume geometry parts.mounted.store parts.mounted.cache
        parts.mounted.marks (2 ^ 62) }
    requires image { parts.image ≡ held_content geometry.pages
        (nv_of parts.mounted.cache parts.mounted.marks) parts.mounted.store.world.flash.cells }
{
    let Remounted { mounted, image } = parts;
    let room = Room { calls: 2, turns: 1 };
    match Core::resume(
        alloc, mounted, &image, geometry, tuner, picker, room, LAST_EVENT,
    ) {
        Ok(core) => Some(core),
        Err(back) => {
            drop(back);
            None
        }
    }
}

// The session behind one that lost its power, from the last event number on.
fn last(alloc: Global, core: TestCore) -> Option<TestCore> {
    core.known();
    let geometry = *core.geometry();
    let lost = core.power(0);
    match remount_young(alloc, lost.nv, lost.flash, &geometry) {
        Some(parts) => resumed(alloc, parts, geometry, lost.tuner, lost.picker),
        None => None,
    }
}

fn spare(core: &TestCore) -> (u32, u32) {
    (core.spare_calls(), core.spare_turns())
}

fn turn(core: &mut TestCore, op: &Op) -> Option<Turn> {
    if core.spare_calls() == 0 {
        return None;
    }
    Some(core.turn(Caller(0), 0, op))
}

fn promote_turn(core: &mut TestCore) -> Option<Back> {
    if core.spare_turns() == 0 {
        return None;
    }
    Some(core.promote_turn())
}

// What room there is, what a load is answered, how many turns are left then, and what a turn is answered, with the event
// number behind it.
fn spent(core: &mut TestCore) -> ((u32, u32), Option<Turn>, u32, Option<Back>, u64) {
    let room = spare(core);
    let load = turn(core, &Op::Load { at: 0, len: 8 });
    let (_, left) = spare(core);
    let back = promote_turn(core);
    (room, load, left, back, core.events())
}

#[test]
fn nothing_is_done_at_the_last_event_number(rt: HostRuntime) -> Result<(), Fail> {
    let first = core_of(rt.alloc(), USUAL, Fault::Nothing)?;
    let mut core = last(rt.alloc(), first).ok_or("a session behind it")?;
    let spent = spent(&mut core);
    drop(core);
    let load = Some(Turn::Served(Reply::Spent));
    assert_eq!(rt; spent, ((2, 1), load, 1, Some(Back::Spent), LAST_EVENT));
    Ok(())
}

fn sessions_of(alloc: Global, rows: &[Row]) -> Result<Vec<Session>, Fail>
    requires { AreWithin 0 rows.now }
{
    let geometry = checked(USUAL)?;
    let plan = Plan {
        fail: Vec::new(alloc),
        cuts: Vec::new(alloc),
    };
    let tuner = Tuner::new(1, 4, ByHits);
    Ok(run(alloc, geometry, plan, tuner, Picker::new(ByDirty), rows)?)
}

// The number of a session's first event, how many events there were by its end, its answered calls and its turns.
fn told(session: &Session) -> (u64, u64, u32, u32) {
    let account = &session.account;
    (
        account.from_event(),
        account.events(),
        account.history().len(),
        account.log().len(),
    )
}

#[test]
fn a_run_goes_on_behind_a_loss_of_power(rt: HostRuntime) -> Result<(), Fail> {
    let sessions = sessions_of(rt.alloc(), &ROWS)?;
    let told: [(u64, u64, u32, u32); 2] = match sessions.as_slice() {
        [first, last] => [told(first), told(last)],
        _ => panic!(rt; "two sessions"),
    };
    drop(sessions);
    assert_eq!(rt; told, [(0, 1, 1, 0), (1, 2, 1, 1)]);
    Ok(())
}
