// The chain of sessions of a run.
ghost use Rattle.std.specs.Prelude.{◌≡◌, ◌≤◌, ◌*◌, [], All, IfNone, IfOk, IfSome, None, OnOk, Some, length, vec_len};
ghost use Rattle.ff_base.specs.Geometry.{IsWithinLimits};
ghost use Rattle.ff_core.specs.Account.{start_of};
ghost use Rattle.ff_flash.specs.Plans.{IsPlan, planned_of};
ghost use Rattle.ff_trace.specs.Tally.{most_rows, most_turns};
ghost use Rattle.ff_trace.specs.Within.{AreWithin, IsOfCaller, turns_asked};
ghost use Rattle.ff_sessions.specs.Begun.{setup_in};
ghost use Rattle.ff_sessions.specs.Following.{CanGoOn, IsGoneOn, IsNextStep, IsOpened, IsUnderWay, MayRun, cursor_after};
ghost use Rattle.ff_sessions.specs.Sessions.{AreSessionsOf, setup_with};
ghost use Rattle.ff_sessions.specs.Stops.{IsStopWithin};

use crate::closing::{Closed, close};
use crate::opening::{open_first, open_next};
use crate::running::{Ran, run_session};
use crate::session::Session;
use crate::stop::{Cursor, Stop};
use ff_base::{Geometry, NoMemory};
use ff_core::Core;
use ff_evict::{Pick, Picker};
use ff_flash::{Plan, SimFlash};
use ff_mount::Mounted;
use ff_policy::{Tune, Tuner};
use ff_trace::Row;
use std::alloc::Global;

/// The most sessions of a run: one for each loss of power, and the last.
pub const MOST_SESSIONS: u32 = 17;

// A session that is open, and where in the rows it goes on.
#[derive(Drop)]
struct Open<T: Tune, E: Pick> {
    core: Core<SimFlash, T, E>,
    at: Cursor,
}

// A session that is over, and the one behind it, where the run goes on.
#[derive(Drop)]
struct Step<T: Tune, E: Pick> {
    session: Session,
    next: Option<Open<T, E>>,
}

// Where so many rows go on behind a stop.
fn behind(stop: Stop, count: usize) -> Option<Cursor>
    requires { IsStopWithin count stop }
    ensures { result ≡ cursor_after stop }
{
    match stop {
        Stop::Cut(at) => Some(at),
        Stop::Power { row, .. } => Some(Cursor {
            row: row + 1,
            made: 0,
        }),
        Stop::End => None,
    }
}

// Keeps a session that is over, and opens the one behind it where it has an image and rows are left.
fn go_on<T: Tune + Drop, E: Pick + Drop>(
    alloc: Global,
    closed: Closed<T, E>,
    stop: Stop,
    rows: &[Row],
    geometry: &Geometry,
) -> Result<Step<T, E>, NoMemory>
    requires geometry { IsWithinLimits geometry.now }
    requires parts { IfSome closed.mounted
        (λ m. CanGoOn geometry.now closed.session m.store m.cache m.marks) }
    requires within { IsStopWithin (length rows.now) stop }
    requires few { length rows.now ≤ most_rows }
    requires turns { turns_asked rows.now ≤ 4 * most_turns }
    ensures { IfOk result (IsGoneOn geometry.now rows.now closed stop) }
{
    let Closed {
        session,
        mounted,
        tuner,
        picker,
    } = closed;
    let Some(mounted) = mounted else {
        drop(tuner);
        drop(picker);
        return Ok(Step {
            session,
            next: None,
        });
    };
    match open_behind(
        alloc, mounted, &session, stop, tuner, picker, rows, geometry,
    ) {
        Ok(next) => Ok(Step { session, next }),
        Err(NoMemory) => {
            drop(session);
            Err(NoMemory)
        }
    }
}

// Opens the session behind one that is over, over its mounted parts, where rows are left.
#[tactic(auto, using(crate::proofs::Fewer::turns_left))]
fn open_behind<T: Tune + Drop, E: Pick + Drop>(
    alloc: Global,
    mounted: Mounted<SimFlash>,
    session: &Session,
    stop: Stop,
    tuner: Tuner<T>,
    picker: Picker<E>,
    rows: &[Row],
    geometry: &Geometry,
) -> Result<Option<Open<T, E>>, NoMemory>
    requires geometry { IsWithinLimits geometry.now }
    requires parts { CanGoOn geometry.now session.now mounted.store mounted.cache mounted.marks }
    requires within { IsStopWithin (length rows.now) stop }
    requires few { length rows.now ≤ most_rows }
    requires turns { turns_asked rows.now ≤ 4 * most_turns }
    ensures next { IfOk result (λ next. IfSome next (IsOpened geometry.now rows.now (record {
      session = session.now;
      mounted = Some mounted;
      tuner = tuner;
      picker = picker;
    }) stop)) }
    ensures ends { IfOk result (λ next. IfNone next (cursor_after stop ≡ None)) }
{
    let Some(at) = behind(stop, rows.len()) else {
        drop(mounted);
        drop(tuner);
        drop(picker);
        return Ok(None);
    };
    let Some(base) = &session.image else {
        unreachable!()
    };
    let event = session.account.events();
    let left = &rows[at.row..];
    match open_next(alloc, mounted, base, geometry, tuner, picker, left, event) {
        Ok(core) => Ok(Some(Open { core, at })),
        Err(NoMemory) => Err(NoMemory),
    }
}

// Runs the open session to its end, and opens the one behind it.
fn next_session<T: Tune + Drop, E: Pick + Drop>(
    alloc: Global,
    running: Open<T, E>,
    rows: &[Row],
    geometry: &Geometry,
) -> Result<Step<T, E>, NoMemory>
    requires callers { All IsOfCaller rows.now }
    requires few { length rows.now ≤ most_rows }
    requires turns { turns_asked rows.now ≤ 4 * most_turns }
    requires geometry { geometry.now ≡ running.core.geometry }
    requires may_run { MayRun (setup_in running.core) (start_of running.core) rows.now running }
    ensures { IfOk result (IsNextStep (setup_in running.core) (start_of running.core) rows.now
        running.at) }
{
    let Open { core, at } = running;
    let Ran { lost, stop } = run_session(core, rows, at);
    match close(alloc, lost, geometry) {
        Ok(closed) => go_on(alloc, closed, stop, rows, geometry),
        Err(NoMemory) => Err(NoMemory),
    }
}

/// Makes the rows of a trace in one session after another: the first starts from nothing, each ends by a loss of power
/// or with the rows, and the next starts from its image. What was cut is made again first.
pub fn run<T: Tune + Drop, E: Pick + Drop>(
    alloc: Global,
    geometry: Geometry,
    plan: Plan,
    tuner: Tuner<T>,
    picker: Picker<E>,
    rows: &[Row],
) -> Result<Vec<Session>, NoMemory>
    requires geometry { IsWithinLimits geometry }
    requires plan { IsPlan (planned_of plan) }
    requires rows { AreWithin (length plan.cuts.items) rows.now }
    ensures sessions { IfOk result (λ sessions. AreSessionsOf
        (setup_with geometry (planned_of plan) tuner.floor) rows.now sessions.items) }
    ensures few { IfOk result (λ sessions. vec_len sessions ≤ 17) }
{
    let core = open_first(alloc, geometry, plan, tuner, picker, rows)?;
    let at = Cursor { row: 0, made: 0 };
    let mut sessions = Vec::new(alloc);
    match run_all(alloc, Open { core, at }, rows, &geometry, &mut sessions) {
        Ok(()) => Ok(sessions),
        Err(NoMemory) => Err(NoMemory),
    }
}

// Runs the first session and those behind it, while one is open.
fn run_all<T: Tune + Drop, E: Pick + Drop>(
    alloc: Global,
    first: Open<T, E>,
    rows: &[Row],
    geometry: &Geometry,
    sessions: &mut Vec<Session>,
) -> Result<(), NoMemory>
    requires geometry { geometry.now ≡ first.core.geometry }
    requires rows { AreWithin (length (setup_in first.core).plan.cuts) rows.now }
    requires none { sessions.old.items ≡ [] }
    requires under_way { IsUnderWay (setup_in first.core) rows.now [] first }
    ensures sessions { OnOk result (AreSessionsOf (setup_in first.core) rows.now
        sessions.new.items) }
    ensures few { OnOk result (vec_len sessions.new ≤ 17) }
{
    let mut running = first;
    for _ in 0..MOST_SESSIONS {
        let Step { session, next } = match next_session(alloc, running, rows, geometry) {
            Ok(step) => step,
            Err(NoMemory) => return Err(NoMemory),
        };
        match sessions.push(session) {
            Ok(()) => {}
            Err(session) => {
                drop(session);
                drop(next);
                return Err(NoMemory);
            }
        }
        let Some(later) = next else {
            return Ok(());
        };
        running = later;
    }
    unreachable!()
}
