// Makes the calls and turns of rows in an open session, up to a loss of power.
ghost use Rattle.std.specs.Prelude.{◌≡◌, ◌<◌, ◌≤◌, ◌-◌, [], All, length, replicate, true};
ghost use Rattle.ff_core.specs.BackEvents.{IsBackEvent};
ghost use Rattle.ff_core.specs.Core.{spare_calls, spare_turns};
ghost use Rattle.ff_core.specs.Hierarchy.{flash_under};
ghost use Rattle.ff_core.specs.Powered.{GoesOffByCut};
ghost use Rattle.ff_trace.specs.Fields.{caller_count};
ghost use Rattle.ff_trace.specs.Within.{IsOfCaller};
ghost use Rattle.ff_trace.specs.declared.row.Row.TheVariants as rows;
ghost use Rattle.ff_sessions.specs.Items.{turn};
ghost use Rattle.ff_sessions.specs.Making.{HasRoomFor, IsOpen, StopsAt};
ghost use Rattle.ff_sessions.specs.RowStops.{RowRuns};
ghost use Rattle.ff_sessions.specs.Stops.{items_at, row_left};

use crate::stop::{Cursor, Stop};
use ff_base::Caller;
use ff_core::{Back, Core, Driven};
use ff_evict::Pick;
use ff_flash::Flash;
use ff_model::{Kind, Op};
use ff_policy::Tune;
use ff_trace::{CALLERS, Row};

// What became of a row.
#[derive(Clone, Copy)]
enum RowStop {
    Done,
    /// Its next call or turn was cut, behind so many turns.
    Cut(u32),
    /// It is a row of power, at which so many posts arrive.
    Power(u32),
}

/// Makes the calls and turns of the rows from a cursor on, up to a loss of power. Each caller's calls are numbered from
/// 0.
pub fn make_rows<F: Flash, T: Tune, E: Pick>(
    core: &mut Core<F, T, E>,
    rows: &[Row],
    at: Cursor,
) -> Stop
    requires callers { All IsOfCaller rows.now }
    requires cursor { at.row ≤ length rows.now }
    requires on { (flash_under core.old.hierarchy).on ≡ true }
    requires calls { core.old.history.entries ≡ [] }
    requires room { HasRoomFor core.old (items_at rows.now at) }
    ensures { StopsAt core.old rows.now at result core.new }
{
    let mut numbers = [0; CALLERS as usize];
    make_each(core, &mut numbers, rows, at)
}

// The same, over the numbers of the callers' next calls.
fn make_each<F: Flash, T: Tune, E: Pick>(
    core: &mut Core<F, T, E>,
    numbers: &mut [u32],
    rows: &[Row],
    at: Cursor,
) -> Stop
    requires callers { All IsOfCaller rows.now }
    requires cursor { at.row ≤ length rows.now }
    requires on { (flash_under core.old.hierarchy).on ≡ true }
    requires calls { core.old.history.entries ≡ [] }
    requires numbers { numbers.old ≡ replicate caller_count 0 }
    requires room { HasRoomFor core.old (items_at rows.now at) }
    ensures { StopsAt core.old rows.now at result core.new }
{
    let mut made = at.made;
    for row in at.row..rows.len() {
        match make_row(core, numbers, &rows[row], made) {
            RowStop::Done => made = 0,
            RowStop::Cut(made) => return Stop::Cut(Cursor { row, made }),
            RowStop::Power(arrive) => return Stop::Power { row, arrive },
        }
    }
    Stop::End
}

// Makes the items of a row of which so many turns were made.
fn make_row<F: Flash, T: Tune, E: Pick>(
    core: &mut Core<F, T, E>,
    numbers: &mut [u32],
    row: &Row,
    made: u32,
) -> RowStop
    requires caller { IsOfCaller row.now }
    requires opened { IsOpen core.old numbers.old }
    requires room { HasRoomFor core.old (row_left made row.now) }
    ensures { RowRuns core.old row.now made result core.new numbers.new }
{
    match row {
        Row::Call { caller, op } => make_call(core, numbers, *caller, op),
        Row::Turns { kind, count } => make_turns(core, numbers, *kind, *count, made),
        Row::Power { arrive } => RowStop::Power(*arrive),
    }
}

#[tactic(auto, using(crate::proofs::Numbers::few_of))]
fn make_call<F: Flash, T: Tune, E: Pick>(
    core: &mut Core<F, T, E>,
    numbers: &mut [u32],
    caller: Caller,
    op: &Op,
) -> RowStop
    requires caller { caller.0 < caller_count }
    requires opened { IsOpen core.old numbers.old }
    requires room { 0 < spare_calls core.old }
    ensures { RowRuns core.old (rows.Call caller op.now) 0 result core.new numbers.new }
{
    core.known();
    match core.drive(caller, numbers[caller.0 as usize], op) {
        Driven::Served(_) => {
            let number = &mut numbers[caller.0 as usize];
            *number += 1;
            RowStop::Done
        }
        Driven::Off => RowStop::Cut(0),
    }
}

// Makes the turns of a row, of which so many were made. They leave the numbers of the callers' next calls.
fn make_turns<F: Flash, T: Tune, E: Pick>(
    core: &mut Core<F, T, E>,
    numbers: &[u32],
    kind: Kind,
    count: u32,
    made: u32,
) -> RowStop
    requires opened { IsOpen core.old numbers.now }
    requires room { HasRoomFor core.old (replicate (count - made) (turn kind)) }
    ensures { RowRuns core.old (rows.Turns kind count) made result core.new numbers.now }
{
    for turn in made..count {
        match back(core, kind) {
            Back::Off => return RowStop::Cut(turn),
            Back::Did(_) | Back::Idle | Back::Failed | Back::Spent => {}
        }
    }
    RowStop::Done
}

fn back<F: Flash, T: Tune, E: Pick>(core: &mut Core<F, T, E>, kind: Kind) -> Back
    requires { 0 < spare_turns core.old }
    ensures event { IsBackEvent core.old kind result core.new }
    ensures power { GoesOffByCut (flash_under core.old.hierarchy) (flash_under core.new.hierarchy) }
{
    match kind {
        Kind::Promote => core.promote_turn(),
        Kind::Evict => core.evict_turn(),
        Kind::Collect => core.collect_turn(),
        Kind::Drain => core.drain_turn(),
    }
}
