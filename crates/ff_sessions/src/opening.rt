// Opens the sessions of a run.
ghost use Rattle.std.specs.Prelude.{ℕ, ◌≡◌, ◌≤◌, ◌*◌, IfOk, length};
ghost use Rattle.ff_base.specs.Geometry.{IsWithinLimits};
ghost use Rattle.ff_core.specs.Resume.{CanResume};
ghost use Rattle.ff_flash.specs.Plans.{IsPlan, planned_of};
ghost use Rattle.ff_flash.specs.SimFlash.{IsSimFlashSound, told_plan};
ghost use Rattle.ff_mount.specs.Held.{held_content, nv_of};
ghost use Rattle.ff_store.specs.PageStore.{IsStoreSound};
ghost use Rattle.ff_trace.specs.Tally.{most_rows, most_turns};
ghost use Rattle.ff_trace.specs.Within.{turns_asked, turns_in_row};
ghost use Rattle.ff_sessions.specs.Begun.{IsBegun, resumed_start};
ghost use Rattle.ff_sessions.specs.Making.{HasRoomFor};
ghost use Rattle.ff_sessions.specs.Items.{items_of};
ghost use Rattle.ff_sessions.specs.Sessions.{first_start, setup_with};
ghost use Rattle.ff_sessions.specs.Stops.{items_from};

use ff_base::{Geometry, NoMemory};
use ff_core::{Core, Room};
use ff_evict::{Pick, Picker};
use ff_flash::{Plan, SimFlash};
use ff_model::Image;
use ff_mount::Mounted;
use ff_policy::{Tune, Tuner};
use ff_trace::Row;
use std::alloc::Global;

// Room for the calls and turns of these rows.
fn room_for(rows: &[Row]) -> Room
    requires few { length rows.now ≤ most_rows }
    requires turns { turns_asked rows.now ≤ 4 * most_turns }
    ensures calls { result.calls ≡ length rows.now }
    ensures turns { result.turns ≡ turns_asked rows.now }
{
    Room {
        calls: rows.len() as u32,
        turns: turns_asked(rows),
    }
}

// How many turns the rows ask for.
fn turns_asked(rows: &[Row]) -> u32
    requires { turns_asked rows.now ≤ 4 * most_turns }
    ensures { result ≡ turns_asked rows.now }
{
    let mut turns = 0;
    for row in rows {
        turns += turns_in_row(row);
    }
    turns
}

fn turns_in_row(row: &Row) -> u32
    ensures { result ≡ turns_in_row row.now }
{
    match row {
        Row::Turns { count, .. } => *count,
        Row::Call { .. } | Row::Power { .. } => 0,
    }
}

/// The first session of a run, which starts from nothing, with room for all rows.
pub fn open_first<T: Tune + Drop, E: Pick + Drop>(
    alloc: Global,
    geometry: Geometry,
    plan: Plan,
    tuner: Tuner<T>,
    picker: Picker<E>,
    rows: &[Row],
) -> Result<Core<SimFlash, T, E>, NoMemory>
    requires geometry { IsWithinLimits geometry }
    requires plan { IsPlan (planned_of plan) }
    requires few { length rows.now ≤ most_rows }
    requires turns { turns_asked rows.now ≤ 4 * most_turns }
    ensures begun { IfOk result (IsBegun (setup_with geometry (planned_of plan) tuner.floor)
        (first_start (setup_with geometry (planned_of plan) tuner.floor))) }
    ensures room { IfOk result (λ core. HasRoomFor core (items_of rows.now)) }
{
    let room = room_for(rows);
    let flash = SimFlash::new(alloc, &geometry, plan)?;
    match Core::fresh(alloc, flash, geometry, tuner, picker, room) {
        Ok(core) => Ok(core),
        Err(back) => {
            drop(back);
            Err(NoMemory)
        }
    }
}

/// A later session, over mounted parts and their image, with room for the rows that are left.
pub fn open_next<T: Tune + Drop, E: Pick + Drop>(
    alloc: Global,
    mounted: Mounted<SimFlash>,
    base: &Image,
    geometry: &Geometry,
    tuner: Tuner<T>,
    picker: Picker<E>,
    rows: &[Row],
    event: u64,
) -> Result<Core<SimFlash, T, E>, NoMemory>
    requires geometry { IsWithinLimits geometry.now }
    requires parts { CanResume geometry.now mounted.store mounted.cache mounted.marks event }
    requires base { base.now ≡ held_content geometry.now.pages
        (nv_of mounted.cache mounted.marks) mounted.store.world.flash.cells }
    requires few { length rows.now ≤ most_rows }
    requires turns { turns_asked rows.now ≤ 4 * most_turns }
    ensures begun { IfOk result (IsBegun
        (setup_with geometry.now (told_plan mounted.store.world.flash) tuner.floor)
        (resumed_start base.now event mounted.store.world.flash)) }
    ensures room { IfOk result (λ core. (made : ℕ) → HasRoomFor core (items_from made rows.now)) }
{
    parts_known(&mounted);
    let room = room_for(rows);
    match Core::resume(alloc, mounted, base, *geometry, tuner, picker, room, event) {
        Ok(core) => Ok(core),
        Err(back) => {
            drop(back);
            Err(NoMemory)
        }
    }
}

// What the store and the flash of all mounted parts keep. For the prover alone.
fn parts_known(mounted: &Mounted<SimFlash>)
    ensures store { IsStoreSound mounted.now.store }
    ensures flash { IsSimFlashSound mounted.now.store.world.flash }
{
    mounted.store.known();
    let _ = mounted.store.flash().cut_arrive();
}
