// Runs one session: its rows, up to the loss of power that ends it.
ghost use Rattle.std.specs.Prelude.{◌≡◌, ◌≤◌, All, length};
ghost use Rattle.ff_core.specs.Account.{start_of};
ghost use Rattle.ff_flash.specs.SimFlash.{IsSimFlashSound};
ghost use Rattle.ff_trace.specs.Within.{IsOfCaller};
ghost use Rattle.ff_sessions.specs.Begun.{IsBegun, IsRun, setup_in};
ghost use Rattle.ff_sessions.specs.Making.{HasRoomFor};
ghost use Rattle.ff_sessions.specs.Sessions.{arrive_by};
ghost use Rattle.ff_sessions.specs.Stops.{ending_of, items_at};

use crate::rows::make_rows;
use crate::stop::{Cursor, Stop};
use ff_base::Geometry;
use ff_core::{Core, Lost};
use ff_evict::Pick;
use ff_flash::SimFlash;
use ff_policy::Tune;
use ff_trace::Row;

/// What a session left, and where its rows stopped.
#[derive(Drop)]
pub struct Ran<T: Tune, E: Pick> {
    pub lost: Lost<SimFlash, T, E>,
    pub stop: Stop,
}

// How many of the waiting posts arrive at a stop: after a cut what the plan says, and at the end of the rows all.
fn arrival(stop: Stop, flash: &SimFlash, geometry: &Geometry) -> u32
    ensures arrive { result ≡ arrive_by geometry.now (ending_of stop flash.now) }
    ensures known { IsSimFlashSound flash.now }
{
    let after_cut = flash.cut_arrive();
    match stop {
        Stop::Cut(_) => after_cut.unwrap_or(0),
        Stop::Power { arrive, .. } => arrive,
        Stop::End => geometry.window,
    }
}

/// Makes the rows from a cursor on, up to a loss of power, and ends the session by that.
pub fn run_session<T: Tune + Drop, E: Pick + Drop>(
    core: Core<SimFlash, T, E>,
    rows: &[Row],
    at: Cursor,
) -> Ran<T, E>
    requires callers { All IsOfCaller rows.now }
    requires cursor { at.row ≤ length rows.now }
    requires begun { IsBegun (setup_in core) (start_of core) core }
    requires room { HasRoomFor core (items_at rows.now at) }
    ensures { IsRun (setup_in core) (start_of core) rows.now at result.stop result.lost }
{
    let mut core = core;
    let stop = make_rows(&mut core, rows, at);
    let arrive = arrival(stop, core.flash(), core.geometry());
    Ran {
        lost: core.power(arrive),
        stop,
    }
}
