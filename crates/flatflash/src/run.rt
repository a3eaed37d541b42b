// A run: the sessions that answer the rows of an input or of a number.
ghost use Rattle.std.specs.Prelude.{◌≤◌, vec_len, IfOk, IfErr};
ghost use Rattle.ff_gen.specs.Generated.{generated};
ghost use Rattle.ff_input.specs.Input.{source_change};
ghost use Rattle.ff_sessions.specs.Sessions.{AreSessionsOf};
ghost use Rattle.flatflash.specs.Ending.{IsRunRefusal, RunsInput};
ghost use Rattle.flatflash.specs.Loads.{load_setup};

use crate::refusal::Refusal;
use ff_base::{Geometry, NoMemory};
use ff_evict::{Pick, Picker};
use ff_flash::Plan;
use ff_gen::generate;
use ff_input::read_asked;
use ff_io::Source;
use ff_policy::{Tune, Tuner};
use ff_sessions::{Session, run};
use std::alloc::Global;

/// The sizes of the run of a generated trace.
const LOAD_GEOMETRY: Geometry = Geometry {
    blocks: 32,
    per_block: 16,
    pages: 256,
    sets: 8,
    ways: 2,
    frames: 16,
    plb: 4,
    window: 16,
    low: 2,
};

/// Runs the trace of an input.
pub fn run_input<S: Source, T: Tune + Drop, E: Pick + Drop>(
    alloc: Global,
    source: &mut S,
    tuner: Tuner<T>,
    picker: Picker<E>,
) -> Result<Vec<Session>, Refusal>
    ensures ok { IfOk result (λ sessions. RunsInput tuner.floor
        (source_change S.left S.faults source.old source.new) sessions.items) }
    ensures few { IfOk result (λ sessions. vec_len sessions ≤ 17) }
    ensures err { IfErr result (IsRunRefusal
        (source_change S.left S.faults source.old source.new)) }
{
    let asked = match read_asked(alloc, source) {
        Ok(asked) => asked,
        Err(why) => return Err(Refusal::Input(why)),
    };
    let settings = asked.settings;
    Ok(run(
        alloc,
        settings.geometry,
        settings.plan,
        tuner,
        picker,
        &asked.rows,
    )?)
}

/// Runs the trace that a number makes.
pub fn run_generated<T: Tune + Drop, E: Pick + Drop>(
    alloc: Global,
    number: u32,
    tuner: Tuner<T>,
    picker: Picker<E>,
) -> Result<Vec<Session>, NoMemory>
    ensures { IfOk result (λ sessions.
        AreSessionsOf (load_setup tuner.floor) (generated number) sessions.items) }
{
    let rows = generate(alloc, number)?;
    let plan = Plan {
        fail: Vec::new(alloc),
        cuts: Vec::new(alloc),
    };
    run(alloc, LOAD_GEOMETRY, plan, tuner, picker, &rows)
}
