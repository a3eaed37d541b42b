// The top call of the commands `schedule` and `load`.
ghost use Rattle.std.specs.Prelude.{map};
ghost use Rattle.std.specs.String.{string_bytes};
ghost use Rattle.ff_input.specs.Input.{source_change};
ghost use Rattle.flatflash.specs.Ending.{EndsAndTells, IsEnd, IsInputEnd, IsLoadEnd, sink_change};

use crate::outcome::Outcome;
use crate::refusal::Refusal;
use crate::run::{run_generated, run_input};
use crate::tell::{tell_refusal, tell_sessions, tell_summary};
use crate::words::{Task, asked_of};
use ff_base::NoMemory;
use ff_evict::{Pick, Picker};
use ff_io::{Sink, Source};
use ff_policy::{Tune, Tuner};
use std::alloc::Global;

/// Runs the trace that the source gives, or the one that a number makes, writes the texts of its
/// sessions or of the refusal, and answers both. The words are the program's name and its arguments.
/// The tuner sets the threshold at which a page is hot, and the picker scores the frames whose pages
/// may go back.
///
/// The first session starts from nothing and each later one from the image of the one before. The
/// replies of each are those of a flat byte array, and the calls and turns of all are the rows of the
/// trace in their order. After each loss of power the persistent lines of the image read as after
/// one prefix of the session's history, which has every acknowledged store. What each status means,
/// and when it comes, is in `docs/FORMATS.md`.
#[tactic(auto, using(crate::proofs::Ended::ended_scheduled, crate::proofs::Ended::ended_loaded, crate::proofs::Ended::ended_refused))]
pub fn schedule<S: Source, K: Sink, T: Tune + Drop, E: Pick + Drop>(
    alloc: Global,
    words: &[String],
    source: &mut S,
    sink: &mut K,
    tuner: Tuner<T>,
    picker: Picker<E>,
) -> Outcome
    ensures { EndsAndTells
        (IsEnd tuner.floor (map string_bytes words.now)
        (source_change S.left S.faults source.old source.new))
        (sink_change K.written K.faults sink.old sink.new)
        result.status result.sessions.items }
{
    match asked_of(alloc, words) {
        Ok(Task::Schedule) => schedule_input(alloc, source, sink, tuner, picker),
        Ok(Task::Load(number)) => load(alloc, number, sink, tuner, picker),
        Err(refusal) => tell_refusal(alloc, sink, refusal),
    }
}

fn schedule_input<S: Source, K: Sink, T: Tune + Drop, E: Pick + Drop>(
    alloc: Global,
    source: &mut S,
    sink: &mut K,
    tuner: Tuner<T>,
    picker: Picker<E>,
) -> Outcome
    ensures { EndsAndTells
        (IsInputEnd tuner.floor (source_change S.left S.faults source.old source.new))
        (sink_change K.written K.faults sink.old sink.new)
        result.status result.sessions.items }
{
    match run_input(alloc, source, tuner, picker) {
        Ok(sessions) => tell_sessions(sink, sessions),
        Err(refusal) => tell_refusal(alloc, sink, refusal),
    }
}

fn load<K: Sink, T: Tune + Drop, E: Pick + Drop>(
    alloc: Global,
    number: u32,
    sink: &mut K,
    tuner: Tuner<T>,
    picker: Picker<E>,
) -> Outcome
    ensures { EndsAndTells (IsLoadEnd tuner.floor number)
        (sink_change K.written K.faults sink.old sink.new)
        result.status result.sessions.items }
{
    match run_generated(alloc, number, tuner, picker) {
        Ok(sessions) => tell_summary(sink, number, sessions),
        Err(NoMemory) => tell_refusal(alloc, sink, Refusal::NoMemory),
    }
}
