//! FlatFlash: a unified memory and storage hierarchy over a simulated flash, whose answers are
//! exact.
#![tactic(auto)]

mod lines;
mod outcome;
mod refusal;
mod rules;
mod run;
mod schedule;
mod tell;
#[cfg(test)]
mod tests;
mod words;

use ff_base::NoMemory;
use ff_io::{HostSink, HostSource};
use std::env;
use std::io::ErrorKind;
use std::process::ExitCode;

fn main(rt: HostRuntime) -> ExitCode {
    match status(&rt) {
        Ok(status) => ExitCode::from(status),
        Err(NoMemory) => ExitCode::from(outcome::NO_MEMORY),
    }
}

// Runs the command over the standard streams.
fn status(rt: &HostRuntime) -> Result<u8, NoMemory> {
    let words = words_of(rt)?;
    let mut source = HostSource::new(rt.alloc(), rt.stdin())?;
    let mut sink = HostSink::new(rt.alloc(), rt.stdout())?;
    let (tuner, picker) = (rules::tuner(), rules::picker());
    let outcome = schedule::schedule(rt.alloc(), &words, &mut source, &mut sink, tuner, picker);
    Ok(outcome::status_after(sink.flush(), outcome.status))
}

// The words that the program was started with, and none where they aren't text.
fn words_of(rt: &HostRuntime) -> Result<Vec<String>, NoMemory> {
    let mut words = Vec::new(rt.alloc());
    match env::args(rt) {
        Ok(args) => {
            for word in args {
                words.push(word)?;
            }
        }
        Err(error) if error.kind() == ErrorKind::OutOfMemory => return Err(NoMemory),
        Err(_) => {}
    }
    Ok(words)
}
