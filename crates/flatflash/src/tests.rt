// Inputs with their status and text, and calls in which a read or a write fails.
mod calls;
mod collecting;
mod cuts;
mod losses;
mod losses_of_power;
mod moves;
mod ordinary_log;
mod refused;

use crate::outcome::Outcome;
use crate::rules::{picker, tuner};
use crate::schedule::schedule;
use ff_base::NoMemory;
use ff_io::{MemorySink, MemorySource};
use std::alloc::{AllocError, Global};
use std::process::Abort;
use std::test::Fail;

/// An input, the status that it ends with, and what is written.
pub type Case = (&'static str, u8, &'static str);

const FIRST: &[u8] = b"---\ncaller,op,a,b\n0,store,10,aabb\n0,store,11,cc\n0,load,10,3\n";

// The lines of the text of this input, each of which is one write.
static FIRST_LINES: [&[u8]; 12] = [
    b"session 0\n",
    b"0 0 store 10 aabb done\n",
    b"0 1 store 11 cc done\n",
    b"0 2 load 10 3 aacc00\n",
    b"turns promote 0 0 evict 0 0 collect 0 0 drain 0 0\n",
    b"lines device 3 host 0 landed 0 dropped 0\n",
    b"moves promoted 0 retreated 0\n",
    b"flash reads 0 programs 0 seals 0 erases 0 faults 0\n",
    b"kept 3\n",
    b"pages 1\n",
    b"line 0 0 00000000000000000000aacc00000000000000000000000000000000000000000000000000000000000000000000000000000000000000000000000000000000\n",
    b"end\n",
];

const USAGE_TEXT: &[u8] = b"usage: flatflash schedule, threads or load N\n";

const SINK_ROOM: usize = 4096;

fn words(alloc: Global, line: &str) -> Result<Vec<String>, AllocError> {
    let mut words = Vec::new(alloc);
    for word in line.split_whitespace() {
        words.push(String::from_str(alloc, word)?)?;
    }
    Ok(words)
}

/// A call of the program with these words on an input, in which this read fails.
fn call(
    alloc: Global,
    line: &str,
    input: &[u8],
    failing_read: u64,
    sink: &mut MemorySink,
) -> Result<Outcome, NoMemory> {
    let words = words(alloc, line)?;
    let mut source = MemorySource::new(input.to_vec(alloc)?, vec![in alloc; failing_read]?);
    let outcome = schedule(alloc, &words, &mut source, sink, tuner(), picker());
    drop(source);
    drop(words);
    Ok(outcome)
}

fn sink(alloc: Global, failing_write: u64) -> Result<MemorySink, NoMemory> {
    let fail = vec![in alloc; failing_write]?;
    MemorySink::new(alloc, SINK_ROOM, fail)
}

/// How many sessions a text tells of.
fn sessions_in(text: &str) -> usize {
    text.lines()
        .filter(|line| line.starts_with("session "))
        .count()
}

/// What a call came to: its status, how many sessions it ran, and what is written.
#[derive(Drop)]
struct Came {
    status: u8,
    sessions: usize,
    sink: MemorySink,
}

impl Came {
    fn told(&self) -> (u8, usize, &[u8]) {
        (self.status, self.sessions, self.sink.written())
    }
}

// What a call comes to in which this read and this write fail.
fn call_with(
    alloc: Global,
    line: &str,
    input: &[u8],
    failing_read: u64,
    failing_write: u64,
) -> Result<Came, NoMemory> {
    let mut sink = sink(alloc, failing_write)?;
    match call(alloc, line, input, failing_read, &mut sink) {
        Ok(outcome) => {
            let (status, sessions) = (outcome.status, outcome.sessions.len());
            drop(outcome);
            Ok(Came {
                status,
                sessions,
                sink,
            })
        }
        Err(NoMemory) => {
            drop(sink);
            Err(NoMemory)
        }
    }
}

// What a schedule of an input comes to.
fn scheduled(alloc: Global, input: &[u8]) -> Result<Came, NoMemory> {
    call_with(alloc, "flatflash schedule", input, 0, 0)
}

// Whether each input gives its status and text, and as many sessions as the text tells of.
fn check_cases(rt: &impl Abort, alloc: Global, cases: &[Case]) -> Result<(), NoMemory> {
    for (at, (input, status, text)) in cases.iter().enumerate() {
        let came = scheduled(alloc, input.as_bytes())?;
        let wanted = (*status, sessions_in(text), text.as_bytes());
        assert_eq!(rt; came.told(), wanted, "case {at}");
        drop(came);
    }
    Ok(())
}

#[test]
fn calls_are_answered_as_by_a_flat_byte_array(rt: HostRuntime) -> Result<(), Fail> {
    Ok(check_cases(&rt, rt.alloc(), &calls::CASES)?)
}

#[test]
fn pages_move_and_stay_accessible(rt: HostRuntime) -> Result<(), Fail> {
    Ok(check_cases(&rt, rt.alloc(), &moves::CASES)?)
}

#[test]
fn the_flash_is_collected_and_may_fail(rt: HostRuntime) -> Result<(), Fail> {
    Ok(check_cases(&rt, rt.alloc(), &collecting::CASES)?)
}

#[test]
fn a_loss_of_power_keeps_what_was_promised(rt: HostRuntime) -> Result<(), Fail> {
    Ok(check_cases(&rt, rt.alloc(), &losses_of_power::CASES)?)
}

#[test]
fn what_a_cut_interrupts_is_made_again(rt: HostRuntime) -> Result<(), Fail> {
    Ok(check_cases(&rt, rt.alloc(), &cuts::CASES)?)
}

#[test]
fn other_inputs_are_refused(rt: HostRuntime) -> Result<(), Fail> {
    Ok(check_cases(&rt, rt.alloc(), &refused::CASES)?)
}

#[test]
fn other_words_are_refused(rt: HostRuntime) -> Result<(), Fail> {
    for line in [
        "",
        "flatflash",
        "flatflash threads",
        "flatflash load 4294967296",
        "flatflash --help",
        "flatflash schedule more",
        "schedule flatflash",
    ] {
        let came = call_with(rt.alloc(), line, FIRST, 0, 0)?;
        assert_eq!(rt; came.told(), (1, 0, USAGE_TEXT), "{line}");
        drop(came);
    }
    Ok(())
}

/// What a run of the rows of 7 writes.
fn summary_of_7(alloc: Global) -> Result<MemorySink, NoMemory> {
    Ok(call_with(alloc, "flatflash load 7", b"", 0, 0)?.sink)
}

#[test]
fn a_number_gives_the_same_summary_twice(rt: HostRuntime) -> Result<(), Fail> {
    let first = summary_of_7(rt.alloc())?;
    let second = summary_of_7(rt.alloc())?;
    assert_eq!(rt; first.written(), second.written());
    assert!(rt;
        first
            .written()
            .starts_with(b"load 7\ncalls 20004\nturns promote 80000 ")
    );
    Ok(())
}

#[test]
fn each_failing_read_is_a_read_fault(rt: HostRuntime) -> Result<(), Fail> {
    // The first read gives the whole input and the second finds its end.
    for failing_read in 1..3 {
        let came = call_with(rt.alloc(), "flatflash schedule", FIRST, failing_read, 0)?;
        let wanted = (4, 0, b"read fault\n".as_slice());
        assert_eq!(rt; came.told(), wanted, "at read {failing_read}");
        drop(came);
    }
    Ok(())
}

// The text up to a line.
fn lines_before(alloc: Global, line: usize) -> Result<Vec<u8>, AllocError> {
    let mut text = Vec::new(alloc);
    for line in FIRST_LINES.iter().take(line) {
        text.extend_from_slice(line)?;
    }
    Ok(text)
}

// What a schedule comes to in which this write fails.
fn cut_off(alloc: Global, input: &[u8], failing_write: u64) -> Result<Came, NoMemory> {
    call_with(alloc, "flatflash schedule", input, 0, failing_write)
}

#[test]
fn each_failing_write_leaves_a_prefix(rt: HostRuntime) -> Result<(), Fail> {
    for line in 0..FIRST_LINES.len() {
        let text = lines_before(rt.alloc(), line)?;
        let came = cut_off(rt.alloc(), FIRST, line as u64 + 1)?;
        assert_eq!(rt; came.told(), (5, 1, text.as_slice()), "at line {line}");
        drop(came);
        drop(text);
    }
    let came = cut_off(rt.alloc(), b"", 1)?;
    assert_eq!(rt; came.told(), (5, 0, b"".as_slice()));
    drop(came);
    Ok(())
}

#[test]
fn each_prefix_of_an_input_runs_or_is_refused(rt: HostRuntime) -> Result<(), Fail> {
    for len in 0..=FIRST.len() {
        let came = scheduled(rt.alloc(), &FIRST[..len])?;
        let status = came.status;
        drop(came);
        assert!(rt; matches!(status, 0 | 2 | 3), "at {len} bytes");
    }
    Ok(())
}
