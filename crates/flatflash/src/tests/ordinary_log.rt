// Ordinary use as a log: a caller appends records to marked pages and verifies now and then, and the power is lost twice.
ghost use Rattle.std.specs.Prelude.{◌≤◌, length};

use super::call;
use ff_base::NoMemory;
use ff_io::MemorySink;
use ff_report::Line;
use ff_sessions::Session;
use std::alloc::{AllocError, Global};
use std::test::Fail;

const RECORDS: u32 = 200;

const DIGITS: &[u8; 16] = b"0123456789abcdef";

/// Appends text and a number.
fn put(text: &mut Vec<u8>, words: &[u8], number: u32) -> Result<(), AllocError>
    requires { length words.now ≤ 64 }
{
    let mut line = Line::new();
    line.text(words);
    line.number(number);
    text.extend_from_slice(line.as_slice())
}

/// Appends the digits of a record, whose 64 bytes are all its number.
fn put_record(text: &mut Vec<u8>, number: u32) -> Result<(), AllocError> {
    let digits = [
        DIGITS[(number / 16 % 16) as usize],
        DIGITS[(number % 16) as usize],
    ];
    for _byte in 0..64 {
        text.extend_from_slice(&digits)?;
    }
    Ok(())
}

/// The rows that append a record.
fn put_rows(input: &mut Vec<u8>, number: u32) -> Result<(), AllocError>
    requires least { 1 ≤ number }
    requires most { number ≤ 200 }
{
    put(input, b"0,store,", 64 * (number - 1))?;
    input.extend_from_slice(b",")?;
    put_record(input, number)?;
    input.extend_from_slice(b"\n")?;
    if number % 10 == 0 {
        input.extend_from_slice(b"0,verify,,\n")?;
    }
    if matches!(number, 105 | 155) {
        input.extend_from_slice(b"-,power,0,\n")?;
    }
    Ok(())
}

fn input(alloc: Global) -> Result<Vec<u8>, AllocError> {
    let mut input = b"---\ncaller,op,a,b\n0,mark,0,\n0,mark,1,\n0,mark,2,\n0,mark,3,\n".to_vec(
        alloc,
    )?;
    for number in 1..=RECORDS {
        put_rows(&mut input, number)?;
    }
    Ok(input)
}

/// The line of an image that has a record.
fn put_line(text: &mut Vec<u8>, number: u32) -> Result<(), AllocError>
    requires { 1 ≤ number }
{
    put(text, b"line ", (number - 1) / 64)?;
    put(text, b" ", (number - 1) % 64)?;
    text.extend_from_slice(b" ")?;
    put_record(text, number)?;
    text.extend_from_slice(b"\n")
}

/// The records that the images after each of the three sessions have.
fn is_kept(session: u32, number: u32) -> bool {
    match number {
        1..=101 => true,
        106..=151 => session >= 1,
        156..=200 => session >= 2,
        _ => false,
    }
}

/// The end of the text of a session, from the line of what was kept on.
fn ending(alloc: Global, session: u32, kept: u32) -> Result<Vec<u8>, AllocError>
    requires { session ≤ 2 }
{
    let mut text = Vec::new(alloc);
    put(&mut text, b"kept ", kept)?;
    put(&mut text, b"\npages ", session + 2)?;
    text.extend_from_slice(b"\nmark 0\nmark 1\nmark 2\nmark 3\n")?;
    for number in 1..=RECORDS {
        if is_kept(session, number) {
            put_line(&mut text, number)?;
        }
    }
    text.extend_from_slice(b"end\n")?;
    Ok(text)
}

/// Whether a text has another in it, which isn't empty.
fn has(text: &[u8], part: &[u8]) -> bool {
    !part.is_empty() && text.windows(part.len()).any(|window| window == part)
}

/// Whether a text has the end of the text of a session.
fn has_ending(alloc: Global, text: &[u8], session: u32, kept: u32) -> Result<bool, AllocError> {
    let ending = ending(alloc, session.min(2), kept)?;
    let has = has(text, &ending);
    drop(ending);
    Ok(has)
}

fn device_lines(sessions: &[Session], session: usize) -> Option<u64> {
    let session = sessions.get(session)?;
    Some(session.account.counts().device)
}

/// The status of the log's run, and the lines that the device served in each of its three sessions, behind which there is
/// none.
fn run(alloc: Global, sink: &mut MemorySink) -> Result<(u8, [Option<u64>; 4]), NoMemory> {
    let input = input(alloc)?;
    let outcome = call(alloc, "flatflash schedule", &input, 0, sink)?;
    let sessions = outcome.sessions.as_slice();
    let lines = [
        device_lines(sessions, 0),
        device_lines(sessions, 1),
        device_lines(sessions, 2),
        device_lines(sessions, 3),
    ];
    let status = outcome.status;
    drop(outcome);
    drop(input);
    Ok((status, lines))
}

#[test]
fn a_log_finds_its_records_after_two_losses_of_power(rt: HostRuntime) -> Result<(), Fail> {
    let alloc = rt.alloc();
    let mut sink = MemorySink::new(alloc, 200_000, Vec::new(alloc))?;
    let lines = [Some(105), Some(50), Some(45), None];
    assert_eq!(rt; run(alloc, &mut sink)?, (0, lines));
    for (session, kept) in [(0, 115), (1, 51), (2, 50)] {
        let found = has_ending(alloc, sink.written(), session, kept)?;
        assert!(rt; found, "session {session}");
    }
    Ok(())
}
