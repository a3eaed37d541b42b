// The bytes of an input, and its parts.
ghost use Rattle.std.specs.Prelude.{◌≡◌, ◌≤◌, ◌<◌, ◌+◌, [], length, vec_capacity, vec_len, IfOk, IfErr, MatchOption, OnOk};
ghost use Rattle.std.specs.Option.{option_copied};
ghost use Rattle.ff_input.specs.Input.{IsReadCause, IsSplit, IsUnsplit, ReadsWhole, begins_line, behind_separator, chunk_size, input_limit, source_change};
ghost use Rattle.ff_input.specs.declared.input_bytes.ReadStop.TheVariants as read_stop;

use ff_base::append_reserved;
use ff_io::{Failed, Source};
use std::alloc::Global;

/// The most bytes of an input.
pub const INPUT_LIMIT: usize = 1 << 26;

/// The most bytes of one read.
const CHUNK_BYTES: usize = 1 << 16;

/// Why the bytes of an input can't be had.
#[derive(Clone, Copy)]
pub enum ReadStop {
    NoMemory,
    /// A read of the source failed.
    Fault,
    /// There are more than `INPUT_LIMIT` bytes.
    TooLong,
}

/// Reads the whole input. Each read but the last gives a byte, so there are at most
/// `INPUT_LIMIT + 1` of them. Room for all is reserved once, and takes memory as it is used.
pub fn read_all<S: Source>(alloc: Global, source: &mut S) -> Result<Vec<u8>, ReadStop>
    ensures ok { IfOk result (λ bytes.
        ReadsWhole (source_change S.left S.faults source.old source.new)
        (λ input. input ≡ bytes.items)) }
    ensures err { IfErr result
        (IsReadCause (source_change S.left S.faults source.old source.new)) }
{
    let mut chunk = make_chunk(alloc)?;
    let mut bytes = make_room(alloc)?;
    let read = read_into(source, &mut chunk, &mut bytes);
    drop(chunk);
    match read {
        Ok(()) => Ok(bytes),
        Err(stop) => {
            drop(bytes);
            Err(stop)
        }
    }
}

// Reads a source to its end, a chunk a read, into room that is reserved.
fn read_into<S: Source>(
    source: &mut S,
    chunk: &mut [u8],
    bytes: &mut Vec<u8>,
) -> Result<(), ReadStop>
    requires chunk { length chunk.old ≡ chunk_size }
    requires empty { bytes.old.items ≡ [] }
    requires room { input_limit + chunk_size ≤ vec_capacity bytes.old }
    ensures ok { OnOk result
        (ReadsWhole (source_change S.left S.faults source.old source.new)
        (λ input. input ≡ bytes.new.items)) }
    ensures err { IfErr result
        (IsReadCause (source_change S.left S.faults source.old source.new)) }
{
    for _ in 0..INPUT_LIMIT + 1 {
        let count = match source.read(chunk) {
            Ok(0) => return Ok(()),
            Ok(count) => count,
            Err(Failed) => return Err(ReadStop::Fault),
        };
        append_reserved(bytes, &chunk[..count]);
        if bytes.len() > INPUT_LIMIT {
            return Err(ReadStop::TooLong);
        }
    }
    unreachable!()
}

fn make_chunk(alloc: Global) -> Result<Vec<u8>, ReadStop>
    ensures ok { IfOk result (λ chunk. vec_len chunk ≡ chunk_size) }
    ensures err { IfErr result (λ why. why ≡ read_stop.NoMemory) }
{
    match vec![in alloc; 0; CHUNK_BYTES] {
        Ok(chunk) => Ok(chunk),
        Err(_) => Err(ReadStop::NoMemory),
    }
}

fn make_room(alloc: Global) -> Result<Vec<u8>, ReadStop>
    ensures empty { IfOk result (λ bytes. bytes.items ≡ []) }
    ensures room { IfOk result (λ bytes. input_limit + chunk_size ≤ vec_capacity bytes) }
    ensures err { IfErr result (λ why. why ≡ read_stop.NoMemory) }
{
    match Vec::with_capacity(alloc, INPUT_LIMIT + CHUNK_BYTES) {
        Ok(bytes) => Ok(bytes),
        Err(_) => Err(ReadStop::NoMemory),
    }
}

/// The parts of an input: its settings and its trace.
#[derive(Clone, Copy)]
pub struct InputParts<'a> {
    pub settings: &'a [u8],
    pub trace: &'a [u8],
}

/// The parts of an input, between which there is the first line that is exactly `---`.
pub fn parts_of(input: &[u8]) -> Option<InputParts<'_>>
    ensures { MatchOption result (IsUnsplit input.now)
        (λ parts. IsSplit input.now parts.settings.now parts.trace.now) }
{
    for at in 0..input.len() {
        if let Some(trace) = behind_separator(input, at) {
            return Some(InputParts {
                settings: &input[..at],
                trace,
            });
        }
    }
    None
}

// What is behind the separator that begins at an offset, where one does.
fn behind_separator(input: &[u8], at: usize) -> Option<&[u8]>
    requires { at < length input.now }
    ensures { option_copied result ≡ behind_separator input.now at }
{
    if !begins_line(input, at) {
        return None;
    }
    let rest = &input[at..];
    rest.strip_prefix(b"---\n")
        .or_else(|| rest.strip_prefix(b"---\r\n"))
}

fn begins_line(input: &[u8], at: usize) -> bool
    requires { at < length input.now }
    ensures { result ≡ begins_line input.now at }
{
    at == 0 || input[at - 1] == b'\n'
}
