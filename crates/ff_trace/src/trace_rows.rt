// The records of a trace, from the header to the last row.
ghost use Rattle.std.specs.Prelude.{◌≡◌, ◌≤◌, ◌++◌, ◌∷◌, [], IfOk, IfErr, IfSome, OnOk, Some, vec_len};
ghost use Rattle.csv.specs.Records.{fields_of};
ghost use Rattle.ff_trace.specs.Fields.{row_of};
ghost use Rattle.ff_trace.specs.Reading.{HasRead, HasReadNothing, IsOfText, IsSetForTrace, ReadsOne};
ghost use Rattle.ff_trace.specs.declared.trace_rows.BadTrace.TheVariants as bad;
ghost use Rattle.ff_trace.specs.Tally.{most_rows, with_row};
ghost use Rattle.ff_trace.specs.Trace.{IsTrace, IsCauseOf, if_fits};

use crate::Row;
use crate::row::{is_header, row_from};
use crate::tally::{Limits, MAX_ROWS, Tally};
use csv::{ByteRecord, ErrorKind, Reader, ReaderBuilder};
use std::alloc::Global;

/// The bytes of the shortest row, `0,mark,0,`, and of the end of its line.
const LEAST_ROW_BYTES: usize = 10;

/// Why a trace was refused.
#[derive(Clone, Copy, Debug, PartialEq, Eq)]
pub enum BadTrace {
    NoMemory,
    /// The number of the first record that isn't one of the forms. The header is record 0. Records
    /// are counted, and not lines of the text.
    Row(u32),
}

/// Reads the rows of a trace that is run under settings with so many cuts, by one thread or by a thread for each
/// caller. `csv` says what a record is.
pub fn trace(alloc: Global, bytes: &[u8], cuts: u32, threads: bool) -> Result<Vec<Row>, BadTrace>
    ensures rows { IfOk result (λ rows.
        IsTrace (record { cuts = cuts; threads = threads }) bytes.now rows.items) }
    ensures few { IfOk result (λ rows. vec_len rows ≤ most_rows) }
    ensures cause { IfErr result (IsCauseOf (record { cuts = cuts; threads = threads }) bytes.now) }
{
    let limits = Limits { cuts, threads };
    let mut rows = make_rows(alloc, bytes)?;
    let mut reader = reader(alloc, bytes);
    let mut fields = ByteRecord::new(alloc);
    let read = read_rows(&mut reader, &mut fields, limits, &mut rows);
    drop(reader);
    drop(fields);
    match read {
        Ok(()) => Ok(rows),
        Err(cause) => {
            drop(rows);
            Err(cause)
        }
    }
}

/// Reads the header and then the rows, up to the end of the text.
fn read_rows(
    reader: &mut Reader<&[u8]>,
    fields: &mut ByteRecord,
    limits: Limits,
    rows: &mut Vec<Row>,
) -> Result<(), BadTrace>
    requires reader { HasReadNothing reader.old }
    requires none { rows.old.items ≡ [] }
    ensures rows { OnOk result
        (IsOfText reader.old (λ bytes. IsTrace limits bytes rows.new.items)) }
    ensures few { OnOk result (vec_len rows.new ≤ most_rows) }
    ensures cause { IfErr result (λ cause.
        IsOfText reader.old (λ bytes. IsCauseOf limits bytes cause)) }
{
    if !read(reader, fields)? {
        return Err(BadTrace::Row(0));
    }
    if !is_header(fields) {
        return Err(BadTrace::Row(0));
    }
    let mut tally = Tally::new();
    for number in 1..=MAX_ROWS + 1 {
        if !read(reader, fields)? {
            return Ok(());
        }
        let Some(row) = next_row(&mut tally, limits, fields) else {
            return Err(BadTrace::Row(number));
        };
        push(rows, row)?;
    }
    unreachable!()
}

/// The row that a record is, if it fits behind those that were counted. It is counted too.
fn next_row(tally: &mut Tally, limits: Limits, fields: &ByteRecord) -> Option<Row>
    ensures row { result ≡ if_fits limits tally.old (row_of (fields_of fields.now)) }
    ensures counted { IfSome result (λ row. tally.new ≡ with_row tally.old row) }
{
    count_row(tally, limits, row_from(fields)?)
}

fn count_row(tally: &mut Tally, limits: Limits, row: Row) -> Option<Row>
    ensures row { result ≡ if_fits limits tally.old (Some row) }
    ensures counted { IfSome result (λ row. tally.new ≡ with_row tally.old row) }
{
    if !tally.fits(limits, &row) {
        return None;
    }
    tally.add(limits, &row);
    Some(row)
}

fn reader(alloc: Global, bytes: &[u8]) -> Reader<&[u8]>
    ensures { HasRead bytes.now [] result }
{
    ReaderBuilder::new()
        .has_headers(false)
        .flexible(true)
        .from_reader(alloc, bytes)
}

/// No rows, with room for as many as the text may have. Room that isn't used takes no memory.
fn make_rows(alloc: Global, bytes: &[u8]) -> Result<Vec<Row>, BadTrace>
    ensures empty { IfOk result (λ rows. rows.items ≡ []) }
    ensures cause { IfErr result (λ cause. cause ≡ bad.NoMemory) }
{
    let most = (bytes.len() / LEAST_ROW_BYTES + 1).min(MAX_ROWS as usize);
    match Vec::with_capacity(alloc, most) {
        Ok(rows) => Ok(rows),
        Err(_) => Err(BadTrace::NoMemory),
    }
}

/// The next record into `fields`, and whether there was one. A slice doesn't fail, so an error is
/// want of memory.
#[tactic(auto, using(crate::proofs::OneRead::one_read))]
fn read(reader: &mut Reader<&[u8]>, fields: &mut ByteRecord) -> Result<bool, BadTrace>
    requires { IsSetForTrace reader.old }
    ensures reads { IfOk result (λ found.
        ReadsOne reader.old reader.new found (fields_of fields.new)) }
    ensures cause { IfErr result (λ cause. cause ≡ bad.NoMemory) }
{
    match reader.read_byte_record(fields) {
        Ok(found) => Ok(found),
        Err(error) => match error.kind() {
            ErrorKind::Io(_) | ErrorKind::OutOfMemory => Err(BadTrace::NoMemory),
            _ => unreachable!(),
        },
    }
}

fn push(rows: &mut Vec<Row>, row: Row) -> Result<(), BadTrace>
    ensures pushed { OnOk result (rows.new.items ≡ rows.old.items ++ row ∷ []) }
    ensures cause { IfErr result (λ cause. cause ≡ bad.NoMemory) }
{
    match rows.push(row) {
        Ok(()) => Ok(()),
        Err(_) => Err(BadTrace::NoMemory),
    }
}
