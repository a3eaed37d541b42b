// A trace in which the power is cut, or the flash fails, at each operation in turn.
ghost use Rattle.std.specs.Prelude.{◌<◌};

use super::{call, sink};
use crate::outcome::Outcome;
use ff_base::{NoMemory, PageNo};
use ff_flash::Flash;
use ff_model::{Entry, History, Image, first_illegal, flat_byte};
use ff_report::Line;
use ff_sessions::Session;
use std::alloc::Global;
use std::test::Fail;

const SIZES: &[u8] = b"blocks = 4\nper_block = 2\nways = 1\n";

const ROWS: &[u8] = b"---\n\
    caller,op,a,b\n\
    0,mark,0,\n\
    0,mark,1,0+2\n\
    0,store,0,a0\n\
    0,store,4096,a1\n\
    0,verify,,\n\
    0,store,8192,a2\n\
    0,store,12288,a3\n\
    0,store,16384,a4\n\
    0,mark,4,0+1\n\
    0,store,0,b0\n\
    0,store,4096,b1\n\
    0,store,4160,c1\n\
    0,verify,,\n\
    0,store,8192,b2\n\
    0,store,16384,b4\n\
    0,load,8192,1\n";

/// The outcome of the rows, with one more line of settings.
fn outcome_of(alloc: Global, setting: &Line) -> Result<Outcome, NoMemory> {
    let mut input = SIZES.to_vec(alloc)?;
    input.extend_from_slice(setting.as_slice())?;
    input.extend_from_slice(ROWS)?;
    let mut sink = sink(alloc, 0)?;
    let outcome = call(alloc, "flatflash schedule", &input, 0, &mut sink);
    drop(sink);
    drop(input);
    outcome
}

fn cut_at(number: u32, mask: u32) -> Line {
    let mut line = Line::new();
    line.text(b"cut = [{at = ");
    line.number(number);
    line.text(b", mask = ");
    line.number(mask);
    line.text(b", arrive = 1}]\n");
    line
}

fn failure_at(number: u32) -> Line {
    let mut line = Line::new();
    line.text(b"fail = [");
    line.number(number);
    line.text(b"]\n");
    line
}

/// The first entries of a history.
fn prefix(alloc: Global, history: &History, count: u32) -> Result<History, NoMemory> {
    let mut first = History::new(alloc, count)?;
    for entry in history.as_slice() {
        if first.spare() > 0 {
            first.push(Entry {
                event: entry.event,
                caller: entry.caller,
                number: entry.number,
                op: entry.op.copy(),
                reply: entry.reply.copy(),
                faults: entry.faults,
            });
        }
    }
    Ok(first)
}

/// Whether a line of the image reads as after these entries.
fn line_reads_after(image: &Image, base: &Image, entries: &History, page: u32, line: u32) -> bool
    requires page { page < 16 }
    requires line { line < 64 }
{
    for byte in 0..64 {
        let at = page * 4096 + line * 64 + byte;
        if image.byte(at) != flat_byte(base, entries, at) {
            return false;
        }
    }
    true
}

/// Whether each marked line of a page reads as after these entries.
fn page_reads_after(image: &Image, base: &Image, entries: &History, page: u32) -> bool
    requires { page < 16 }
{
    if page >= image.pages() {
        return false;
    }
    let marks = image.marks(PageNo(page));
    for line in 0..64 {
        let marked = marks >> line & 1 == 1;
        if marked && !line_reads_after(image, base, entries, page, line) {
            return false;
        }
    }
    true
}

/// Whether each marked line of the image reads as after the entries that were kept.
fn keeps_marked(alloc: Global, session: &Session, image: &Image) -> Result<bool, NoMemory> {
    let kept = prefix(alloc, session.account.history(), session.account.kept())?;
    for page in 0..16 {
        if !page_reads_after(image, &session.base, &kept, page) {
            return Ok(false);
        }
    }
    Ok(true)
}

/// Whether a session is legal that began with so many faults.
fn is_legal(session: &Session, faults: u64) -> bool {
    let account = &session.account;
    let geometry = account.geometry();
    if geometry.check().is_err() {
        return false;
    }
    let history = account.history();
    first_illegal(
        &session.base,
        history,
        geometry,
        account.from_event(),
        faults,
    )
    .is_none()
}

/// Whether the sessions are legal, and what their images have marked is what was kept.
fn are_good(alloc: Global, sessions: &[Session]) -> Result<bool, NoMemory> {
    let mut faults = 0;
    for session in sessions {
        if !is_legal(session, faults) {
            return Ok(false);
        }
        if let Some(image) = &session.image {
            if !keeps_marked(alloc, session, image)? {
                return Ok(false);
            }
        }
        faults = session.flash.fault_count();
    }
    Ok(true)
}

/// Whether the rows run to an end that may be, with one more line of settings.
fn runs_well(alloc: Global, setting: &Line) -> Result<bool, NoMemory> {
    let outcome = outcome_of(alloc, setting)?;
    let ends = matches!(outcome.status, 0 | 7);
    let good = are_good(alloc, &outcome.sessions);
    drop(outcome);
    Ok(ends && good?)
}

#[test]
fn a_cut_in_each_operation_keeps_what_was_promised(rt: HostRuntime) -> Result<(), Fail> {
    for number in 1..41 {
        for mask in [0, 1, 3] {
            let is_well = runs_well(rt.alloc(), &cut_at(number, mask))?;
            assert!(rt; is_well, "cut at {number} with mask {mask}");
        }
    }
    Ok(())
}

#[test]
fn a_fault_of_each_operation_keeps_what_was_promised(rt: HostRuntime) -> Result<(), Fail> {
    for number in 1..41 {
        let is_well = runs_well(rt.alloc(), &failure_at(number))?;
        assert!(rt; is_well, "fault at {number}");
    }
    Ok(())
}
