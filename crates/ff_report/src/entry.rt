// Spells the line of an answered call.
ghost use Rattle.std.specs.Prelude.{◌≡◌, ◌≤◌, ◌+◌, ◌++◌, length};
ghost use Rattle.ff_model.specs.declared.op.Op.TheVariants.{Load, Store};
ghost use Rattle.ff_report.specs.EntryText.{entry_line, op_text, range_text, reply_text};

use crate::line::{LINE_ROOM, Line};
use ff_base::{PAGE_LINES, PageNo};
use ff_model::{Entry, Op, Piece, Reply};

const OP_ROOM: usize = 145;

const RANGE_ROOM: usize = 32;

const REPLY_ROOM: usize = 128;

/// The line of an entry.
#[tactic(auto, unfolding(crate::specs::EntryText::entry_line))]
pub fn entry_line_of(entry: &Entry) -> Line
    ensures { result ≡ entry_line entry.now }
{
    let mut line = Line::new();
    line.number(u32::from(entry.caller.0));
    line.text(b" ");
    line.number(entry.number);
    line.text(b" ");
    append_op(&mut line, &entry.op);
    line.text(b" ");
    append_reply(&mut line, &entry.reply);
    line.text(b"\n");
    line
}

fn append_op(line: &mut Line, op: &Op)
    requires { length line.old + OP_ROOM ≤ LINE_ROOM }
    ensures text { line.new ≡ line.old ++ op_text op.now }
    ensures size { length line.new ≤ length line.old + OP_ROOM }
{
    match op {
        Op::Load { at, len } => append_load(line, *at, *len),
        Op::Store { at, bytes } => append_store(line, *at, bytes),
        Op::Verify => line.text(b"verify"),
        Op::Mark { page, from, count } => {
            line.text(b"mark ");
            append_range(line, *page, *from, *count);
        }
        Op::Release { page, from, count } => {
            line.text(b"release ");
            append_range(line, *page, *from, *count);
        }
    }
}

fn append_load(line: &mut Line, at: u32, len: u32)
    requires { length line.old + OP_ROOM ≤ LINE_ROOM }
    ensures text { line.new ≡ line.old ++ op_text (Load at len) }
    ensures size { length line.new ≤ length line.old + OP_ROOM }
{
    line.text(b"load ");
    line.number(at);
    line.text(b" ");
    line.number(len);
}

fn append_store(line: &mut Line, at: u32, bytes: &Piece)
    requires { length line.old + OP_ROOM ≤ LINE_ROOM }
    ensures text { line.new ≡ line.old ++ op_text (Store at bytes.now) }
    ensures size { length line.new ≤ length line.old + OP_ROOM }
{
    line.text(b"store ");
    line.number(at);
    line.text(b" ");
    line.bytes(bytes.as_slice());
}

fn append_range(line: &mut Line, page: PageNo, from: u32, count: u32)
    requires { length line.old + RANGE_ROOM ≤ LINE_ROOM }
    ensures text { line.new ≡ line.old ++ range_text page.0 from count }
    ensures size { length line.new ≤ length line.old + RANGE_ROOM }
{
    line.number(page.0);
    if from == 0 && count as usize == PAGE_LINES {
        return;
    }
    line.text(b" ");
    line.number(from);
    line.text(b"+");
    line.number(count);
}

fn append_reply(line: &mut Line, reply: &Reply)
    requires { length line.old + REPLY_ROOM ≤ LINE_ROOM }
    ensures text { line.new ≡ line.old ++ reply_text reply.now }
    ensures size { length line.new ≤ length line.old + REPLY_ROOM }
{
    match reply {
        Reply::Bytes(bytes) => line.bytes(bytes.as_slice()),
        Reply::Done => line.text(b"done"),
        Reply::Range => line.text(b"range"),
        Reply::Spent => line.text(b"spent"),
        Reply::Full => line.text(b"full"),
        Reply::Fault => line.text(b"fault"),
    }
}
