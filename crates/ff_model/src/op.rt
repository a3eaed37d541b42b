// The calls of the simulated program, and their replies.
ghost use Rattle.std.specs.Prelude.{◌≡◌, ◌<◌, ◌^◌};
ghost use Rattle.ff_model.specs.Spans.{is_in_range, is_line_range, is_span};

use crate::Piece;
use ff_base::{LINE_BYTES, PAGE_BYTES, PAGE_LINES, PageNo};

/// A call of the simulated program. Addresses and lengths are in bytes.
#[derive(Debug, Drop, PartialEq, Eq)]
pub enum Op {
    /// Reads `len` bytes from the address `at`.
    Load { at: u32, len: u32 },
    /// Writes the bytes to the address `at`.
    Store { at: u32, bytes: Piece },
    /// Acknowledges each store that was answered before.
    Verify,
    /// Marks `count` lines of the page, from the line `from`, as persistent.
    Mark { page: PageNo, from: u32, count: u32 },
    /// Clears the marks of `count` lines of the page, from the line `from`.
    Release { page: PageNo, from: u32, count: u32 },
}

impl Op {
    /// Whether the call's bytes or lines lie in so many pages. A span of bytes lies in one line.
    pub fn is_in_range(&self, pages: u32) -> bool
        ensures { result ≡ is_in_range pages self.now }
    {
        match self {
            Op::Load { at, len } => is_span_of(pages, *at, *len as usize),
            Op::Store { at, bytes } => is_span_of(pages, *at, bytes.as_slice().len()),
            Op::Verify => true,
            Op::Mark { page, from, count } => are_lines_of(pages, *page, *from, *count),
            Op::Release { page, from, count } => are_lines_of(pages, *page, *from, *count),
        }
    }

    /// An equal call. It takes no memory.
    pub fn copy(&self) -> Op
        ensures { result ≡ self.now }
    {
        match self {
            Op::Load { at, len } => Op::Load { at: *at, len: *len },
            Op::Store { at, bytes } => Op::Store {
                at: *at,
                bytes: bytes.copy(),
            },
            Op::Verify => Op::Verify,
            Op::Mark { page, from, count } => Op::Mark {
                page: *page,
                from: *from,
                count: *count,
            },
            Op::Release { page, from, count } => Op::Release {
                page: *page,
                from: *from,
                count: *count,
            },
        }
    }
}

fn is_span_of(pages: u32, at: u32, len: usize) -> bool
    requires { len < 2 ^ 32 }
    ensures { result ≡ is_span pages at len }
{
    let at = at as usize;
    1 <= len
        && len <= LINE_BYTES
        && at % LINE_BYTES + len <= LINE_BYTES
        && at + len <= pages as usize * PAGE_BYTES
}

fn are_lines_of(pages: u32, page: PageNo, from: u32, count: u32) -> bool
    ensures { result ≡ is_line_range pages page.0 from count }
{
    page.0 < pages && 1 <= count && u64::from(from) + u64::from(count) <= PAGE_LINES as u64
}

/// The answer to a call.
#[derive(Debug, Drop, PartialEq, Eq)]
pub enum Reply {
    /// The bytes of a load.
    Bytes(Piece),
    /// The call did what it is for.
    Done,
    /// The call names bytes or lines that are out of range. It did nothing.
    Range,
    /// The session's last event number is reached. The call did nothing.
    Spent,
    /// The store is to a page that was never stored, and as many pages as the flash can hold have been. It did
    /// nothing.
    Full,
    /// An operation of the flash failed in the call's event. It did nothing.
    Fault,
}

impl Reply {
    /// An equal reply. It takes no memory.
    pub fn copy(&self) -> Reply
        ensures { result ≡ self.now }
    {
        match self {
            Reply::Bytes(bytes) => Reply::Bytes(bytes.copy()),
            Reply::Done => Reply::Done,
            Reply::Range => Reply::Range,
            Reply::Spent => Reply::Spent,
            Reply::Full => Reply::Full,
            Reply::Fault => Reply::Fault,
        }
    }
}
