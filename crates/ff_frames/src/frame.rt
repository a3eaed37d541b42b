// One page frame.
ghost use Rattle.std.specs.Prelude.{◌≡◌, ◌+◌, ◌<◌, ◌≤◌, IfOk, length};
ghost use Rattle.ff_frames.specs.Frame.{cleaned_frame, filled_frame, free_frame, given_frame, referred_frame, taken_frame, written_frame};
ghost use Rattle.ff_base.specs.declared.numbers.TheConstants.{PAGE_BYTES, PAGE_LINES};

use ff_base::{LINE_BYTES, NoMemory, PageBuf, PageNo};
use ff_lines::{LineMask, overlay_page};
use ff_model::Piece;
use std::alloc::Global;

/// A page frame of the host memory. It is free where it holds no page.
#[derive(Drop)]
pub struct Frame {
    pub page: Option<PageNo>,
    pub bytes: PageBuf,
    /// The lines that were stored to and not copied back.
    pub dirty: LineMask,
    /// It was accessed since the flag was cleared.
    pub referred: bool,
}

impl Frame {
    pub(crate) fn new(alloc: Global) -> Result<Frame, NoMemory>
        ensures { IfOk result (λ frame. frame ≡ free_frame) }
    {
        let bytes = PageBuf::new(alloc)?;
        Ok(Frame {
            page: None,
            bytes,
            dirty: LineMask(0),
            referred: false,
        })
    }

    pub(crate) fn take(&mut self, page: PageNo)
        ensures { self.new ≡ taken_frame page self.old }
    {
        self.page = Some(page);
        self.dirty = LineMask(0);
        self.referred = false;
    }

    pub(crate) fn give(&mut self)
        ensures { self.new ≡ given_frame self.old }
    {
        self.page = None;
    }

    pub(crate) fn write(&mut self, line: u8, from: u8, piece: &Piece)
        requires line { line < PAGE_LINES }
        requires fits { from + length piece.now ≤ LINE_BYTES }
        ensures frame { self.new ≡ written_frame line from piece.now self.old }
        ensures size { length self.old.bytes ≡ PAGE_BYTES }
    {
        overlay_page(&mut self.bytes, line, from, piece);
        self.dirty.set(line);
    }

    pub(crate) fn fill(&mut self, line: u8, bytes: &[u8; LINE_BYTES])
        requires { line < PAGE_LINES }
        ensures frame { self.new ≡ filled_frame line bytes.now self.old }
        ensures size { length self.old.bytes ≡ PAGE_BYTES }
    {
        self.bytes.set_line(line, bytes);
    }

    pub(crate) fn clean(&mut self, line: u8)
        requires { line < PAGE_LINES }
        ensures { self.new ≡ cleaned_frame line self.old }
    {
        self.dirty.clear(line);
    }

    pub(crate) fn refer(&mut self, on: bool)
        ensures { self.new ≡ referred_frame on self.old }
    {
        self.referred = on;
    }
}
