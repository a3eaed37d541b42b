// A slot of the cache.
ghost use Rattle.std.specs.Prelude.{◌≡◌, ◌<◌, ◌≤◌, ◌+◌, IfOk, length};
ghost use Rattle.ff_base.specs.declared.numbers.TheConstants.{LINE_BYTES, PAGE_LINES};
ghost use Rattle.ff_cache.specs.Slots.{empty_slot, holds, is_empty, slot_filled, slot_flushed, slot_flushing, slot_pinned, slot_written};

use ff_base::{NoMemory, PageBuf, PageNo};
use ff_lines::overlay_page;
use ff_model::Piece;
use std::alloc::Global;

/// A slot of the cache, which holds a page or is empty.
#[derive(Drop)]
pub struct CacheSlot {
    /// The page that is held.
    pub page: Option<PageNo>,
    /// The bytes aren't those of the flash yet.
    pub dirty: bool,
    /// A piece was written since the bytes were last programmed.
    pub touched: bool,
    /// The page is not to give way.
    pub pinned: bool,
    pub bytes: PageBuf,
}

impl CacheSlot {
    pub fn empty(alloc: Global) -> Result<CacheSlot, NoMemory>
        ensures { IfOk result (λ slot. slot ≡ empty_slot) }
    {
        let bytes = PageBuf::new(alloc)?;
        Ok(CacheSlot {
            page: None,
            dirty: false,
            touched: false,
            pinned: false,
            bytes,
        })
    }

    pub fn holds(&self, page: PageNo) -> bool
        ensures { result ≡ holds self.now page.0 }
    {
        match self.page {
            Some(held) => held.0 == page.0,
            None => false,
        }
    }

    pub fn is_empty(&self) -> bool
        ensures { result ≡ is_empty self.now }
    {
        self.page.is_none()
    }

    pub fn write(&mut self, line: u8, from: u8, piece: &Piece)
        requires line { line < PAGE_LINES }
        requires span { from + length piece.now ≤ LINE_BYTES }
        ensures { self.new ≡ slot_written self.old line from piece.now }
    {
        overlay_page(&mut self.bytes, line, from, piece);
        self.dirty = true;
        self.touched = true;
    }

    pub fn fill(&mut self, page: PageNo, from: &PageBuf)
        ensures { self.new ≡ slot_filled page.0 from.now }
    {
        self.bytes.copy_from(from.as_slice());
        self.page = Some(page);
        self.dirty = false;
        self.touched = false;
        self.pinned = false;
    }

    pub fn begin_flush(&mut self)
        ensures { self.new ≡ slot_flushing self.old }
    {
        self.touched = false;
    }

    pub fn end_flush(&mut self)
        ensures { self.new ≡ slot_flushed self.old }
    {
        self.dirty = self.touched;
    }

    pub fn pin(&mut self, on: bool)
        ensures { self.new ≡ slot_pinned on self.old }
    {
        self.pinned = on;
    }
}
