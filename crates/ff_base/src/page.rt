// The bytes of one page.
ghost use Rattle.std.specs.Prelude.{◌≡◌, ◌<◌, ◌+◌, ◌*◌, IfOk, length, vec_len, List, ℕ};
ghost use Rattle.ff_base.specs.Page.{blank_page, line_of, with_line};
ghost use Rattle.ff_base.specs.declared.numbers.TheConstants.{PAGE_BYTES, PAGE_LINES};

use crate::{LINE_BYTES, NoMemory, PAGE_BYTES};
use std::alloc::Global;
use std::marker::Model;

/// The bytes of a page. A contract sees them as a list.
#[derive(Drop)]
pub struct PageBuf {
    bytes: Vec<u8>,
}

impl Model for PageBuf {
    ghost Value = { List ℕ };

    ghost view = { λ p. p.bytes.items };

    ghost invariant = { λ p. vec_len p.bytes ≡ PAGE_BYTES };
}

impl PageBuf {
    /// A page of zeros.
    #[tactic(auto, unfolding(crate::specs::Page::blank_page))]
    pub fn new(alloc: Global) -> Result<PageBuf, NoMemory>
        ensures { IfOk result (λ page. page ≡ blank_page) }
    {
        let bytes = vec![in alloc; 0; PAGE_BYTES]?;
        Ok(PageBuf { bytes })
    }

    /// The 64 bytes of a line.
    pub fn line(&self, line: u8) -> [u8; LINE_BYTES]
        requires { line < PAGE_LINES }
        ensures bytes { result ≡ line_of self.now line }
        ensures size { length self.now ≡ PAGE_BYTES }
    {
        let from = LINE_BYTES * line as usize;
        let mut bytes = [0; LINE_BYTES];
        bytes.copy_from_slice(&self.bytes[from..from + LINE_BYTES]);
        bytes
    }

    /// Replaces the 64 bytes of a line.
    pub fn set_line(&mut self, line: u8, bytes: &[u8; LINE_BYTES])
        requires { line < PAGE_LINES }
        ensures bytes { self.new ≡ with_line self.old line bytes.now }
        ensures size { length self.old ≡ PAGE_BYTES }
    {
        let from = LINE_BYTES * line as usize;
        self.bytes[from..from + LINE_BYTES].copy_from_slice(bytes);
    }

    /// A page with the same bytes.
    pub fn copy(&self, alloc: Global) -> Result<PageBuf, NoMemory>
        ensures { IfOk result (λ page. page ≡ self.now) }
    {
        let mut bytes = Vec::with_capacity(alloc, PAGE_BYTES)?;
        bytes.extend_from_slice(&self.bytes)?;
        Ok(PageBuf { bytes })
    }

    /// All bytes, in their order.
    pub fn as_slice(&self) -> &[u8]
        ensures bytes { result.now ≡ self.now }
        ensures size { length self.now ≡ PAGE_BYTES }
    {
        self.bytes.as_slice()
    }

    /// Replaces all bytes.
    pub fn copy_from(&mut self, bytes: &[u8])
        requires { length bytes.now ≡ PAGE_BYTES }
        ensures { self.new ≡ bytes.now }
    {
        self.bytes.copy_from_slice(bytes);
    }

    /// Makes every byte zero.
    #[tactic(auto, unfolding(crate::specs::Page::blank_page))]
    pub fn clear(&mut self)
        ensures { self.new ≡ blank_page }
    {
        self.bytes.fill(0);
    }
}
