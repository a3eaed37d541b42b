// What a remount finds: held pages and marked lines.
ghost use Rattle.std.specs.Prelude.{◌≡◌, ◌<◌, ◌↔◌, IfOk, OnOk, OnErr, IsTrue, IsSome, length, slice_index, vec_len};
ghost use Rattle.std.specs.Option.{option_copied};
ghost use Rattle.ff_base.specs.declared.numbers.TheConstants.{PAGE_LINES};
ghost use Rattle.ff_model.specs.Image.{byte_at, byte_in, empty_content, held_page, line_in, with_marked, with_held};

use ff_base::{LINE_BYTES, Marks, NoMemory, PAGE_BYTES, PageBuf, PageNo};
use std::alloc::Global;
use std::marker::Model;

/// What a remount finds: the held pages with their bytes, and the marked lines. A page that isn't held reads as
/// zeros.
#[derive(Drop)]
pub struct Image {
    alloc: Global,
    pages: Vec<Option<PageBuf>>,
    marks: Marks,
}

impl Model for Image {
    ghost use Rattle.std.specs.Prelude.{◌≡◌, length, vec_len};
    ghost use Rattle.ff_model.specs.Image.{Content};

    ghost Value = { Content };

    ghost view = { λ a. record { pages = a.pages.items; marks = a.marks } };

    ghost use Rattle.ff_model.specs.ImageFields.{IsKept};

    ghost invariant = { IsKept };
}

impl Image {
    /// An image of so many pages that holds none and has no mark.
    pub fn new(alloc: Global, pages: u32) -> Result<Image, NoMemory>
        ensures { IfOk result (λ image. image ≡ empty_content pages) }
    {
        let marks = Marks::new(alloc, pages)?;
        let pages = no_pages(alloc, pages)?;
        Ok(Image {
            alloc,
            pages,
            marks,
        })
    }

    /// An equal image.
    pub fn copy(&self, alloc: Global) -> Result<Image, NoMemory>
        ensures { IfOk result (λ image. image ≡ self.now) }
    {
        Ok(Image {
            alloc,
            pages: copied(alloc, &self.pages)?,
            marks: self.marks.copy(alloc)?,
        })
    }

    /// Holds a page with these bytes, in place of those that it held. Want of memory leaves the image as it was.
    pub fn put(&mut self, page: PageNo, from: &PageBuf) -> Result<(), NoMemory>
        requires { page.0 < length self.old.pages }
        ensures ok { OnOk result (self.new ≡ with_held self.old page.0 from.now) }
        ensures err { OnErr result (self.new ≡ self.old) }
    {
        let held = from.copy(self.alloc)?;
        self.pages[page.0 as usize] = Some(held);
        Ok(())
    }

    /// Marks these lines of the page, bit i for line i, and no other of it.
    pub fn set_marks(&mut self, page: PageNo, lines: u64)
        requires { page.0 < length self.old.pages }
        ensures { self.new ≡ with_marked self.old page.0 lines }
    {
        self.marks.set_lines(page, lines);
    }

    /// The marked lines of the page.
    pub fn marks(&self, page: PageNo) -> u64
        requires { page.0 < length self.now.pages }
        ensures { result ≡ slice_index self.now.marks page.0 }
    {
        self.marks.lines(page)
    }

    /// How many pages the image is for, held or not.
    pub fn pages(&self) -> u32
        ensures { result ≡ length self.now.pages }
    {
        let _alloc = &self.alloc;
        self.pages.len() as u32
    }

    /// The bytes of a page, where the image holds it.
    pub fn page(&self, page: PageNo) -> Option<&PageBuf>
        ensures { option_copied result ≡ held_page self.now page.0 }
    {
        match self.pages.get(page.0 as usize) {
            Some(page) => page.as_ref(),
            None => None,
        }
    }

    pub fn holds(&self, page: PageNo) -> bool
        requires { page.0 < length self.now.pages }
        ensures { IsTrue result ↔ IsSome (held_page self.now page.0) }
    {
        self.pages[page.0 as usize].is_some()
    }

    /// The 64 bytes of a line, zeros where the page isn't held.
    pub fn line(&self, page: PageNo, line: u8) -> [u8; LINE_BYTES]
        requires page { page.0 < length self.now.pages }
        requires line { line < PAGE_LINES }
        ensures { result ≡ line_in (held_page self.now page.0) line }
    {
        line_of(&self.pages[page.0 as usize], line)
    }

    /// The byte at an address, zero where its page isn't held or isn't one of the image's.
    pub fn byte(&self, at: u32) -> u8
        ensures { result ≡ byte_at self.now at }
    {
        match self.pages.get(at as usize / PAGE_BYTES) {
            Some(page) => byte_of(page, at as usize % PAGE_BYTES),
            None => 0,
        }
    }
}

fn no_pages(alloc: Global, pages: u32) -> Result<Vec<Option<PageBuf>>, NoMemory>
    ensures { IfOk result (λ all. all.items ≡ (empty_content pages).pages) }
{
    let mut all = Vec::with_capacity(alloc, pages as usize)?;
    for _ in 0..pages {
        all.push(None)?;
    }
    Ok(all)
}

#[tactic(auto, unfolding(ff_base::specs::Page::blank_line))]
fn line_of(page: &Option<PageBuf>, line: u8) -> [u8; LINE_BYTES]
    requires { line < PAGE_LINES }
    ensures { result ≡ line_in page.now line }
{
    match page {
        Some(page) => page.line(line),
        None => [0; LINE_BYTES],
    }
}

fn byte_of(page: &Option<PageBuf>, offset: usize) -> u8
    requires { offset < PAGE_BYTES }
    ensures { result ≡ byte_in page.now offset }
{
    match page {
        Some(page) => page.line((offset / LINE_BYTES) as u8)[offset % LINE_BYTES],
        None => 0,
    }
}

fn copied(alloc: Global, pages: &[Option<PageBuf>]) -> Result<Vec<Option<PageBuf>>, NoMemory>
    ensures items { IfOk result (λ copy. copy.items ≡ pages.now) }
    ensures len { IfOk result (λ copy. vec_len copy ≡ length pages.now) }
{
    let mut copy = Vec::with_capacity(alloc, pages.len())?;
    for page in pages {
        copy.push(copy_of(alloc, page)?)?;
    }
    Ok(copy)
}

fn copy_of(alloc: Global, page: &Option<PageBuf>) -> Result<Option<PageBuf>, NoMemory>
    ensures { IfOk result (λ copy. copy ≡ page.now) }
{
    match page {
        Some(page) => Ok(Some(page.copy(alloc)?)),
        None => Ok(None),
    }
}
