// Pages in memory, and the one post that waits for them.
ghost use Rattle.std.specs.Prelude.{◌≡◌, ◌<◌, ◌≤◌, ◌+◌, IfOk, length, slice_set};
ghost use Rattle.ff_base.specs.declared.numbers.TheConstants.{PAGE_LINES};
ghost use Rattle.ff_lines.specs.BlankLine.{line_or_blank};
ghost use Rattle.ff_plain.specs.Plain.{after_post, drained_view, fresh_page, fresh_view, page_at, pinned_page, state_of, written_page, IsPlainSound};

use ff_base::{LINE_BYTES, NoMemory, PageBuf, PageNo};
use ff_lines::{LineDevice, Post, Work, overlay_page};
use ff_model::Piece;
use std::alloc::Global;
use std::marker::Model;

/// A page of a plain device.
#[derive(Drop)]
pub struct PlainPage {
    pub bytes: PageBuf,
    pub pinned: bool,
    /// Something was posted to the page.
    pub written: bool,
}

/// A device of pages in memory, every one resident, that never fails. One post waits at most. A contract sees the
/// pages as a list.
#[derive(Drop)]
pub struct Plain {
    pages: Vec<PlainPage>,
    post: Option<Post>,
}

impl Model for Plain {
    ghost use Rattle.ff_plain.specs.Plain.{PlainView};

    ghost Value = { PlainView };

    ghost use Rattle.ff_plain.specs.PlainFields.{IsKept, view_of};

    ghost view = { view_of };

    ghost invariant = { IsKept };
}

fn fresh(alloc: Global) -> Result<PlainPage, NoMemory>
    ensures { IfOk result (λ page. page ≡ fresh_page) }
{
    let bytes = PageBuf::new(alloc)?;
    Ok(PlainPage {
        bytes,
        pinned: false,
        written: false,
    })
}

fn lay(pages: &mut Vec<PlainPage>, post: &Post)
    requires page { post.now.page.0 < length pages.old.items }
    requires line { post.now.line < PAGE_LINES }
    requires fits { post.now.from + length post.now.bytes ≤ LINE_BYTES }
    ensures { pages.new.items ≡ slice_set pages.old.items post.now.page.0
        (after_post post.now (page_at pages.old.items post.now.page.0)) }
{
    let page = &mut pages[post.page.0 as usize];
    overlay_page(&mut page.bytes, post.line, post.from, &post.bytes);
}

fn mark_written(pages: &mut Vec<PlainPage>, page: PageNo)
    requires { page.0 < length pages.old.items }
    ensures { pages.new.items
        ≡ slice_set pages.old.items page.0 (written_page (page_at pages.old.items page.0)) }
{
    pages[page.0 as usize].written = true;
}

fn set_pin(pages: &mut Vec<PlainPage>, page: PageNo, on: bool)
    requires { page.0 < length pages.old.items }
    ensures { pages.new.items
        ≡ slice_set pages.old.items page.0 (pinned_page on (page_at pages.old.items page.0)) }
{
    pages[page.0 as usize].pinned = on;
}

fn read(pages: &[PlainPage], page: PageNo, line: u8) -> [u8; LINE_BYTES]
    requires page { page.0 < length pages.now }
    requires line { line < PAGE_LINES }
    ensures { result ≡ line_or_blank (page_at pages.now page.0).bytes line }
{
    pages[page.0 as usize].bytes.line(line)
}

impl Plain {
    /// So many pages of zeros, none pinned.
    #[tactic(auto, using(crate::proofs::PlainDevice::fresh_plain))]
    pub fn new(alloc: Global, pages: u32) -> Result<Plain, NoMemory>
        ensures { IfOk result (λ plain. plain ≡ fresh_view pages) }
    {
        let mut list = Vec::new(alloc);
        for _ in 0..pages {
            list.push(fresh(alloc)?)?;
        }
        Ok(Plain {
            pages: list,
            post: None,
        })
    }

    #[tactic(auto, using(crate::proofs::PlainDevice::post_within, crate::proofs::PlainDevice::drained_pages))]
    fn drain(&mut self)
        ensures known { IsPlainSound self.old }
        ensures drained { self.new ≡ drained_view self.old }
    {
        if let Some(post) = self.post.take() {
            lay(&mut self.pages, &post);
        }
    }
}

impl LineDevice for Plain {
    type Own = ();

    ghost state = { state_of };

    ghost own = { λ _. tt };

    #[tactic(auto, using(crate::proofs::PlainDevice::plain_device))]
    fn resident(&self, page: PageNo) -> bool {
        (page.0 as usize) < self.pages.len()
    }

    #[tactic(auto, using(crate::proofs::PlainDevice::drained_device, crate::proofs::PlainDevice::drained_line))]
    fn read_line(&mut self, page: PageNo, line: u8, _hit: bool) -> [u8; LINE_BYTES] {
        self.drain();
        read(&self.pages, page, line)
    }

    #[tactic(auto, using(crate::proofs::PlainDevice::posted_device, crate::proofs::PlainDevice::posted_plain))]
    fn post(&mut self, page: PageNo, line: u8, from: u8, piece: &Piece, position: Option<u32>) {
        self.drain();
        mark_written(&mut self.pages, page);
        self.post = Some(Post {
            page,
            line,
            from,
            bytes: piece.copy(),
            position,
        });
    }

    #[tactic(auto, using(crate::proofs::PlainDevice::drained_device))]
    fn drain_all(&mut self) {
        self.drain();
    }

    #[tactic(auto, using(crate::proofs::PlainDevice::pinned_device, crate::proofs::PlainDevice::pinned_plain))]
    fn pin(&mut self, page: PageNo, on: bool) {
        set_pin(&mut self.pages, page, on);
    }

    fn work(&mut self, _page: PageNo) -> Work {
        Work::Ready
    }
}
