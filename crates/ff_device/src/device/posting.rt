// Reads of cached lines, posts, and the hits that both may be.
ghost use Rattle.std.specs.Prelude.{◌≡◌, ◌<◌, ◌++◌, ◌∷◌, ◌==◌, [], true, length, if◌then◌else◌};
ghost use Rattle.ff_base.specs.declared.numbers.TheConstants.{PAGE_LINES};
ghost use Rattle.ff_device.specs.Device.{lines_in, own_of, parts_of};
ghost use Rattle.ff_device.specs.Draining.{DrainsFirst, HitIf, SameFrames};
ghost use Rattle.ff_device.specs.Parts.{is_resident, line_below};
ghost use Rattle.ff_lines.specs.DeviceState.{HasRoom};
ghost use Rattle.ff_lines.specs.Posts.{IsPost};

use super::slots::use_again;
use crate::Device;
use ff_base::{LINE_BYTES, PageNo};
use ff_flash::Flash;
use ff_lines::Post;

impl<F: Flash> Device<F> {
    // The cached line of a page.
    #[tactic(auto, using(crate::proofs::Touching::hit_told, crate::proofs::Touching::cached_line))]
    pub(super) fn read_cached(&mut self, page: PageNo, line: u8, hit: bool) -> [u8; LINE_BYTES]
        requires resident { is_resident (parts_of self.old) page.0 ≡ true }
        requires line { line < PAGE_LINES }
        ensures bytes { result ≡ line_below (parts_of self.old) page.0 line }
        ensures hit { HitIf hit page.0 self.old.cache self.new.cache.values }
        ensures same { self.new ≡ record self.old {
          cache = record self.old.cache { values = self.new.cache.values };
        } }
    {
        match self.cache.find(page) {
            Some(slot) => {
                use_again(&mut self.cache, slot, hit);
                self.cache.line(slot, line)
            }
            None => unreachable!(),
        }
    }

    // Where it is a hit, the page was used again.
    #[tactic(auto, using(crate::proofs::Touching::hit_told))]
    pub(super) fn touch(&mut self, page: PageNo, hit: bool)
        requires resident { is_resident (parts_of self.old) page.0 ≡ true }
        ensures hit { HitIf hit page.0 self.old.cache self.new.cache.values }
        ensures same { self.new ≡ record self.old {
          cache = record self.old.cache { values = self.new.cache.values };
        } }
    {
        match self.cache.find(page) {
            Some(slot) => use_again(&mut self.cache, slot, hit),
            None => unreachable!(),
        }
    }

    // Drains the oldest post where the window is full.
    #[tactic(auto, using(crate::proofs::Drained::drains_none, crate::proofs::Drained::frames_same))]
    pub(super) fn make_room(&mut self)
        ensures drained { DrainsFirst
            (if length self.old.window.posts == self.old.window.room then 1 else 0)
            (lines_in self.old) (lines_in self.new) }
        ensures room { length self.new.window.posts < self.new.window.room }
        ensures own { own_of self.new ≡ own_of self.old }
        ensures frames { SameFrames self.old.cache self.new.cache }
    {
        if self.window.is_full() {
            self.drain_one();
        }
    }

    // Puts a post last.
    #[tactic(auto, using(crate::proofs::Lines::posted_sound))]
    pub(super) fn put_last(&mut self, post: Post)
        requires resident { is_resident (parts_of self.old) post.page.0 ≡ true }
        requires post { IsPost post }
        requires free { length self.old.window.posts < self.old.window.room }
        requires room { HasRoom (lines_in self.old) post.page.0 }
        ensures { self.new ≡ record self.old {
          window = record { posts = self.old.window.posts ++ post ∷ []; room = self.old.window.room };
        } }
    {
        self.window.post(post);
    }
}
