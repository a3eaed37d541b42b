// The device as one of lines.
ghost use Rattle.std.specs.Prelude.{◌≡◌, ◌≤◌, ◌<◌, ◌+◌, ◌++◌, ◌∷◌, ◌==◌, [], true, false, length, drop, if◌then◌else◌};
ghost use Rattle.std.specs.Option.{is_some};
ghost use Rattle.ff_base.specs.Count.{HasCountLeft};
ghost use Rattle.ff_base.specs.declared.numbers.TheConstants.{PAGE_LINES};
ghost use Rattle.ff_device.specs.StoreState.{seen_of};
ghost use Rattle.ff_device.specs.Device.{lines_in, own_of, parts_of};
ghost use Rattle.ff_device.specs.Changes.{post_of};
ghost use Rattle.ff_device.specs.Parts.{SameShape};
ghost use Rattle.ff_device.specs.Draining.{HitIf};
ghost use Rattle.ff_lines.specs.Posts.{IsPost};
ghost use Rattle.ff_lines.specs.DeviceState.{HasRoom, IsDevice, IsDrained, IsPinned, IsPosted, line_at};
ghost use Rattle.ff_device.specs.WorkRows.{stop_of_work, IsWorkStep};
ghost use Rattle.ff_device.specs.StoreSteps.{CallsOnce};
ghost use Rattle.ff_lines.specs.Works.{IsIdle, KeepsLines, Works};

use super::slots::set_pin;
use crate::store_steps::store_known;
use crate::{Device, DeviceOwn};
use ff_base::{LINE_BYTES, PageNo};
use ff_flash::Flash;
use ff_lines::{LineDevice, Post, Work};
use ff_model::Piece;
use ff_store::PageStore;

impl<F: Flash> Device<F> {
    // What every device of lines keeps. For the prover alone.
    fn lines_known(&self)
        ensures { IsDevice (lines_in self.now) }
    {
        store_known(&self.store);
        let _ = self.window.len();
    }

    fn is_resident(&self, page: PageNo) -> bool
        ensures { result ≡ (lines_in self.now).resident page.0 }
    {
        self.cache.find(page).is_some()
    }

    #[tactic(auto, using(crate::proofs::Touching::drained_values, crate::proofs::Touching::hit_frames))]
    fn read(&mut self, page: PageNo, line: u8, hit: bool) -> [u8; LINE_BYTES]
        requires resident { (lines_in self.old).resident page.0 ≡ true }
        requires line { line < PAGE_LINES }
        ensures bytes { result ≡ line_at (lines_in self.old) page.0 line }
        ensures drained { IsDrained (lines_in self.old) (lines_in self.new) }
        ensures own { own_of self.new ≡ own_of self.old }
        ensures hit { HitIf hit page.0 self.old.cache self.new.cache.values }
    {
        self.drain_window();
        self.read_cached(page, line, hit)
    }

    fn put(&mut self, post: Post)
        requires resident { (lines_in self.old).resident post.page.0 ≡ true }
        requires post { IsPost post }
        requires room { HasRoom (lines_in self.old) post.page.0 }
        ensures posted { IsPosted post (lines_in self.old) (lines_in self.new) }
        ensures full { self.new.window.posts
            ≡ drop (if length self.old.window.posts == self.old.window.room then 1 else 0)
            self.old.window.posts ++ post ∷ [] }
        ensures own { own_of self.new ≡ own_of self.old }
        ensures hit { HitIf (is_some post.position) post.page.0 self.old.cache
            self.new.cache.values }
    {
        self.make_room();
        self.touch(post.page, post.position.is_some());
        self.put_last(post);
    }

    fn change_pin(&mut self, page: PageNo, on: bool)
        requires { (lines_in self.old).resident page.0 ≡ true }
        ensures pinned { IsPinned page.0 on (lines_in self.old) (lines_in self.new) }
        ensures own { own_of self.new ≡ own_of self.old }
        ensures values { self.new.cache.values ≡ self.old.cache.values }
    {
        self.cache.known();
        set_pin(&mut self.cache, page, on);
    }
}

impl<F: Flash> LineDevice for Device<F> {
    ghost use Rattle.std.specs.Prelude.{◌≡◌, ◌≤◌, ◌<◌, ◌+◌, ◌++◌, ◌∷◌, ◌==◌, [], true, false, length, drop, if◌then◌else◌};
    ghost use Rattle.std.specs.Option.{is_some};
    ghost use Rattle.ff_device.specs.Device.{lines_in, own_of, parts_of};

    type Own = DeviceOwn<PageStore<F>>;

    ghost state = { lines_in };

    ghost own = { own_of };

    fn resident(&self, page: PageNo) -> bool {
        self.lines_known();
        self.is_resident(page)
    }

    fn read_line(&mut self, page: PageNo, line: u8, hit: bool) -> [u8; LINE_BYTES]
        requires resident { (lines_in self.old).resident page.0 ≡ true }
        requires line { line < PAGE_LINES }
        ensures bytes { result ≡ line_at (lines_in self.old) page.0 line }
        ensures drained { IsDrained (lines_in self.old) (lines_in self.new) }
        ensures own { own_of self.new ≡ own_of self.old }
        ensures hit { HitIf hit page.0 self.old.cache self.new.cache.values }
    {
        self.read(page, line, hit)
    }

    fn post(&mut self, page: PageNo, line: u8, from: u8, piece: &Piece, position: Option<u32>)
        requires resident { (lines_in self.old).resident page.0 ≡ true }
        requires line { line < PAGE_LINES }
        requires fits { from + length piece.now ≤ LINE_BYTES }
        requires room { HasRoom (lines_in self.old) page.0 }
        ensures posted { IsPosted
            (record { page = page; line = line; from = from; bytes = piece.now; position = position })
            (lines_in self.old) (lines_in self.new) }
        ensures own { own_of self.new ≡ own_of self.old }
        ensures hit { HitIf (is_some position) page.0 self.old.cache self.new.cache.values }
        ensures full { self.new.window.posts
            ≡ drop (if length self.old.window.posts == self.old.window.room then 1 else 0)
            self.old.window.posts ++ post_of page line from piece.now position ∷ [] }
    {
        self.put(Post {
            page,
            line,
            from,
            bytes: piece.copy(),
            position,
        });
    }

    fn drain_all(&mut self)
        ensures drained { IsDrained (lines_in self.old) (lines_in self.new) }
        ensures own { own_of self.new ≡ own_of self.old }
        ensures values { self.new.cache.values ≡ self.old.cache.values }
    {
        self.drain_window();
    }

    fn pin(&mut self, page: PageNo, on: bool)
        requires { (lines_in self.old).resident page.0 ≡ true }
        ensures pinned { IsPinned page.0 on (lines_in self.old) (lines_in self.new) }
        ensures own { own_of self.new ≡ own_of self.old }
        ensures values { self.new.cache.values ≡ self.old.cache.values }
    {
        self.change_pin(page, on);
    }

    #[tactic(auto, using(crate::proofs::Keeping::still_keeps, crate::proofs::StoreCalls::still_calls, crate::proofs::Shapes::step_shape, crate::proofs::Shapes::same_shape))]
    fn work(&mut self, page: PageNo) -> Work
        requires page { page.0 < length (seen_of self.old.store).pages }
        requires used { HasCountLeft (seen_of self.old.store).used }
        ensures answer { Works page.0 result (lines_in self.old) (lines_in self.new) }
        ensures kept { KeepsLines (lines_in self.old) (lines_in self.new) }
        ensures idle { IsIdle result → self.new ≡ self.old }
        ensures unpowered { (seen_of self.old.store).on ≡ false → self.new ≡ self.old }
        ensures row { (seen_of self.old.store).on ≡ true
            → (lines_in self.old).resident page.0 ≡ false
            → IsWorkStep page.0 (parts_of self.old) result (parts_of self.new) }
        ensures calls { CallsOnce self.old.store (stop_of_work result) self.new.store }
        ensures shape { SameShape (parts_of self.old) (parts_of self.new) }
    {
        if !self.is_on() {
            Work::Off
        } else if self.is_resident(page) {
            Work::Ready
        } else {
            self.work_for(page)
        }
    }
}
