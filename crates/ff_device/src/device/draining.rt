// Posts that are laid over their pages' slots.
ghost use Rattle.std.specs.Prelude.{◌≡◌, ◌≤◌, length, nat_lt};
ghost use Rattle.ff_device.specs.Device.{lines_in, own_of};
ghost use Rattle.ff_device.specs.Draining.{DrainsFirst, SameFrames};
ghost use Rattle.ff_lines.specs.DeviceState.{IsDrained};

use super::slots::lay;
use crate::Device;
use ff_flash::Flash;

impl<F: Flash> Device<F> {
    /// How many posts wait.
    pub fn waiting(&self) -> u32
        ensures count { result ≡ length self.now.window.posts }
        ensures few { length self.now.window.posts ≤ self.now.window.room }
    {
        self.window.len()
    }

    /// Drains the oldest post. Whether one waited.
    pub fn drain_one(&mut self) -> bool
        ensures found { result ≡ nat_lt 0 (length self.old.window.posts) }
        ensures drained { DrainsFirst 1 (lines_in self.old) (lines_in self.new) }
        ensures own { own_of self.new ≡ own_of self.old }
        ensures frames { SameFrames self.old.cache self.new.cache }
    {
        match self.window.pop() {
            Some(post) => {
                self.cache.known();
                lay(&mut self.cache, &post);
                true
            }
            None => false,
        }
    }

    // Drains so many of the oldest posts.
    #[tactic(auto, using(crate::proofs::Drained::drains_more, crate::proofs::Drained::drains_none, crate::proofs::Drained::frames_more, crate::proofs::Drained::frames_same))]
    pub(super) fn drain_first(&mut self, count: u32)
        ensures drained { DrainsFirst count (lines_in self.old) (lines_in self.new) }
        ensures own { own_of self.new ≡ own_of self.old }
        ensures frames { SameFrames self.old.cache self.new.cache }
    {
        for _ in 0..count {
            self.drain_one();
        }
    }

    // Drains every post.
    #[tactic(auto, using(crate::proofs::Drained::drains_all))]
    pub(super) fn drain_window(&mut self)
        ensures drained { IsDrained (lines_in self.old) (lines_in self.new) }
        ensures own { own_of self.new ≡ own_of self.old }
        ensures frames { SameFrames self.old.cache self.new.cache }
    {
        let count = self.window.len();
        self.drain_first(count);
    }
}
