// What a power loss leaves of the posts.
ghost use Rattle.std.specs.Prelude.{◌≡◌, ℕ, [], drop, take};
ghost use Rattle.ff_device.specs.Device.{own_of, parts_of};
ghost use Rattle.ff_device.specs.Parts.{is_resident, line_below};
ghost use Rattle.ff_lines.specs.PageSets.{SameSet};
ghost use Rattle.ff_lines.specs.Posts.{laid};
ghost use Rattle.ff_window.specs.Window.{first_position};

use crate::Device;
use ff_flash::Flash;
use ff_window::Window;

fn lose(window: &mut Window)
    ensures posts { window.new.posts ≡ [] }
    ensures room { window.new.room ≡ window.old.room }
{
    for _ in 0..window.len() {
        window.pop();
    }
}

impl<F: Flash> Device<F> {
    // Loses every post that waits. The first position that was lost.
    fn lose_window(&mut self) -> Option<u32>
        ensures lost { result ≡ first_position self.old.window.posts }
        ensures posts { self.new.window.posts ≡ [] }
        ensures room { self.new.window.room ≡ self.old.window.room }
        ensures store { self.new.store ≡ self.old.store }
        ensures cache { self.new.cache ≡ self.old.cache }
    {
        let lost = self.window.first_position();
        lose(&mut self.window);
        lost
    }

    /// So many of the oldest posts arrive, and the others are lost: the first position that was.
    #[tactic(auto, using(crate::proofs::Arriving::take_some, crate::proofs::Arriving::drop_some))]
    pub fn arrive(&mut self, count: u32) -> Option<u32>
        ensures lost { result ≡ first_position (drop count self.old.window.posts) }
        ensures below { (page line : ℕ) → line_below (parts_of self.new) page line
            ≡ laid page line (take count self.old.window.posts)
            (line_below (parts_of self.old) page line) }
        ensures posts { self.new.window.posts ≡ [] }
        ensures resident { SameSet (is_resident (parts_of self.old))
            (is_resident (parts_of self.new)) }
        ensures own { own_of self.new ≡ own_of self.old }
    {
        let some = count.min(self.window.len());
        self.drain_first(some);
        self.lose_window()
    }
}
