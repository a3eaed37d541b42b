// Marks, their release, and the referred flags.
ghost use Rattle.std.specs.Prelude.{◌≡◌, ◌<◌, ◌≤◌, false, length};
ghost use Rattle.ff_lines.specs.DeviceState.{DeviceState};
ghost use Rattle.ff_memory.specs.Located.{IsLocated};
ghost use Rattle.ff_memory.specs.Marking.{IsMarkBy, IsUnreferred, is_between, is_passed};
ghost use Rattle.ff_memory.specs.Memory.{marks_set};
ghost use Rattle.ff_memory.specs.LineBytes.{SameLineBytes, is_home};

use crate::access::{Access, Side};
use crate::memory::Memory;
use ff_base::PageNo;
use ff_lines::LineDevice;
use ff_model::Reply;
use ff_table::Home;

impl Memory {
    // Whether a page is on the SSD and has no entry.
    pub(crate) fn is_home(&self, page: PageNo) -> bool
        requires { page.0 < length self.now.table.homes }
        ensures { result ≡ is_home self.now page.0 }
    {
        self.plb.find(page).is_none() && self.table.home(page) == Home::Ssd
    }

    /// Marks the lines of a mask, after every post was drained. A page that isn't home is missed.
    pub fn mark<D: LineDevice>(&mut self, d: &mut D, page: PageNo, lines: u64) -> Access
        requires page { page.0 < length self.old.table.homes }
        requires located { IsLocated self.old (D.state d.old) }
        ensures mark { IsMarkBy (is_home self.old page.0) page.0 lines
            self.old (D.state d.old) result self.new (D.state d.new) }
        ensures located { IsLocated self.new (D.state d.new) }
        ensures lines { SameLineBytes self.old (D.state d.old) self.new (D.state d.new) }
        ensures own { D.own d.new ≡ D.own d.old }
    {
        if !self.is_home(page) {
            return Access::Miss(page);
        }
        d.drain_all();
        self.table.mark(page, lines, true);
        Access::Served(Reply::Done, Side::Neither)
    }

    /// Clears the marks of the lines of a mask.
    pub fn release(&mut self, page: PageNo, lines: u64)
        requires { page.0 < length self.old.table.homes }
        ensures step { self.new ≡ marks_set page.0 lines false self.old }
        ensures located { (d : DeviceState) → IsLocated self.old d → IsLocated self.new d }
        ensures lines { (d : DeviceState) → SameLineBytes self.old d self.new d }
    {
        self.table.mark(page, lines, false);
    }

    /// Clears the referred flags of the frames from one up to the one before another, round; of none where the two are
    /// equal.
    pub fn clear_referred(&mut self, from: u32, to: u32)
        requires from { from < length self.old.frames }
        requires to { to < length self.old.frames }
        ensures step { IsUnreferred (is_passed from to) self.old self.new }
        ensures located { (d : DeviceState) → IsLocated self.old d → IsLocated self.new d }
        ensures lines { (d : DeviceState) → SameLineBytes self.old d self.new d }
    {
        if from <= to {
            return self.unrefer(from, to);
        }
        self.unrefer_round(from, to);
    }

    fn unrefer_round(&mut self, from: u32, to: u32)
        requires order { to < from }
        requires from { from < length self.old.frames }
        ensures { IsUnreferred (is_passed from to) self.old self.new }
    {
        let end = self.frames.len();
        self.unrefer(from, end);
        self.unrefer(0, to);
    }

    fn unrefer(&mut self, from: u32, to: u32)
        requires order { from ≤ to }
        requires to { to ≤ length self.old.frames }
        ensures { IsUnreferred (is_between from to) self.old self.new }
    {
        for frame in from..to {
            self.frames.refer(frame, false);
        }
    }
}
