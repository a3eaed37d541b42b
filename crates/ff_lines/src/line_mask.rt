// A set of lines as a mask of 64 bits.
ghost use Rattle.std.specs.Prelude.{◌≡◌, ◌<◌, ◌≤◌, ◌+◌, ◌==◌, ◌||◌, ◌&&◌, ℕ, not, IfSome, IsNone, ◌↔◌};
ghost use Rattle.ff_base.specs.declared.numbers.TheConstants.{PAGE_LINES};
ghost use Rattle.ff_lines.specs.LineMask.{has_line, IsLeastClear, IsLineRange, HasEveryLine, mask_with, mask_without, mask_others};

/// A set of a page's lines, in which bit i stands for line i.
#[derive(Clone, Copy, Debug, PartialEq, Eq)]
pub struct LineMask(pub u64);

impl LineMask {
    /// So many lines, from one on.
    pub fn of_range(from: u32, count: u32) -> LineMask
        requires { from + count ≤ PAGE_LINES }
        ensures { IsLineRange from count result }
    {
        let mut mask = LineMask(0);
        for line in from..from + count {
            mask.set(line as u8);
        }
        mask
    }

    /// Puts a line into the set.
    #[tactic(auto, unfolding(crate::specs::LineMask::mask_with))]
    pub fn set(&mut self, line: u8)
        requires { line < PAGE_LINES }
        ensures mask { self.new ≡ mask_with self.old line }
        ensures lines { (q : ℕ) → q < PAGE_LINES → has_line self.new q
            ≡ ((q == line) || has_line self.old q) }
    {
        self.0 |= 1 << line;
    }

    /// Takes a line out of the set.
    #[tactic(auto, unfolding(crate::specs::LineMask::mask_without))]
    pub fn clear(&mut self, line: u8)
        requires { line < PAGE_LINES }
        ensures mask { self.new ≡ mask_without self.old line }
        ensures lines { (q : ℕ) → q < PAGE_LINES → has_line self.new q
            ≡ (not (q == line) && has_line self.old q) }
    {
        self.0 &= !(1 << line);
    }

    /// Whether a line is in the set.
    pub fn has(&self, line: u8) -> bool
        requires { line < PAGE_LINES }
        ensures { result ≡ has_line self.now line }
    {
        self.0 >> line & 1 == 1
    }

    /// The least line that isn't in the set.
    pub fn first_clear(&self) -> Option<u8>
        ensures least { IfSome result (IsLeastClear self.now) }
        ensures full { IsNone result ↔ HasEveryLine self.now }
    {
        if self.0 == u64::MAX {
            return None;
        }
        Some(self.0.trailing_ones() as u8)
    }

    /// The lines that aren't in the set.
    #[tactic(auto, unfolding(crate::specs::LineMask::mask_others))]
    pub fn complement(&self) -> LineMask
        ensures mask { result ≡ mask_others self.now }
        ensures lines { (q : ℕ) → q < PAGE_LINES → has_line result q ≡ not (has_line self.now q) }
    {
        LineMask(!self.0)
    }
}
