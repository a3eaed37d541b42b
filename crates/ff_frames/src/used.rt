// Which frames are in use, so that the least free one is found without a pass over the frames.
ghost use Rattle.std.specs.Prelude.{ℕ, ◌≡◌, ◌+◌, ◌*◌, ◌/◌, ◌<◌, ◌^◌, ◌==◌, ◌||◌, ◌&&◌, not, IfOk, MatchOption, length, replicate};
ghost use Rattle.ff_lines.specs.LineMask.{no_lines};

use ff_base::NoMemory;
use ff_lines::LineMask;
use std::alloc::Global;
use std::marker::Model;

/// The frames that are in use. Each mask is of 64 frames, as a page's mask is of its lines.
#[derive(Drop)]
pub struct UsedFrames {
    masks: Vec<LineMask>,
}

impl Model for UsedFrames {
    ghost use Rattle.std.specs.Prelude.{◌<◌, ◌^◌, List, length};
    ghost use Rattle.ff_lines.specs.declared.line_mask.LineMask.{LineMask};

    ghost Value = { List LineMask };

    ghost view = { λ u. u.masks.items };

    ghost invariant = { λ u. length u.masks.items < 2 ^ 26 };
}

/// The frames of a mask.
const FRAMES_A_MASK: u32 = 64;

impl UsedFrames {
    ghost use Rattle.ff_frames.specs.UsedFrames.{AreAllUsed, IsLeastUnused, is_used};

    /// None of so many frames is in use, nor of those after them that their last mask has.
    pub fn new(alloc: Global, frames: u32) -> Result<UsedFrames, NoMemory>
        requires { frames < 2 ^ 31 }
        ensures none { IfOk result (λ used. used ≡ replicate (frames / 64 + 1) no_lines) }
    {
        let count = frames / FRAMES_A_MASK + 1;
        let masks = vec![in alloc; LineMask(0); count as usize]?;
        Ok(UsedFrames { masks })
    }

    /// The frame is in use from now on.
    pub fn set(&mut self, frame: u32)
        requires { frame < 64 * length self.old }
        ensures used { (q : ℕ) → is_used self.new q ≡ ((q == frame) || is_used self.old q) }
        ensures masks { length self.new ≡ length self.old }
    {
        self.masks[(frame / FRAMES_A_MASK) as usize].set((frame % FRAMES_A_MASK) as u8);
    }

    /// The frame isn't in use from now on.
    pub fn clear(&mut self, frame: u32)
        requires { frame < 64 * length self.old }
        ensures used { (q : ℕ) → is_used self.new q ≡ (not (q == frame) && is_used self.old q) }
        ensures masks { length self.new ≡ length self.old }
    {
        self.masks[(frame / FRAMES_A_MASK) as usize].clear((frame % FRAMES_A_MASK) as u8);
    }

    /// The least frame that isn't in use.
    pub fn least_unused(&self) -> Option<u32>
        ensures { MatchOption result (AreAllUsed self.now) (IsLeastUnused self.now) }
    {
        for at in 0..self.masks.len() {
            if let Some(frame) = self.masks[at].first_clear() {
                return Some(at as u32 * FRAMES_A_MASK + frame as u32);
            }
        }
        None
    }
}
