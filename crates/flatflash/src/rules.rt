// The rules by which the program's policy sets its threshold, and its evictor scores frames.
ghost use Rattle.std.specs.Prelude.{◌≡◌, ◌≤◌};
ghost use Rattle.ff_base.specs.declared.numbers.TheConstants.{PAGE_LINES};
ghost use Rattle.flatflash.specs.Rules.{dirty_score, tuned};

use ff_evict::{Pick, Picker};
use ff_policy::{Tune, Tuner};

/// The least threshold.
const FLOOR: u8 = 1;

/// The threshold that a session begins with.
const START: u8 = 4;

/// Lowers the threshold while many accesses hit the host, and raises it while few do.
#[derive(Drop)]
pub struct HitShare;

impl Tune for HitShare {
    ghost accepts = { λ _ hits accesses threshold. 1 ≤ threshold };

    ghost answers = { λ _ hits accesses threshold answer. answer ≡ tuned hits accesses threshold };

    fn tune(&self, hits: u64, accesses: u64, threshold: u8) -> u8 {
        let (hits, accesses) = (u128::from(hits), u128::from(accesses));
        if hits * 4 >= accesses {
            (threshold - 1).max(1)
        } else if hits * 16 <= accesses && threshold < 7 {
            threshold + 1
        } else {
            threshold
        }
    }
}

/// Scores a frame by its dirty lines, and those that were referred to behind all others.
#[derive(Drop)]
pub struct FewestDirty;

impl Pick for FewestDirty {
    ghost accepts = { λ _ referred dirty. dirty ≤ PAGE_LINES };

    ghost score = { λ _ referred dirty. dirty_score referred dirty };

    fn pick(&self, referred: bool, dirty: u32) -> u16 {
        if referred {
            128 + dirty as u16
        } else {
            dirty as u16
        }
    }
}

/// The program's tuner.
pub fn tuner() -> Tuner<HitShare>
    ensures floor { result.floor ≡ 1 }
    ensures start { result.start ≡ 4 }
{
    Tuner::new(FLOOR, START, HitShare)
}

/// The program's picker.
pub fn picker() -> Picker<FewestDirty> {
    Picker::new(FewestDirty)
}
