// The rules of the threshold and of the frames' scores that the tests go by.
ghost use Rattle.std.specs.Prelude.{◌+◌, ◌≤◌, if◌then◌else◌};

use ff_evict::Pick;
use ff_policy::Tune;

// The threshold falls by 1, to 1 at least, where a quarter or more of the accesses were host hits, and rises by 1, to 7 at
// most, where a sixteenth or fewer were.
#[derive(Drop)]
pub struct ByHits;

impl Tune for ByHits {
    ghost accepts = { λ _ hits accesses threshold. 1 ≤ threshold };

    ghost answers = { λ _ hits accesses threshold answer. 1 ≤ answer };

    fn tune(&self, hits: u64, accesses: u64, threshold: u8) -> u8 {
        if hits >= accesses.div_ceil(4) {
            (threshold - 1).max(1)
        } else if hits <= accesses / 16 && threshold < 7 {
            threshold + 1
        } else {
            threshold
        }
    }
}

// A frame with fewer dirty lines goes first, and those that were referred to after the others.
#[derive(Drop)]
pub struct ByDirty;

impl Pick for ByDirty {
    ghost accepts = { λ _ referred dirty. dirty ≤ 64 };

    ghost score = { λ _ referred dirty. if referred then 128 + dirty else dirty };

    fn pick(&self, referred: bool, dirty: u32) -> u16 {
        if referred {
            128 + dirty as u16
        } else {
            dirty as u16
        }
    }
}
