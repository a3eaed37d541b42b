// The program's rule for the threshold, on a policy of two pages.
ghost use Rattle.std.specs.Prelude.{◌≡◌, ◌≤◌, IfOk, length};

use ff_base::PageNo;
use ff_policy::{Policy, Tune, Tuner};
use std::alloc::Global;
use std::test::Fail;

// The threshold falls by 1, to 1 at least, where a quarter or more of the accesses were host hits, and rises by 1, to 7 at
// most, where a sixteenth or fewer were.
#[derive(Drop)]
struct ByHits;

impl Tune for ByHits {
    ghost accepts = { λ _ hits accesses threshold. 1 ≤ threshold };

    ghost answers = { λ _ hits accesses threshold answer. 1 ≤ answer };

    fn tune(&self, hits: u64, accesses: u64, threshold: u8) -> u8 {
        if hits >= accesses.div_ceil(4) {
            (threshold - 1).max(1)
        } else if hits <= accesses / 16 && threshold < 7 {
            threshold + 1
        } else {
            threshold
        }
    }
}

// A policy of two pages, whose calls see to it that they may be made.
#[derive(Drop)]
struct TwoPages {
    policy: Policy<ByHits>,
    ghost pages: { length policy.counters ≡ 2 },
}

// The counter of page 0, its threshold, host hits, device accesses and promotions.
type Numbers = (u8, u8, u64, u64, u64);

fn policy(alloc: Global) -> Result<Policy<ByHits>, Fail>
    ensures { IfOk result (λ policy. length policy.counters ≡ 2) }
{
    let tuner = Tuner::new(1, 4, ByHits);
    match Policy::new(alloc, 2, tuner) {
        Ok(policy) => Ok(policy),
        Err(_) => Err("no memory")?,
    }
}

impl TwoPages {
    fn new(alloc: Global) -> Result<TwoPages, Fail> {
        Ok(TwoPages {
            policy: policy(alloc)?,
        })
    }

    // An access to a page that the device serves.
    fn device_access(&mut self, page: u32) {
        if page < 2 && self.policy.accesses() < 1 << 62 {
            self.policy.device_access(PageNo(page));
        }
    }

    // An access that a frame serves.
    fn host_access(&mut self) {
        if self.policy.hits() < 1 << 62 {
            self.policy.host_access();
        }
    }

    fn is_hot(&self, page: u32) -> bool {
        page < 2 && self.policy.is_hot(PageNo(page))
    }

    fn promote(&mut self, page: u32) {
        if page < 2 && self.policy.is_hot(PageNo(page)) {
            self.policy.promote(PageNo(page));
        }
    }

    fn counted(&self) -> &[PageNo] {
        self.policy.counted()
    }

    fn numbers(&self) -> Numbers {
        (
            self.policy.counter(PageNo(0)),
            self.policy.threshold(),
            self.policy.hits(),
            self.policy.accesses(),
            self.policy.promotions(),
        )
    }
}

// So many accesses that a frame serves, and then to page 0 that the device serves.
fn access(policy: &mut TwoPages, by_frame: u64, by_device: u64) {
    for _ in 0..by_frame {
        policy.host_access();
    }
    for _ in 0..by_device {
        policy.device_access(0);
    }
}

// Accesses that a frame serves, accesses to page 0 that the device serves, and the numbers after them.
static ACCESSES: [(u64, u64, Numbers); 5] = [
    (0, 0, (0, 4, 0, 0, 0)),
    (0, 63, (63, 4, 0, 63, 0)),
    (0, 1, (32, 5, 0, 64, 0)),
    (16, 0, (32, 5, 16, 64, 0)),
    (0, 64, (48, 4, 0, 128, 0)),
];

#[test]
fn the_threshold_follows_the_hits(rt: HostRuntime) -> Result<(), Fail> {
    let mut policy = TwoPages::new(rt.alloc())?;
    for (by_frame, by_device, wanted) in ACCESSES.iter() {
        access(&mut policy, *by_frame, *by_device);
        assert_eq!(rt; policy.numbers(), *wanted);
    }
    Ok(())
}

// The threshold behind one of 5, where 2 of 64 accesses were hits.
fn next_of_5(tuner: &Tuner<ByHits>) -> Option<u8> {
    if tuner.floor() > 5 {
        return None;
    }
    Some(tuner.next(2, 64, 5))
}

fn told(tuner: &Tuner<ByHits>) -> (u8, u8, Option<u8>) {
    (tuner.floor(), tuner.start(), next_of_5(tuner))
}

#[test]
fn a_policy_gives_its_tuner_back(rt: HostRuntime) -> Result<(), Fail> {
    let tuner = policy(rt.alloc())?.into_tuner();
    assert_eq!(rt; told(&tuner), (1, 4, Some(6)));
    Ok(())
}

#[test]
fn a_promotion_takes_the_counter(rt: HostRuntime) -> Result<(), Fail> {
    let mut policy = TwoPages::new(rt.alloc())?;
    access(&mut policy, 0, 3);
    assert!(rt; !policy.is_hot(0));
    access(&mut policy, 0, 1);
    assert!(rt; policy.is_hot(0) && !policy.is_hot(1));
    policy.device_access(1);
    assert_eq!(rt; policy.counted(), [PageNo(0), PageNo(1)].as_slice());
    policy.promote(0);
    assert_eq!(rt; policy.numbers(), (0, 4, 0, 5, 1));
    assert_eq!(rt; policy.counted(), [PageNo(1)].as_slice());
    Ok(())
}
