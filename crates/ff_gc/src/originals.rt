// Which page of the victim is copied next.
ghost use Rattle.std.specs.Prelude.{◌≡◌, ◌+◌, ◌*◌, ◌<◌, ◌≤◌, ◌^◌, MatchOption};
ghost use Rattle.ff_map.specs.PageMap.{IsFree};
ghost use Rattle.ff_gc.specs.Originals.{IsAfter, IsAllSeen, IsNextOriginal, IsThere, move_to, past, spare_in};

use crate::phase::{Job, Original, Phase};
use ff_base::Ppn;
use ff_flash::Spare;
use ff_map::{Move, PageMap};

impl Original {
    pub(crate) fn spare(self) -> Spare
        ensures { result ≡ spare_in self }
    {
        Spare {
            page: self.page,
            version: self.version,
        }
    }

    pub(crate) fn move_to(self, at: Ppn) -> Move
        ensures { result ≡ move_to self at }
    {
        Move {
            page: self.page,
            from: self.from,
            to: at,
        }
    }
}

impl Job {
    // The collection with all that is seen up to a page.
    pub(crate) fn past(self, original: Original, per_block: u32) -> Job
        requires { 0 < per_block }
        ensures { result ≡ past per_block self original }
    {
        Job {
            seen: original.from.0 % per_block + 1,
            ..self
        }
    }
}

/// The first page that is mapped in the victim behind what is seen.
pub fn next_original(map: &PageMap, per_block: u32, job: Job) -> Option<Original>
    requires some { 0 < per_block }
    requires seen { job.seen ≤ per_block }
    requires small { job.victim.0 * per_block + per_block < 2 ^ 32 }
    ensures { MatchOption result (IsAllSeen per_block map.now job)
        (λ original. IsNextOriginal per_block map.now job original) }
{
    let first = job.victim.0 * per_block;
    for place in job.seen..per_block {
        if let Some(original) = original_at(map, Ppn(first + place)) {
            return Some(original);
        }
    }
    None
}

// The page that is mapped at this place.
fn original_at(map: &PageMap, from: Ppn) -> Option<Original>
    ensures { MatchOption result (IsFree map.now from) (λ original. IsThere map.now from original) }
{
    let page = map.owner(from)?;
    let version = map.version(page)?;
    Some(Original {
        page,
        from,
        version,
    })
}

/// What is next in a collection that copies.
#[tactic(auto, using(crate::proofs::Stepping::not_all_seen))]
pub fn phase_after(map: &PageMap, per_block: u32, job: Job) -> Phase
    requires some { 0 < per_block }
    requires seen { job.seen ≤ per_block }
    requires small { job.victim.0 * per_block + per_block < 2 ^ 32 }
    ensures { IsAfter per_block map.now job result }
{
    match next_original(map, per_block, job) {
        Some(_) => Phase::Reading(job),
        None => Phase::Commit(job),
    }
}
