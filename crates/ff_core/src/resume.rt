// How a session begins over a mounted store and cache.
ghost use Rattle.std.specs.Prelude.{◌≡◌, length, MatchResult};
ghost use Rattle.ff_base.specs.Geometry.{IsWithinLimits};
ghost use Rattle.ff_model.specs.Legal.{opening_of};
ghost use Rattle.ff_policy.specs.Policy.{fresh_policy};
ghost use Rattle.ff_core.specs.Resume.{CanResume, resumed_core};
ghost use Rattle.ff_core.specs.EventTally.{no_tally};

mod made;
mod page_table;
mod supplies;

use crate::core_state::Room;
use crate::hierarchy::Hierarchy;
use crate::resume::made::{Made, make};
use crate::state::State;
use crate::tally::EventTally;
use ff_base::Geometry;
use ff_evict::{Evictor, Pick, Picker};
use ff_flash::Flash;
use ff_model::Image;
use ff_mount::Mounted;
use ff_policy::{Policy, Tune, Tuner};
use std::alloc::Global;

/// What a core that could not be resumed hands back, for want of memory.
#[derive(Drop)]
pub struct ResumeBack<F: Flash, T: Tune, E: Pick> {
    pub mounted: Mounted<F>,
    pub tuner: Tuner<T>,
    pub picker: Picker<E>,
}

// The parts of a session that begins at an event number.
fn assemble<F: Flash, T: Tune, E: Pick>(
    made: Made<F>,
    policy: Policy<T>,
    picker: Picker<E>,
    geometry: Geometry,
    from_event: u64,
) -> State<F, T, E>
    ensures { result ≡ record {
      opening = opening_of made.base geometry from_event made.device.store.world.flash.faults;
      geometry = geometry;
      from_counts = made.device.store.world.counts;
      history = made.history;
      events = from_event;
      log = made.log;
      tally = no_tally;
      hierarchy = record {
        memory = made.memory;
        device = made.device;
        policy = policy;
        evictor = record { hand = 0; picker = picker };
      };
    } }
{
    let from_faults = made.device.store().flash().fault_count();
    let from_counts = made.device.store().counts();
    State {
        base: made.base,
        geometry,
        from_event,
        from_faults,
        from_counts,
        history: made.history,
        events: from_event,
        log: made.log,
        tally: EventTally::default(),
        hierarchy: Hierarchy {
            memory: made.memory,
            device: made.device,
            policy,
            evictor: Evictor::new(picker),
        },
    }
}

// The parts of a session over a mounted store and cache.
pub fn resumed_state<F: Flash, T: Tune, E: Pick>(
    alloc: Global,
    mounted: Mounted<F>,
    base: &Image,
    geometry: Geometry,
    tuner: Tuner<T>,
    picker: Picker<E>,
    room: Room,
    from_event: u64,
) -> Result<State<F, T, E>, ResumeBack<F, T, E>>
    requires limits { IsWithinLimits geometry }
    requires parts { CanResume geometry mounted.store mounted.cache mounted.marks from_event }
    requires size { length base.now.pages ≡ geometry.pages }
    ensures { MatchResult result
        (λ state. state ≡ resumed_core mounted.store mounted.cache mounted.marks base.now
        geometry tuner picker room from_event)
        (λ back. back ≡ record { mounted = mounted; tuner = tuner; picker = picker }) }
{
    match Policy::new(alloc, geometry.pages, tuner) {
        Ok(policy) => resumed_with(
            alloc, mounted, base, geometry, policy, picker, room, from_event,
        ),
        Err(tuner) => Err(ResumeBack {
            mounted,
            tuner,
            picker,
        }),
    }
}

fn resumed_with<F: Flash, T: Tune, E: Pick>(
    alloc: Global,
    mounted: Mounted<F>,
    base: &Image,
    geometry: Geometry,
    policy: Policy<T>,
    picker: Picker<E>,
    room: Room,
    from_event: u64,
) -> Result<State<F, T, E>, ResumeBack<F, T, E>>
    requires limits { IsWithinLimits geometry }
    requires parts { CanResume geometry mounted.store mounted.cache mounted.marks from_event }
    requires size { length base.now.pages ≡ geometry.pages }
    requires policy { policy ≡ fresh_policy geometry.pages policy.tuner }
    ensures { MatchResult result
        (λ state. state ≡ resumed_core mounted.store mounted.cache mounted.marks base.now
        geometry policy.tuner picker room from_event)
        (λ back. back ≡ record { mounted = mounted; tuner = policy.tuner; picker = picker }) }
{
    match make(alloc, mounted, base, &geometry, room) {
        Ok(made) => Ok(assemble(made, policy, picker, geometry, from_event)),
        Err(mounted) => Err(ResumeBack {
            mounted,
            tuner: policy.into_tuner(),
            picker,
        }),
    }
}
