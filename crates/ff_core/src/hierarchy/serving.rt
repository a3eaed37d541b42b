// Calls that are asked of the memory, and what an access that was served teaches the policy.
ghost use Rattle.std.specs.Prelude.{◌≡◌, ◌<◌, IsTrue, length};
ghost use Rattle.ff_base.specs.Count.{HasCountLeft};
ghost use Rattle.ff_memory.specs.Located.{IsLocated};
ghost use Rattle.ff_model.specs.Spans.{is_in_range};
ghost use Rattle.ff_core.specs.Serving.{IsAccess, PolicyAfter};
ghost use Rattle.ff_core.specs.Hierarchy.{lines_under};

use crate::hierarchy::Hierarchy;
use ff_base::PageNo;
use ff_calls::access;
use ff_evict::Pick;
use ff_flash::Flash;
use ff_memory::{Access, Side};
use ff_model::Op;
use ff_policy::Tune;

impl<F: Flash, T: Tune, E: Pick> Hierarchy<F, T, E> {
    // Asks a call of the memory. A store's position is that of its entry in the history.
    pub(crate) fn access(&mut self, op: &Op, position: u32) -> Access
        requires range { IsTrue (is_in_range (length self.old.memory.table.homes) op.now) }
        requires located { IsLocated self.old.memory (lines_under self.old) }
        ensures { IsAccess op.now position self.old result self.new }
    {
        let answer = access(&mut self.memory, &mut self.device, op, position);
        self.device.known();
        answer
    }

    // An access to the page was served by this side.
    pub(crate) fn count_access(&mut self, side: Side, page: PageNo)
        requires page { page.0 < length self.old.policy.counters }
        requires accesses { HasCountLeft self.old.policy.accesses }
        requires hits { HasCountLeft self.old.policy.hits }
        ensures policy { PolicyAfter side page.0 T.answers self.old.policy self.new.policy }
        ensures rest { self.new ≡ record self.old { policy = self.new.policy } }
    {
        match side {
            Side::Device => self.policy.device_access(page),
            Side::Host => self.policy.host_access(),
            Side::Neither => {}
        }
    }
}
