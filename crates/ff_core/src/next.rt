// Which page in flight makes the next step.
ghost use Rattle.std.specs.Prelude.{MatchOption};
ghost use Rattle.ff_plb.specs.NextStep.{IsNoneNext};
ghost use Rattle.ff_plb.specs.declared.slot.NextStep.TheVariants.{Finish, Land};
ghost use Rattle.ff_core.specs.Choices.{IsNextSlot, IsNoneMoving};

use ff_plb::{NextStep, Plb, Way};

// The slot whose page makes the next step of those that go this way.
pub fn next_slot(plb: &Plb, way: Way) -> Option<u32>
    ensures { MatchOption result (IsNoneMoving way plb.now) (IsNextSlot way plb.now) }
{
    match plb.least_next(way, NextStep::Finish) {
        Some(slot) => Some(slot),
        None => next_unfinished(plb, way),
    }
}

// The same where no page finishes.
fn next_unfinished(plb: &Plb, way: Way) -> Option<u32>
    requires none_finishes { IsNoneNext plb.now way Finish }
    ensures { MatchOption result (IsNoneMoving way plb.now) (IsNextSlot way plb.now) }
{
    match plb.least_next(way, NextStep::Land) {
        Some(slot) => Some(slot),
        None => next_lift(plb, way),
    }
}

// The same where no line lands either.
fn next_lift(plb: &Plb, way: Way) -> Option<u32>
    requires none_finishes { IsNoneNext plb.now way Finish }
    requires none_lands { IsNoneNext plb.now way Land }
    ensures { MatchOption result (IsNoneMoving way plb.now) (IsNextSlot way plb.now) }
{
    match plb.least_next(way, NextStep::Lift) {
        Some(slot) => Some(slot),
        None => None,
    }
}
