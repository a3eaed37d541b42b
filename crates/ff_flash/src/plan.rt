// A plan of faults: which operations fail, and in which the power is cut.
ghost use Rattle.std.specs.Prelude.{◌≡◌, ◌↔◌, IfOk, IsTrue};
ghost use Rattle.ff_flash.specs.Plans.{planned_of};

use ff_base::NoMemory;
use std::alloc::Global;

/// A cut of the power in an operation.
#[derive(Clone, Copy, Debug, PartialEq, Eq)]
pub struct CutAt {
    /// The operation's number, counted from 1 over the flash's whole life.
    pub at: u64,
    /// How far the operation came.
    pub mask: u32,
    /// How many of the waiting posts arrive before the power is gone.
    pub arrive: u32,
}

/// At which operations a simulated flash fails, and at which the power is cut.
#[derive(Debug, Drop)]
pub struct Plan {
    pub fail: Vec<u64>,
    pub cuts: Vec<CutAt>,
}

impl Plan {
    /// An equal plan.
    pub fn copy(&self, alloc: Global) -> Result<Plan, NoMemory>
        ensures { IfOk result (λ plan. planned_of plan ≡ planned_of self.now) }
    {
        let mut fail = Vec::with_capacity(alloc, self.fail.len())?;
        fail.extend_from_slice(&self.fail)?;
        let mut cuts = Vec::with_capacity(alloc, self.cuts.len())?;
        cuts.extend_from_slice(&self.cuts)?;
        Ok(Plan { fail, cuts })
    }

    /// Whether the lists are equal.
    pub(crate) fn is(&self, other: &Plan) -> bool
        ensures { IsTrue result ↔ (planned_of self.now ≡ planned_of other.now) }
    {
        same_numbers(&self.fail, &other.fail) && same_cuts(&self.cuts, &other.cuts)
    }
}

fn same_numbers(numbers: &[u64], others: &[u64]) -> bool
    ensures { IsTrue result ↔ (numbers.now ≡ others.now) }
{
    numbers == others
}

fn same_cuts(cuts: &[CutAt], others: &[CutAt]) -> bool
    ensures { IsTrue result ↔ (cuts.now ≡ others.now) }
{
    cuts == others
}
