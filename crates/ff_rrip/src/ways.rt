// The ways of a cache set: what a hit and a fill make of a way's value, and the way that gives way.
ghost use Rattle.std.specs.Prelude.{◌≡◌, ◌<◌, ◌≤◌, ◌↔◌, IfOk, IfSome, IfNone, IsNone, length, replicate, slice_index, slice_set};
ghost use Rattle.ff_rrip.specs.Ways.{IsVictimWay, NoneAllowed, distant_value, long_value, near_value};

use crate::values::{DISTANT, LONG, NEAR, victim};
use ff_base::NoMemory;
use std::alloc::Global;
use std::marker::Model;

/// The ways of a cache set, each with a value from 0, expected next, to 3, expected last. A contract sees them as the
/// list of the values.
#[derive(Drop)]
pub struct Ways {
    values: Vec<u8>,
}

impl Model for Ways {
    ghost use Rattle.std.specs.Prelude.{List, ℕ};

    ghost Value = { List ℕ };

    ghost use Rattle.ff_rrip.specs.WaysFields.{view_of, IsKept};

    ghost view = { view_of };

    ghost invariant = { IsKept };
}

impl Ways {
    /// Every way is expected last.
    pub fn new(alloc: Global, ways: u32) -> Result<Ways, NoMemory>
        requires { ways ≤ 32 }
        ensures { IfOk result (λ made. made ≡ replicate ways distant_value) }
    {
        let values = vec![in alloc; DISTANT; ways as usize]?;
        Ok(Ways { values })
    }

    /// The way was used again.
    pub fn hit(&mut self, way: u32)
        requires { way < length self.old }
        ensures { self.new ≡ slice_set self.old way near_value }
    {
        self.values[way as usize] = NEAR;
    }

    /// The way was filled.
    pub fn insert(&mut self, way: u32)
        requires { way < length self.old }
        ensures { self.new ≡ slice_set self.old way long_value }
    {
        self.values[way as usize] = LONG;
    }

    /// The way that gives way, of those whose bit is 1: way w is bit w. It takes no memory.
    pub fn victim(&mut self, allowed: u32) -> Option<u32>
        ensures found { IfSome result (IsVictimWay allowed self.old self.new) }
        ensures none { IsNone result ↔ NoneAllowed self.old allowed }
        ensures same { IfNone result (self.new ≡ self.old) }
        ensures ways { length self.new ≡ length self.old }
    {
        victim(&mut self.values, allowed)
    }

    /// The value of a way.
    pub fn value(&self, way: u32) -> u8
        requires { way < length self.now }
        ensures value { result ≡ slice_index self.now way }
        ensures small { result ≤ distant_value }
    {
        self.values[way as usize]
    }
}
