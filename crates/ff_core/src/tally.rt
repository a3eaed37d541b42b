// What the events of a session did, counted.
ghost use Rattle.std.specs.Prelude.{◌≡◌, ◌+◌};
ghost use Rattle.ff_base.specs.Count.{HasCountLeft};
ghost use Rattle.ff_core.specs.EventTally.{did_what, served_by, started_by};

use crate::action::Action;
use ff_memory::{Side, What};

/// What the events of a session did: served loads and stores by the side that served them, copied lines that landed or
/// were dropped, promotions that began, and retreats that began or promotions that were turned back.
#[derive(Clone, Copy, Debug, Default, PartialEq, Eq)]
pub struct EventTally {
    pub device: u64,
    pub host: u64,
    pub landed: u64,
    pub dropped: u64,
    pub promoted: u64,
    pub retreated: u64,
}

impl EventTally {
    // A call was served by this side.
    pub(crate) fn serve(&mut self, side: Side)
        requires { HasCountLeft (self.old.device + self.old.host) }
        ensures { self.new ≡ served_by side self.old }
    {
        match side {
            Side::Device => self.device += 1,
            Side::Host => self.host += 1,
            Side::Neither => {}
        }
    }

    // An action did this.
    pub(crate) fn count(&mut self, action: Action, what: What)
        requires { HasCountLeft (self.old.landed + self.old.dropped + self.old.promoted
            + self.old.retreated) }
        ensures { self.new ≡ did_what action what self.old }
    {
        match what {
            What::Landed => self.landed += 1,
            What::Dropped => self.dropped += 1,
            What::Started => self.start(action),
            _ => {}
        }
    }

    fn start(&mut self, action: Action)
        requires { HasCountLeft (self.old.promoted + self.old.retreated) }
        ensures { self.new ≡ started_by action self.old }
    {
        match action {
            Action::Promote(_) => self.promoted += 1,
            _ => self.retreated += 1,
        }
    }
}
