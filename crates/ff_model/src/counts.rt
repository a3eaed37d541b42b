// Background turns, and what the events of a session did, counted.
ghost use Rattle.std.specs.Prelude.{◌≡◌};
ghost use Rattle.ff_model.specs.Counts.{HasCountsLeft, turned, turns_of, with_turn};

/// The kinds of background turns.
#[derive(Clone, Copy, Debug, PartialEq, Eq)]
pub enum Kind {
    /// A step of moving a hot page from the device to a frame of the host.
    Promote,
    /// A step of moving a page from a frame back to the device.
    Evict,
    /// A step of the garbage collector.
    Collect,
    /// The oldest posted store arrives at the device.
    Drain,
}

/// What the events of a session did.
#[derive(Clone, Copy, Debug, Default, PartialEq, Eq)]
pub struct Counts {
    /// Loads and stores that the device served.
    pub device: u64,
    /// Loads and stores that a frame of the host served.
    pub host: u64,
    /// Copied lines that landed, of both directions.
    pub landed: u64,
    /// Copied lines that were dropped, since the line was stored meanwhile.
    pub dropped: u64,
    /// Promotions that began.
    pub promoted: u64,
    /// Retreats that began, and promotions that were turned back.
    pub retreated: u64,
    /// Reads of the flash that began, also those that failed or were cut. So are the next three.
    pub reads: u64,
    pub programs: u64,
    pub seals: u64,
    pub erases: u64,
    /// How often the flash failed.
    pub faults: u64,
}

/// The turns of a kind: how many were made, and how many of those did something.
#[derive(Clone, Copy, Debug, Default, PartialEq, Eq)]
pub struct KindTurns {
    pub made: u32,
    pub did: u32,
}

/// The turns of each kind.
#[derive(Clone, Copy, Debug, Default, PartialEq, Eq)]
pub struct TurnCounts {
    pub promote: KindTurns,
    pub evict: KindTurns,
    pub collect: KindTurns,
    pub drain: KindTurns,
}

impl TurnCounts {
    /// The turns of one kind.
    pub fn of(&self, kind: Kind) -> KindTurns
        ensures { result ≡ turns_of self.now kind }
    {
        match kind {
            Kind::Promote => self.promote,
            Kind::Evict => self.evict,
            Kind::Collect => self.collect,
            Kind::Drain => self.drain,
        }
    }

    /// Counts a turn that was made, and that did something or found nothing to do.
    pub fn add(&mut self, kind: Kind, did: bool)
        requires { HasCountsLeft (turns_of self.old kind) }
        ensures { self.new ≡ turned self.old kind did }
    {
        match kind {
            Kind::Promote => self.promote = one_more(self.promote, did),
            Kind::Evict => self.evict = one_more(self.evict, did),
            Kind::Collect => self.collect = one_more(self.collect, did),
            Kind::Drain => self.drain = one_more(self.drain, did),
        }
    }
}

fn one_more(turns: KindTurns, did: bool) -> KindTurns
    requires { HasCountsLeft turns }
    ensures { result ≡ with_turn turns did }
{
    KindTurns {
        made: turns.made + 1,
        did: if did { turns.did + 1 } else { turns.did },
    }
}
