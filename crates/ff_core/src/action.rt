// What an event does to the hierarchy, where it is not a call that is served.
use ff_base::PageNo;
use ff_memory::What;

/// What one event does, beside serving a call.
#[derive(Clone, Copy, Debug, PartialEq, Eq)]
pub enum Action {
    /// A step of the page in flight in this slot of the look-aside buffer.
    Advance(u32),
    /// The page that comes in by this slot turns back.
    TurnBack(u32),
    /// A step towards the page's being resident. Where its cache set is kept by pinned pages, it is a step of the one
    /// in the set's least way.
    Work(PageNo),
    /// The page begins to be copied to a frame.
    Promote(PageNo),
    /// The page begins to be copied back from its frame.
    Retreat(PageNo),
    /// The page of this frame, which the evictor chose, begins to be copied back.
    Evict(u32),
    /// A flush that waits is sealed, or the collector makes a step.
    Collect,
    /// The oldest posted store is drained.
    Drain,
}

/// What an action came to.
#[derive(Clone, Copy, Debug, PartialEq, Eq)]
pub enum Progress {
    Did(What),
    /// An operation of the flash failed.
    Failed,
    /// An operation of the flash was cut, and the power is off.
    Off,
}
