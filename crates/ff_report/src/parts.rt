// What the text of a session tells.

use ff_model::{Counts, History, Image, TurnCounts};

/// What the remount after a session came to.
#[derive(Clone, Copy)]
pub enum Remounted<'a> {
    /// The image that it found.
    Image(&'a Image),
    /// It met a fault of the flash.
    Fault,
    /// The power went.
    Off,
}

/// The parts of a session that its text tells, borrowed from their owner.
#[derive(Clone, Copy)]
pub struct SessionParts<'a> {
    /// The answered calls.
    pub history: &'a History,
    /// The background turns that were made.
    pub turns: TurnCounts,
    /// What the events did.
    pub counts: Counts,
    /// How many of the entries, from the first, the end of the session kept.
    pub kept: u32,
    pub image: Remounted<'a>,
}
