// How many rows, turns and losses of power a trace has so far, and whether a row more fits.
ghost use Rattle.std.specs.Prelude.{◌≡◌, ◌≤◌, ◌+◌, IsTrue};
ghost use Rattle.ff_trace.specs.Tally.{empty_tally, fits, form_fits, most_turns, turns_in, with_row, with_turns};

use crate::Row;
use ff_model::Kind;

/// The most rows of a trace, without the header.
pub const MAX_ROWS: u32 = 262_144;

/// The most turns of each kind.
pub const MAX_TURNS: u64 = 262_144;

/// The most losses of power, by rows and by the settings' cuts together.
pub const MAX_LOSSES: u64 = 16;

/// How many rows, turns of each kind and losses of power some rows have.
#[derive(Clone, Copy)]
pub(crate) struct Tally {
    pub rows: u32,
    pub promote: u32,
    pub evict: u32,
    pub collect: u32,
    pub drain: u32,
    pub losses: u32,
}

/// Where a trace is run, as far as its limits depend on it. Contracts name it.
#[derive(Clone, Copy)]
pub struct Limits {
    /// How many cuts of the power the settings have.
    pub cuts: u32,
    /// Whether the callers are threads. These lose no power by a row.
    pub threads: bool,
}

impl Tally {
    pub fn new() -> Tally
        ensures { result ≡ empty_tally }
    {
        Tally {
            rows: 0,
            promote: 0,
            evict: 0,
            collect: 0,
            drain: 0,
            losses: 0,
        }
    }

    fn turns(&self, kind: Kind) -> u32
        ensures { result ≡ turns_in self.now kind }
    {
        match kind {
            Kind::Promote => self.promote,
            Kind::Evict => self.evict,
            Kind::Collect => self.collect,
            Kind::Drain => self.drain,
        }
    }

    /// Whether the row may stand behind those that were counted.
    pub fn fits(&self, limits: Limits, row: &Row) -> bool
        ensures { result ≡ fits limits self.now row.now }
    {
        self.rows < MAX_ROWS && self.form_fits(limits, row)
    }

    fn form_fits(&self, limits: Limits, row: &Row) -> bool
        ensures { result ≡ form_fits limits self.now row.now }
    {
        match row {
            Row::Call { .. } => true,
            Row::Turns { kind, count } => {
                u64::from(self.turns(*kind)) + u64::from(*count) <= MAX_TURNS
            }
            Row::Power { .. } => {
                !limits.threads && u64::from(self.losses) + u64::from(limits.cuts) < MAX_LOSSES
            }
        }
    }

    /// Counts a row that fits.
    pub fn add(&mut self, limits: Limits, row: &Row)
        requires { IsTrue (fits limits self.old row.now) }
        ensures { self.new ≡ with_row self.old row.now }
    {
        self.rows += 1;
        match row {
            Row::Call { .. } => {}
            Row::Turns { kind, count } => self.add_turns(*kind, *count),
            Row::Power { .. } => self.losses += 1,
        }
    }

    fn add_turns(&mut self, kind: Kind, count: u32)
        requires { turns_in self.old kind + count ≤ most_turns }
        ensures { self.new ≡ with_turns self.old kind count }
    {
        match kind {
            Kind::Promote => self.promote += count,
            Kind::Evict => self.evict += count,
            Kind::Collect => self.collect += count,
            Kind::Drain => self.drain += count,
        }
    }
}
