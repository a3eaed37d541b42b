// One page in flight.
ghost use Rattle.std.specs.Prelude.{ℕ, ◌≡◌, ◌<◌, ◌↔◌, IfSome, IsTrue, None, Some, not};
ghost use Rattle.ff_base.specs.declared.numbers.TheConstants.{PAGE_LINES};
ghost use Rattle.ff_lines.specs.LineMask.{has_line, mask_others, mask_with};
ghost use Rattle.ff_plb.specs.NextStep.{IsNext};
ghost use Rattle.ff_plb.specs.Slot.{IsFlying, after_landing, after_lift, after_store, after_turn, landing_of, without_line};

use ff_base::{LINE_BYTES, PageNo};
use ff_lines::LineMask;

/// Which way a page is copied.
#[derive(Clone, Copy, Debug, PartialEq, Eq)]
pub enum Way {
    /// From the SSD to a frame.
    Coming,
    /// From a frame to the SSD.
    Leaving,
}

/// A line that is under way: its number in the page, below 64, and the bytes that were lifted.
#[derive(Clone, Copy, Debug, PartialEq, Eq)]
pub struct Flight {
    pub line: u8,
    pub bytes: [u8; LINE_BYTES],
}

/// An entry of the buffer: a page in flight, and its frame.
#[derive(Clone, Copy, Debug, PartialEq, Eq)]
pub struct Slot {
    pub page: PageNo,
    pub frame: u32,
    pub way: Way,
    /// The lines that are copied.
    pub bits: LineMask,
    pub flight: Option<Flight>,
}

/// The next step of a page in flight.
#[derive(Clone, Copy, Debug, PartialEq, Eq)]
pub enum NextStep {
    /// It comes to its new home: every line is copied and none is under way.
    Finish,
    /// The line that is under way lands.
    Land,
    /// Another line is lifted.
    Lift,
}

/// What became of a flight.
#[derive(Clone, Copy, Debug, PartialEq, Eq)]
pub enum Landing {
    Landed(Flight),
    /// The line was stored to meanwhile.
    Dropped,
}

// The flight, unless it is of this line.
fn other_flight(flight: Option<Flight>, line: u8) -> Option<Flight>
    ensures { result ≡ without_line line flight }
{
    match flight {
        Some(flight) if flight.line == line => None,
        other => other,
    }
}

impl Slot {
    // Whether its next step is this.
    pub(crate) fn is_next(&self, step: NextStep) -> bool
        ensures { IsTrue result ↔ IsNext step self.now }
    {
        match step {
            NextStep::Finish => self.flight.is_none() && self.bits.first_clear().is_none(),
            NextStep::Land => self.flight.is_some(),
            NextStep::Lift => self.flight.is_none() && self.bits.first_clear().is_some(),
        }
    }

    pub(crate) fn lifted(self, flight: Flight) -> Slot
        ensures { result ≡ after_lift flight self }
    {
        Slot {
            flight: Some(flight),
            ..self
        }
    }

    // What becomes of its flight.
    pub(crate) fn landing(&self) -> Landing
        requires { IsFlying self.now }
        ensures { IfSome self.now.flight (λ flight. result ≡ landing_of flight self.now) }
    {
        match self.flight {
            Some(flight) if self.bits.has(flight.line) => Landing::Dropped,
            Some(flight) => Landing::Landed(flight),
            None => unreachable!(),
        }
    }

    pub(crate) fn landed(self) -> Slot
        requires { IsFlying self }
        ensures { result ≡ after_landing self }
    {
        match self.flight {
            Some(flight) => self.without_flight(flight.line),
            None => unreachable!(),
        }
    }

    fn without_flight(self, line: u8) -> Slot
        requires { line < PAGE_LINES }
        ensures { result ≡ record self { bits = mask_with self.bits line; flight = None } }
    {
        let mut bits = self.bits;
        bits.set(line);
        Slot {
            bits,
            flight: None,
            ..self
        }
    }

    pub(crate) fn stored(self, line: u8) -> Slot
        requires { line < PAGE_LINES }
        ensures { result ≡ after_store line self }
    {
        match self.way {
            Way::Coming => self.copied(line),
            Way::Leaving => Slot {
                flight: other_flight(self.flight, line),
                ..self
            },
        }
    }

    fn copied(self, line: u8) -> Slot
        requires { line < PAGE_LINES }
        ensures { result ≡ record self { bits = mask_with self.bits line } }
    {
        let mut bits = self.bits;
        bits.set(line);
        Slot { bits, ..self }
    }

    pub(crate) fn turned(self, dirty: LineMask) -> Slot
        ensures entry { result ≡ after_turn dirty self }
        ensures copied { (line : ℕ) → line < PAGE_LINES
            → has_line (mask_others dirty) line ≡ not (has_line dirty line) }
    {
        Slot {
            way: Way::Leaving,
            bits: dirty.complement(),
            flight: None,
            ..self
        }
    }
}
