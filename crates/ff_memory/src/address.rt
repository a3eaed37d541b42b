// Which side serves a line, and the parts of an address.
ghost use Rattle.std.specs.Prelude.{◌≡◌, ◌+◌, ◌<◌, ◌≤◌, ◌/◌, ◌%◌, slice_range};
ghost use Rattle.ff_base.specs.declared.numbers.TheConstants.{PAGE_LINES};
ghost use Rattle.ff_memory.specs.LineBytes.{frame_in_flight, frame_of_home, line_in_page, page_of, offset_in_line, store_in_flight};
ghost use Rattle.ff_memory.specs.Stores.{carries_by};

use ff_base::{LINE_BYTES, PAGE_BYTES, PageNo};
use ff_model::Piece;
use ff_plb::Way;
use ff_table::Home;

pub fn frame_of_home(home: Home) -> Option<u32>
    ensures { result ≡ frame_of_home home }
{
    match home {
        Home::Ssd => None,
        Home::Host(frame) => Some(frame),
    }
}

/// The frame that serves a line of a page in flight.
pub fn frame_in_flight(way: Way, frame: u32, copied: bool) -> Option<u32>
    ensures { result ≡ frame_in_flight way frame copied }
{
    match (way, copied) {
        (Way::Coming, true) | (Way::Leaving, false) => Some(frame),
        (Way::Coming, false) | (Way::Leaving, true) => None,
    }
}

/// The frame that a store to a line of a page in flight goes to.
pub fn store_in_flight(way: Way, frame: u32, copied: bool) -> Option<u32>
    ensures { result ≡ store_in_flight way frame copied }
{
    match way {
        Way::Coming => Some(frame),
        Way::Leaving => frame_in_flight(way, frame, copied),
    }
}

/// Whether a store of so many bytes carries the rest of its line.
pub fn carries(way: Way, copied: bool, size: usize) -> bool
    ensures { result ≡ carries_by way copied size }
{
    match way {
        Way::Coming => !copied && size != LINE_BYTES,
        Way::Leaving => false,
    }
}

/// The parts of an address: its page, the line in the page, and the offset in the line.
#[derive(Clone, Copy)]
pub struct Address {
    pub page: PageNo,
    pub line: u8,
    pub from: u8,
}

impl Address {
    pub fn of(at: u32) -> Address
        ensures page { result.page.0 ≡ page_of at }
        ensures line { result.line ≡ line_in_page at }
        ensures from { result.from ≡ offset_in_line at }
        ensures within { result.line < PAGE_LINES }
    {
        Address {
            page: PageNo(at / PAGE_BYTES as u32),
            line: (at % PAGE_BYTES as u32 / LINE_BYTES as u32) as u8,
            from: (at % LINE_BYTES as u32) as u8,
        }
    }
}

/// So many bytes of a line, from an offset on.
pub fn piece_of(line: &[u8; LINE_BYTES], from: u8, len: u32) -> Piece
    requires { from + len ≤ LINE_BYTES }
    ensures { result ≡ slice_range line.now from (from + len) }
{
    let from = from as usize;
    Piece::from_slice(&line[from..from + len as usize])
}
