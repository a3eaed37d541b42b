// A posted store.
use ff_base::PageNo;
use ff_model::Piece;

/// A store that waits for its page's cached line: the piece that is laid over a line from an offset on, and
/// where it is a caller's, the store's position in the history.
#[derive(Debug, Drop, PartialEq, Eq)]
pub struct Post {
    pub page: PageNo,
    /// A line of the page, below 64.
    pub line: u8,
    /// The offset in the line of the piece's first byte.
    pub from: u8,
    /// At most `64 - from` bytes.
    pub bytes: Piece,
    pub position: Option<u32>,
}
