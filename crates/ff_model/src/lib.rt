//! What a session is judged by: the calls and their replies, the history of a session, the image that it starts
//! from, and the flat byte array that the replies are those of.
#![tactic(auto)]

mod counts;
mod flat;
mod history;
mod image;
mod judge;
mod op;
mod piece;

pub use counts::{Counts, Kind, KindTurns, TurnCounts};
pub use flat::flat_byte;
pub use history::{Entry, History};
pub use image::Image;
pub use judge::first_illegal;
pub use op::{Op, Reply};
pub use piece::{PIECE_BYTES, Piece};
