// The bytes of one call.
ghost use Rattle.std.specs.Prelude.{◌≡◌, ◌<◌, ◌≤◌, ◌++◌, ◌∷◌, [], List, ℕ, length};
ghost use Rattle.ff_model.specs.declared.piece.TheConstants.{PIECE_BYTES};

use arrayvec::ArrayVec;
use std::marker::Model;

/// The most bytes that a call loads or stores: those of a line.
pub const PIECE_BYTES: usize = 64;

/// The bytes of a load or a store, at most those of a line. A contract sees them as a list.
#[derive(Debug, Drop, PartialEq, Eq)]
pub struct Piece {
    bytes: ArrayVec<u8, PIECE_BYTES>,
}

impl Model for Piece {
    ghost Value = { List ℕ };

    ghost view = { λ p. p.bytes.items };

    ghost invariant = { λ p. length p.bytes.items ≤ PIECE_BYTES };

    ghost inverse = { λ bytes. record { bytes = record { items = bytes } } };
}

impl Piece {
    /// An empty piece.
    pub fn new() -> Piece
        ensures { result ≡ [] }
    {
        Piece {
            bytes: ArrayVec::new(),
        }
    }

    pub fn push(&mut self, byte: u8)
        requires { length self.old < PIECE_BYTES }
        ensures { self.new ≡ self.old ++ byte ∷ [] }
    {
        self.bytes.push(byte);
    }

    pub fn as_slice(&self) -> &[u8]
        ensures bytes { result.now ≡ self.now }
        ensures size { length self.now ≤ PIECE_BYTES }
    {
        self.bytes.as_slice()
    }

    /// A piece of these bytes. It takes no memory.
    pub fn from_slice(bytes: &[u8]) -> Piece
        requires { length bytes.now ≤ PIECE_BYTES }
        ensures { result ≡ bytes.now }
    {
        let mut piece = ArrayVec::new();
        match piece.try_extend_from_slice(bytes) {
            Ok(()) => Piece { bytes: piece },
            Err(_) => unreachable!(),
        }
    }

    /// A piece with the same bytes. It takes no memory.
    pub fn copy(&self) -> Piece
        ensures { result ≡ self.now }
    {
        Piece::from_slice(self.as_slice())
    }
}
