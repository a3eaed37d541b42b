// A line of text that is being spelled.
ghost use Rattle.std.specs.Prelude.{◌≡◌, ◌≤◌, ◌+◌, ◌*◌, ◌++◌, [], decimal, length};
ghost use Rattle.hex.specs.Hex.{encode_lower};
ghost use Rattle.ff_report.specs.EntryText.{bytes_text};

use arrayvec::ArrayVec;
use ff_model::PIECE_BYTES;
use itoa::Buffer;
use std::marker::Model;

/// Room for the longest line: a store of a whole piece that is answered by a whole piece takes less
/// than 300 bytes.
pub const LINE_ROOM: usize = 320;

/// A line of text that is being spelled. A contract sees it as its bytes.
#[derive(Drop)]
pub struct Line {
    text: ArrayVec<u8, LINE_ROOM>,
}

impl Model for Line {
    ghost use Rattle.std.specs.Prelude.{List, ℕ};

    ghost Value = { List ℕ };

    ghost view = { λ a. a.text.items };
}

impl Line {
    /// An empty line.
    pub fn new() -> Line
        ensures { result ≡ [] }
    {
        Line {
            text: ArrayVec::new(),
        }
    }

    /// Its bytes.
    pub fn as_slice(&self) -> &[u8]
        ensures { result.now ≡ self.now }
    {
        self.text.as_slice()
    }

    /// Appends the text.
    pub fn text(&mut self, text: &[u8])
        requires { length self.old + length text.now ≤ LINE_ROOM }
        ensures text { self.new ≡ self.old ++ text.now }
        ensures size { length self.new ≡ length self.old + length text.now }
    {
        match self.text.try_extend_from_slice(text) {
            Ok(()) => {}
            Err(_) => unreachable!(),
        }
    }

    /// Appends the number in decimal digits.
    pub fn number(&mut self, number: u32)
        requires { length self.old + 10 ≤ LINE_ROOM }
        ensures text { self.new ≡ self.old ++ decimal number }
        ensures size { length self.new ≤ length self.old + 10 }
    {
        let mut buffer = Buffer::new();
        let digits = buffer.format(number);
        self.text(digits.as_bytes());
    }

    /// Appends the number in decimal digits.
    pub fn count(&mut self, count: u64)
        requires { length self.old + 20 ≤ LINE_ROOM }
        ensures text { self.new ≡ self.old ++ decimal count }
        ensures size { length self.new ≤ length self.old + 20 }
    {
        let mut buffer = Buffer::new();
        let digits = buffer.format(count);
        self.text(digits.as_bytes());
    }

    /// Appends the bytes as digits, or a dash where there is none.
    pub fn bytes(&mut self, bytes: &[u8])
        requires count { length bytes.now ≤ PIECE_BYTES }
        requires room { length self.old + 2 * PIECE_BYTES ≤ LINE_ROOM }
        ensures text { self.new ≡ self.old ++ bytes_text bytes.now }
        ensures size { length self.new ≤ length self.old + 2 * PIECE_BYTES }
    {
        if bytes.is_empty() {
            self.text(b"-");
        } else {
            self.digits(bytes);
        }
    }

    pub(crate) fn digits(&mut self, bytes: &[u8])
        requires count { length bytes.now ≤ PIECE_BYTES }
        requires room { length self.old + 2 * length bytes.now ≤ LINE_ROOM }
        ensures text { self.new ≡ self.old ++ encode_lower bytes.now }
        ensures size { length self.new ≡ length self.old + 2 * length bytes.now }
    {
        let mut room = [0; 2 * PIECE_BYTES];
        let digits = &mut room[..2 * bytes.len()];
        match hex::encode_to_slice(bytes, digits) {
            Ok(()) => self.text(digits),
            Err(_) => unreachable!(),
        }
    }
}
