// A sink into memory.
ghost use Rattle.std.specs.Prelude.{◌≡◌, ◌<◌, ◌≤◌, ◌+◌, ◌↔◌, ◌⊎◌, [], length, vec_capacity, vec_len, Some, IfOk, OnOk, OnErr, IsErr, Contains};
ghost use Rattle.std.specs.Io.KnownBytes.{Appends};
ghost use Rattle.ff_io.specs.Faults.{CountsFault};
ghost use Rattle.ff_io.specs.Known.{AppendsPrefix};
ghost use Rattle.ff_io.specs.Memory.{SinkState, next_count};

use crate::{Failed, Sink};
use ff_base::{NoMemory, append_reserved};
use std::alloc::Global;
use std::marker::Model;

/// A sink into memory that it reserves when it is made. Its writes fail at the listed call numbers,
/// counted from 1, and where a piece does not fit.
#[derive(Drop)]
pub struct MemorySink {
    bytes: Vec<u8>,
    room: usize,
    fail: Vec<u64>,
    calls: u64,
    faults: u64,
}

impl Model for MemorySink {
    ghost Value = { SinkState };

    ghost view = { λ s. record {
      written = s.bytes.items;
      room = s.room;
      fail = s.fail.items;
      calls = s.calls;
      faults = s.faults;
    } };

    ghost invariant = { λ s. (vec_len s.bytes ≤ s.room) × (s.room ≤ vec_capacity s.bytes) };
}

impl MemorySink {
    /// An empty sink with room for so many bytes.
    pub fn new(alloc: Global, room: usize, fail: Vec<u64>) -> Result<MemorySink, NoMemory>
        ensures { IfOk result (λ sink. sink ≡ record {
          written = [];
          room = room;
          fail = fail.items;
          calls = 0;
          faults = 0;
        }) }
    {
        let bytes = Vec::with_capacity(alloc, room)?;
        Ok(MemorySink {
            bytes,
            room,
            fail,
            calls: 0,
            faults: 0,
        })
    }

    /// The bytes written so far.
    pub fn written(&self) -> &[u8]
        ensures bytes { result.now ≡ self.now.written }
        ensures fits { length self.now.written ≤ self.now.room }
    {
        self.bytes.as_slice()
    }

    /// How many writes have failed.
    pub fn faults(&self) -> u64
        ensures { result ≡ self.now.faults }
    {
        self.faults
    }
}

impl Sink for MemorySink {
    ghost written = { λ s. Some s.written };

    ghost faults = { λ s. s.faults };

    fn write(&mut self, piece: &[u8]) -> Result<(), Failed>
        ensures ok { OnOk result
            (Appends (Some self.old.written) (Some self.new.written) piece.now) }
        ensures err { OnErr result
            (AppendsPrefix (Some self.old.written) (Some self.new.written) piece.now) }
        ensures faults { CountsFault result self.old.faults self.new.faults }

        // It fails at the listed calls and where the piece does not fit, and at no other, and then
        // appends nothing.
        ensures fails { IsErr result ↔ (Contains self.old.fail (next_count self.old.calls)
            ⊎ (self.old.room < length self.old.written + length piece.now)) }
        ensures kept { OnErr result (self.new.written ≡ self.old.written) }
        ensures counted { OnErr result (self.new.faults ≡ next_count self.old.faults) }
        ensures called { self.new.calls ≡ next_count self.old.calls }
        ensures same_list { self.new.fail ≡ self.old.fail }
        ensures same_room { self.new.room ≡ self.old.room }
    {
        self.calls = self.calls.saturating_add(1);
        let left = self.room - self.bytes.len();
        if self.fail.contains(&self.calls) || left < piece.len() {
            self.faults = self.faults.saturating_add(1);
            return Err(Failed);
        }
        append_reserved(&mut self.bytes, piece);
        Ok(())
    }
}
