// A source in memory.
ghost use Rattle.std.specs.Prelude.{◌≡◌, ◌<◌, ◌≤◌, ◌↔◌, length, take, drop, min, vec_len, Some, IfOk, OnErr, IsErr, Contains};
ghost use Rattle.std.specs.Io.KnownBytes.{Consumes, IsAtEnd, Keeps};
ghost use Rattle.ff_io.specs.Faults.{CountsFault};
ghost use Rattle.ff_io.specs.Memory.{SourceState, next_count};

use crate::front::copy_front;
use crate::{Failed, Source};
use std::marker::Model;

/// A source over bytes in memory, whose reads fail at the listed call numbers, counted from 1.
#[derive(Drop)]
pub struct MemorySource {
    bytes: Vec<u8>,
    at: usize,
    fail: Vec<u64>,
    calls: u64,
    faults: u64,
}

impl Model for MemorySource {
    ghost Value = { SourceState };

    ghost view = { λ s. record {
      left = drop s.at s.bytes.items;
      fail = s.fail.items;
      calls = s.calls;
      faults = s.faults;
    } };

    ghost invariant = { λ s. s.at ≤ vec_len s.bytes };
}

impl MemorySource {
    /// A source of all these bytes.
    pub fn new(bytes: Vec<u8>, fail: Vec<u64>) -> MemorySource
        ensures { result ≡ record {
          left = bytes.items;
          fail = fail.items;
          calls = 0;
          faults = 0;
        } }
    {
        MemorySource {
            bytes,
            at: 0,
            fail,
            calls: 0,
            faults: 0,
        }
    }

    /// How many reads have failed.
    pub fn faults(&self) -> u64
        ensures { result ≡ self.now.faults }
    {
        self.faults
    }
}

impl Source for MemorySource {
    ghost left = { λ s. Some s.left };

    ghost faults = { λ s. s.faults };

    fn read(&mut self, into: &mut [u8]) -> Result<usize, Failed>
        ensures bound { IfOk result (λ n. n ≤ length into.old) }
        ensures taken { IfOk result (λ n.
            Consumes (Some self.old.left) (Some self.new.left) (take n into.new)) }
        ensures end { IfOk result (λ n.
            n ≡ 0 → 0 < length into.old → IsAtEnd (Some self.old.left)) }
        ensures behind { IfOk result (λ n. drop n into.new ≡ drop n into.old) }
        ensures kept { OnErr result (Keeps (Some self.old.left) (Some self.new.left)) }
        ensures unchanged { OnErr result (into.new ≡ into.old) }
        ensures faults { CountsFault result self.old.faults self.new.faults }

        // It fails at the listed calls and at no other.
        ensures fails { IsErr result ↔ Contains self.old.fail (next_count self.old.calls) }
        ensures count { IfOk result (λ n.
            n ≡ min (length into.old) (length self.old.left)) }
        ensures counted { OnErr result (self.new.faults ≡ next_count self.old.faults) }
        ensures called { self.new.calls ≡ next_count self.old.calls }
        ensures same_list { self.new.fail ≡ self.old.fail }
    {
        self.calls = self.calls.saturating_add(1);
        if self.fail.contains(&self.calls) {
            self.faults = self.faults.saturating_add(1);
            return Err(Failed);
        }
        let count = copy_front(&self.bytes[self.at..], into);
        self.at += count;
        Ok(count)
    }
}
