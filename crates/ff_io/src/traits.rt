// Where bytes come from and where they go.
ghost use Rattle.std.specs.Prelude.{◌≡◌, ◌<◌, ◌≤◌, ℕ, List, Option, drop, length, take, IfOk, OnOk, OnErr};
ghost use Rattle.std.specs.Io.KnownBytes.{Appends, Consumes, IsAtEnd, Keeps};
ghost use Rattle.ff_io.specs.Faults.{CountsFault};
ghost use Rattle.ff_io.specs.Known.{AppendsPrefix};

/// A read or a write failed.
#[derive(Clone, Copy, Debug, PartialEq, Eq)]
pub struct Failed;

/// Where bytes come from.
pub trait Source {
    /// The bytes that are left, where the source tells them.
    ghost left: { Self → Option (List ℕ) };

    /// How often a read has failed, a count of 64 bits.
    ghost faults: { Self → ℕ };

    /// Reads some bytes to the front of `into` and says how many. With room, 0 is the end of the
    /// input.
    fn read(&mut self, into: &mut [u8]) -> Result<usize, Failed>
        ensures bound { IfOk result (λ n. n ≤ length into.old) }
        ensures taken { IfOk result (λ n.
            Consumes (left self.old) (left self.new) (take n into.new)) }
        ensures end { IfOk result (λ n. n ≡ 0 → 0 < length into.old → IsAtEnd (left self.old)) }
        ensures behind { IfOk result (λ n. drop n into.new ≡ drop n into.old) }
        ensures kept { OnErr result (Keeps (left self.old) (left self.new)) }
        ensures unchanged { OnErr result (into.new ≡ into.old) }
        ensures faults { CountsFault result (faults self.old) (faults self.new) };
}

/// Where bytes go.
pub trait Sink {
    /// The bytes written so far, where the sink tells them.
    ghost written: { Self → Option (List ℕ) };

    /// How often a write has failed, a count of 64 bits.
    ghost faults: { Self → ℕ };

    /// Appends the whole piece, or fails with a prefix of it appended.
    fn write(&mut self, piece: &[u8]) -> Result<(), Failed>
        ensures ok { OnOk result (Appends (written self.old) (written self.new) piece.now) }
        ensures err { OnErr result
            (AppendsPrefix (written self.old) (written self.new) piece.now) }
        ensures faults { CountsFault result (faults self.old) (faults self.new) };
}
