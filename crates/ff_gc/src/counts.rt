// FlashCounts of flash operations by kind.
ghost use Rattle.std.specs.Prelude.{◌≡◌};
ghost use Rattle.ff_base.specs.Count.{HasCountLeft};
ghost use Rattle.ff_gc.specs.FlashCounts.{begun, no_counts, total_of};

/// A kind of flash operation that a store makes.
#[derive(Clone, Copy, Debug, PartialEq, Eq)]
pub enum OperationKind {
    Read,
    Program,
    Seal,
    Erase,
}

/// How many operations of each kind were begun, also those that failed or were cut.
#[derive(Clone, Copy, Debug, PartialEq, Eq)]
pub struct FlashCounts {
    pub reads: u64,
    pub programs: u64,
    pub seals: u64,
    pub erases: u64,
}

impl FlashCounts {
    pub fn new() -> FlashCounts
        ensures { result ≡ no_counts }
    {
        FlashCounts {
            reads: 0,
            programs: 0,
            seals: 0,
            erases: 0,
        }
    }

    /// FlashCounts one more.
    pub fn begin(&mut self, kind: OperationKind)
        requires { HasCountLeft (total_of self.old) }
        ensures { self.new ≡ begun kind self.old }
    {
        match kind {
            OperationKind::Read => self.reads += 1,
            OperationKind::Program => self.programs += 1,
            OperationKind::Seal => self.seals += 1,
            OperationKind::Erase => self.erases += 1,
        }
    }
}
