// The trait of a flash: operations on pages and blocks, which may fail or be cut off with the power.
ghost use Rattle.std.specs.Prelude.{◌≡◌, ◌<◌, length};
ghost use Rattle.ff_flash.specs.Cells.{Erases, IsClosed, IsSealed, Probes, Programs, ReadsBytes, Seals, cell_at, erased};
ghost use Rattle.ff_flash.specs.FlashState.{FlashState, HasOperationsLeft, IsFlashSound, Operates, powered_off, powered_up};
ghost use Rattle.ff_flash.specs.Injected.{stop_of};

use crate::Spare;
use ff_base::{Block, PageBuf, Ppn};

/// Why an operation of a flash did not do its work.
#[derive(Clone, Copy, Debug, PartialEq, Eq)]
pub enum FlashStop {
    /// The operation failed. The power is on.
    Failed,
    /// The power is off: it was before, or the operation was cut.
    Off,
}

/// What a probe tells of a page.
#[derive(Clone, Copy, Debug, PartialEq, Eq)]
pub enum Probe {
    Erased,
    /// Neither erased nor readable: a program of it or an erase of its block did not come to its end.
    Spoiled,
    /// Programmed, and not yet sealed.
    Closed,
    Sealed(Spare),
}

/// A flash of blocks of pages, whose operations may fail or be cut off with the power. The first five calls are its
/// operations. They are counted from 1 over its whole life, also those that failed or were cut, but none that is
/// called with the power off.
pub trait Flash {
    /// What a contract sees of the flash.
    ghost state: { Self → FlashState };

    /// Tells the state of a page, and the spare of a sealed one.
    fn probe(&mut self, at: Ppn) -> Result<Probe, FlashStop>
        requires place { at.0 < length (state self.old).cells }
        requires life { HasOperationsLeft (state self.old) }
        ensures cells { Probes (state self.old).cells at.0 result (state self.new).cells }
        ensures counts { Operates (state self.old) (stop_of result) (state self.new) };

    /// Reads the bytes of a sealed page.
    fn read(&mut self, at: Ppn, into: &mut PageBuf) -> Result<(), FlashStop>
        requires place { at.0 < length (state self.old).cells }
        requires sealed { IsSealed (cell_at (state self.old).cells at.0) }
        requires life { HasOperationsLeft (state self.old) }
        ensures cells { ReadsBytes (state self.old).cells at.0 into.old result into.new
            (state self.new).cells }
        ensures counts { Operates (state self.old) (stop_of result) (state self.new) };

    /// Writes the bytes and the spare of an erased page, which is closed then.
    fn program(&mut self, at: Ppn, from: &PageBuf, spare: Spare) -> Result<(), FlashStop>
        requires place { at.0 < length (state self.old).cells }
        requires erased { cell_at (state self.old).cells at.0 ≡ erased }
        requires life { HasOperationsLeft (state self.old) }
        ensures cells { Programs (state self.old).cells at.0 from.now spare result
            (state self.new).cells }
        ensures counts { Operates (state self.old) (stop_of result) (state self.new) };

    /// Seals a closed page.
    fn seal(&mut self, at: Ppn) -> Result<(), FlashStop>
        requires place { at.0 < length (state self.old).cells }
        requires closed { IsClosed (cell_at (state self.old).cells at.0) }
        requires life { HasOperationsLeft (state self.old) }
        ensures cells { Seals (state self.old).cells at.0 result (state self.new).cells }
        ensures counts { Operates (state self.old) (stop_of result) (state self.new) };

    /// Erases every page of a block.
    fn erase(&mut self, block: Block) -> Result<(), FlashStop>
        requires block { block.0 < (state self.old).blocks }
        requires life { HasOperationsLeft (state self.old) }
        ensures cells { Erases (state self.old).per_block (state self.old).cells block.0 result
            (state self.new).cells }
        ensures counts { Operates (state self.old) (stop_of result) (state self.new) };

    /// Turns the power off between two operations.
    fn power_off(&mut self)
        ensures { state self.new ≡ powered_off (state self.old) };

    /// Turns the power on.
    fn power_up(&mut self)
        ensures { state self.new ≡ powered_up (state self.old) };

    fn is_on(&self) -> bool
        ensures { result ≡ (state self.now).on };

    /// How often the flash has failed over its whole life.
    fn fault_count(&self) -> u64
        ensures count { result ≡ (state self.now).faults }
        ensures sound { IsFlashSound (state self.now) };

    /// How many operations were made over the flash's whole life.
    fn operation_count(&self) -> u64
        ensures { result ≡ (state self.now).operations };
}
