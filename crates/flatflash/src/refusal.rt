// Why a run gives no session.
ghost use Rattle.std.specs.Prelude.{◌≡◌};
ghost use Rattle.flatflash.specs.declared.refusal.Refusal.TheVariants as refusals;

use ff_base::NoMemory;
use ff_input::BadInput;
use std::alloc::AllocFailed;

/// Why a run gives no session.
#[derive(Clone, Copy, Debug, PartialEq, Eq)]
pub enum Refusal {
    /// Memory ran out. No contract says when that comes.
    NoMemory,
    /// The words aren't those of a command.
    Usage,
    /// The input can't be read, or isn't of its form.
    Input(BadInput),
}

impl From<NoMemory> for Refusal {
    ghost from_gives = { λ _ refusal. refusal ≡ refusals.NoMemory };

    fn from(_: NoMemory) -> Self {
        Refusal::NoMemory
    }
}

impl<T: Drop> From<AllocFailed<T>> for Refusal {
    ghost from_gives = { λ _ refusal. refusal ≡ refusals.NoMemory };

    fn from(_: AllocFailed<T>) -> Self {
        Refusal::NoMemory
    }
}
