// How an operation of a flash goes.
ghost use Rattle.std.specs.Prelude.{◌≡◌};
ghost use Rattle.ff_flash.specs.Injected.{injected_answer};

use crate::FlashStop;

/// What is injected into an operation.
#[derive(Clone, Copy)]
pub enum Injected {
    /// Nothing: it works.
    Nothing,
    Failure,
    /// A cut of the power in it, with the mask that says how far it came.
    Cut(u32),
    /// The power is off before it, so that it isn't made.
    PowerOff,
}

impl Injected {
    /// What the operation answers.
    pub fn answer(self) -> Result<(), FlashStop>
        ensures { result ≡ injected_answer self }
    {
        match self {
            Injected::Nothing => Ok(()),
            Injected::Failure => Err(FlashStop::Failed),
            Injected::Cut(_) | Injected::PowerOff => Err(FlashStop::Off),
        }
    }
}
