// What a call of the program came to.
ghost use Rattle.std.specs.Prelude.{◌≡◌};
ghost use Rattle.flatflash.specs.Ending.{flushed_status};

use ff_io::Failed;
use ff_sessions::Session;

/// All was run and written.
pub const DONE: u8 = 0;

/// The words aren't those of a command.
pub const USAGE: u8 = 1;

/// The settings are refused.
pub const BAD_SETTINGS: u8 = 2;

/// The input is too long or not of its form.
pub const BAD_INPUT: u8 = 3;

/// A read failed.
pub const READ_FAULT: u8 = 4;

/// A write failed.
pub const WRITE_FAULT: u8 = 5;

/// Memory ran out.
pub const NO_MEMORY: u8 = 6;

/// The last session has no image: a planned fault or cut stopped its mount or its image.
pub const NO_IMAGE: u8 = 7;

/// What a call of the program came to: the status that it ends with, and its sessions.
#[derive(Drop)]
pub struct Outcome {
    pub status: u8,
    pub sessions: Vec<Session>,
}

/// The status after the sink was flushed.
pub fn status_after(flushed: Result<(), Failed>, status: u8) -> u8
    ensures { result ≡ flushed_status flushed status }
{
    match flushed {
        Ok(()) => status,
        Err(Failed) => {
            if status == NO_MEMORY {
                NO_MEMORY
            } else {
                WRITE_FAULT
            }
        }
    }
}
