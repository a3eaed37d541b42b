// Why a mount or an image was refused.
ghost use Rattle.std.specs.Prelude.{◌≡◌};
ghost use Rattle.ff_mount.specs.Stops.{mount_stop};

use ff_flash::FlashStop;

/// Why a mount or an image was refused.
#[derive(Clone, Copy, Debug, PartialEq, Eq)]
pub enum MountStop {
    /// Memory ran out.
    NoMemory,
    /// An operation of the flash failed. The power is on.
    Fault,
    /// An operation of the flash was cut, and the power is off.
    Off,
}

pub(crate) fn stop_of(stop: FlashStop) -> MountStop
    ensures { result ≡ mount_stop stop }
{
    match stop {
        FlashStop::Failed => MountStop::Fault,
        FlashStop::Off => MountStop::Off,
    }
}
