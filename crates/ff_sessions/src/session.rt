// A session that is over.
use ff_cache::Nv;
use ff_core::Record;
use ff_flash::SimFlash;
use ff_model::Image;
use ff_mount::MountStop;

/// A session that is over: the image that it started from, its record, what the battery and the flash kept of it, and
/// the image that the remount found.
#[derive(Drop)]
pub struct Session {
    pub base: Image,
    pub account: Record,
    pub nv: Nv,
    /// The flash as the session left it, before the mount.
    pub flash: SimFlash,
    /// None exactly where a planned fault or cut stopped the mount or the image.
    pub image: Option<Image>,
    /// Why there is no image. Want of memory is no reason.
    pub stop: Option<MountStop>,
}
