// What the memory asks of a device of lines.
ghost use Rattle.std.specs.Prelude.{◌≡◌, ◌<◌, ◌≤◌, ◌+◌, length, true, false};
ghost use Rattle.ff_base.specs.Count.{HasCountLeft};
ghost use Rattle.ff_base.specs.declared.numbers.TheConstants.{PAGE_LINES};
ghost use Rattle.ff_lines.specs.DeviceState.{DeviceState, HasRoom, IsDevice, IsDrained, IsPinned, IsPosted, line_at};
ghost use Rattle.ff_lines.specs.Works.{IsIdle, KeepsLines, Works};

use ff_base::{LINE_BYTES, PageNo};
use ff_model::Piece;

/// What a step of work for a page came to.
#[derive(Clone, Copy, Debug, PartialEq, Eq)]
pub enum Work {
    /// The page is resident. Nothing was done.
    Ready,
    /// One step was made.
    Stepped,
    /// Nothing was done, and nothing can be before this page is no longer pinned.
    Pinned(PageNo),
    /// The step's operation failed.
    Failed,
    /// The power is off.
    Off,
}

/// A device of pages that are read by line and written by posts. The waiting posts over the lines below them are
/// its bytes. A page is served only while it is resident; `work` makes it so, step by step.
pub trait LineDevice {
    /// What the device keeps that `work` alone changes.
    type Own;

    /// What a contract sees of the device.
    ghost state: { Self → DeviceState };

    ghost own: { Self → Self.Own };

    /// Whether the page is served.
    fn resident(&self, page: PageNo) -> bool
        ensures value { result ≡ (state self.now).resident page.0 }
        ensures known { IsDevice (state self.now) };

    /// Drains every post, and reads a line below 64. A `hit` is an access of a caller.
    fn read_line(&mut self, page: PageNo, line: u8, hit: bool) -> [u8; LINE_BYTES]
        requires resident { (state self.old).resident page.0 ≡ true }
        requires line { line < PAGE_LINES }
        ensures bytes { result ≡ line_at (state self.old) page.0 line }
        ensures drained { IsDrained (state self.old) (state self.new) }
        ensures own { own self.new ≡ own self.old };

    /// Lays a piece over a line below 64 from an offset on. It waits as the last post. A `position` is that of a
    /// caller's store in the history.
    fn post(&mut self, page: PageNo, line: u8, from: u8, piece: &Piece, position: Option<u32>)
        requires resident { (state self.old).resident page.0 ≡ true }
        requires line { line < PAGE_LINES }
        requires fits { from + length piece.now ≤ LINE_BYTES }
        requires room { HasRoom (state self.old) page.0 }
        ensures posted { IsPosted
            (record { page = page; line = line; from = from; bytes = piece.now; position = position })
            (state self.old) (state self.new) }
        ensures own { own self.new ≡ own self.old };

    /// Drains every post.
    fn drain_all(&mut self)
        ensures drained { IsDrained (state self.old) (state self.new) }
        ensures own { own self.new ≡ own self.old };

    /// Keeps the page resident from now on, or no longer.
    fn pin(&mut self, page: PageNo, on: bool)
        requires { (state self.old).resident page.0 ≡ true }
        ensures pinned { IsPinned page.0 on (state self.old) (state self.new) }
        ensures own { own self.new ≡ own self.old };

    /// Makes one step towards the page's being resident. With the power off it does nothing.
    fn work(&mut self, page: PageNo) -> Work
        requires page { page.0 < (state self.old).pages }
        requires used { HasCountLeft (state self.old).used }
        ensures answer { Works page.0 result (state self.old) (state self.new) }
        ensures kept { KeepsLines (state self.old) (state self.new) }
        ensures idle { IsIdle result → self.new ≡ self.old }
        ensures unpowered { (state self.old).on ≡ false → self.new ≡ self.old };
}
