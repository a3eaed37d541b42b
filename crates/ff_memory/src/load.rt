// Loads.
ghost use Rattle.std.specs.Prelude.{◌≡◌, ◌+◌, ◌<◌, ◌≤◌, IsTrue, None, length, slice_range, true};
ghost use Rattle.ff_base.specs.declared.numbers.TheConstants.{LINE_BYTES, PAGE_LINES};
ghost use Rattle.ff_base.specs.Page.{line_of};
ghost use Rattle.ff_frames.specs.Frame.{referred_frame};
ghost use Rattle.ff_frames.specs.Frames.{frame_at};
ghost use Rattle.ff_lines.specs.DeviceState.{line_at};
ghost use Rattle.ff_model.specs.Spans.{is_span};
ghost use Rattle.ff_memory.specs.Loads.{IsLoad, IsLoadBy};
ghost use Rattle.ff_memory.specs.Located.{IsLocated};
ghost use Rattle.ff_memory.specs.Memory.{frame_set};
ghost use Rattle.ff_memory.specs.LineBytes.{SameLineBytes};

use crate::access::{Access, Side};
use crate::address::{Address, piece_of};
use crate::memory::Memory;
use ff_lines::LineDevice;
use ff_model::Reply;

fn load_device<D: LineDevice>(d: &mut D, at: Address, len: u32) -> Access
    requires line { at.line < PAGE_LINES }
    requires span { at.from + len ≤ LINE_BYTES }
    ensures load { (m : _) → IsLoadBy None ((D.state d.old).resident at.page.0) at.page.0
        (slice_range (line_at (D.state d.old) at.page.0 at.line) at.from (at.from + len))
        m (D.state d.old) result m (D.state d.new) }
    ensures own { D.own d.new ≡ D.own d.old }
{
    if !d.resident(at.page) {
        return Access::Miss(at.page);
    }
    let line = d.read_line(at.page, at.line, true);
    Access::Served(Reply::Bytes(piece_of(&line, at.from, len)), Side::Device)
}

impl Memory {
    /// Loads `len` bytes of one line, from the address `at`. The page is missed where the device serves the line and the
    /// page isn't resident.
    pub fn load<D: LineDevice>(&mut self, d: &mut D, at: u32, len: u32) -> Access
        requires span { IsTrue (is_span (length self.old.table.homes) at len) }
        requires located { IsLocated self.old (D.state d.old) }
        ensures load { IsLoad at len self.old (D.state d.old) result self.new (D.state d.new) }
        ensures located { IsLocated self.new (D.state d.new) }
        ensures lines { SameLineBytes self.old (D.state d.old) self.new (D.state d.new) }
        ensures own { D.own d.new ≡ D.own d.old }
    {
        let at = Address::of(at);
        match self.serving(at.page, at.line) {
            Some(frame) => self.load_frame(frame, at, len),
            None => load_device(d, at, len),
        }
    }

    fn load_frame(&mut self, frame: u32, at: Address, len: u32) -> Access
        requires frame { frame < length self.old.frames }
        requires line { at.line < PAGE_LINES }
        requires span { at.from + len ≤ LINE_BYTES }
        ensures access { result ≡ Access.Served
            (Reply.Bytes (slice_range (line_of (frame_at self.old.frames frame).bytes at.line)
            at.from (at.from + len)))
            Side.Host }
        ensures memory { self.new ≡ frame_set frame (referred_frame true) self.old }
    {
        let line = self.frames.line(frame, at.line);
        self.frames.refer(frame, true);
        Access::Served(Reply::Bytes(piece_of(&line, at.from, len)), Side::Host)
    }
}
