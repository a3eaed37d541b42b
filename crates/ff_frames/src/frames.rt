// The page frames, by number.
ghost use Rattle.std.specs.Prelude.{◌≡◌, ◌≢◌, ◌+◌, ◌<◌, ◌≤◌, ◌↔◌, ◌^◌, IfOk, IfSome, IfNone, IsNone, IsTrue, length, None, replicate};
ghost use Rattle.ff_base.specs.declared.numbers.TheConstants.{PAGE_LINES};
ghost use Rattle.ff_base.specs.Page.{line_of};
ghost use Rattle.ff_frames.specs.Frame.{cleaned_frame, filled_frame, free_frame, given_frame, referred_frame, taken_frame, written_frame};

use crate::frame::Frame;
use crate::used::UsedFrames;
use ff_base::{LINE_BYTES, NoMemory, PageNo};
use ff_lines::LineMask;
use ff_model::Piece;
use std::alloc::Global;
use std::marker::Model;

/// The page frames of the host memory. A contract sees them as a list.
#[derive(Drop)]
pub struct Frames {
    frames: Vec<Frame>,
    used: UsedFrames,
    free: u32,
}

impl Model for Frames {
    ghost use Rattle.std.specs.Prelude.{List};
    ghost use Rattle.ff_frames.specs.declared.frame.Frame.{Frame};

    ghost Value = { List Frame };

    ghost use Rattle.ff_frames.specs.FramesFields.{view_of, IsKept};

    ghost view = { view_of };

    ghost invariant = { IsKept };
}

// So many free frames.
fn free_frames(alloc: Global, count: u32) -> Result<Vec<Frame>, NoMemory>
    ensures { IfOk result (λ frames. frames.items ≡ replicate count free_frame) }
{
    let mut frames = Vec::with_capacity(alloc, count as usize)?;
    for _ in 0..count {
        frames.push(Frame::new(alloc)?)?;
    }
    Ok(frames)
}

impl Frames {
    ghost use Rattle.ff_frames.specs.Frames.{AreFramesSound, IsLeastFree, IsNoneFree, frame_at, free_count, with_frame};

    /// So many frames, at most 4,096 in a geometry, all of them free.
    pub fn new(alloc: Global, frames: u32) -> Result<Frames, NoMemory>
        requires { frames < 2 ^ 31 }
        ensures { IfOk result (λ made. made ≡ replicate frames free_frame) }
    {
        Ok(Frames {
            frames: free_frames(alloc, frames)?,
            used: UsedFrames::new(alloc, frames)?,
            free: frames,
        })
    }

    /// What all frames keep. For the prover alone.
    pub fn known(&self)
        ensures { AreFramesSound self.now }
    {
        let _ = &self.frames;
    }

    /// Gives the least free frame to a page, with no line dirty and not referred to.
    pub fn take(&mut self, page: PageNo) -> Option<u32>
        ensures none { IsNone result ↔ IsNoneFree self.old }
        ensures same { IfNone result (self.new ≡ self.old) }
        ensures least { IfSome result (IsLeastFree self.old) }
        ensures taken { IfSome result (λ frame.
            self.new ≡ with_frame self.old frame (taken_frame page (frame_at self.old frame))) }
    {
        let frame = self.used.least_unused()?;
        if frame as usize >= self.frames.len() {
            return None;
        }
        self.frames[frame as usize].take(page);
        self.used.set(frame);
        self.free -= 1;
        Some(frame)
    }

    /// Makes a frame free.
    pub fn give(&mut self, frame: u32)
        requires frame { frame < length self.old }
        requires used { (frame_at self.old frame).page ≢ None }
        ensures { self.new ≡ with_frame self.old frame (given_frame (frame_at self.old frame)) }
    {
        self.frames[frame as usize].give();
        self.used.clear(frame);
        self.free += 1;
    }

    /// How many frames are free.
    pub fn free(&self) -> u32
        ensures { result ≡ free_count self.now }
    {
        self.free
    }

    /// Whether no frame is free.
    pub fn is_full(&self) -> bool
        ensures { IsTrue result ↔ IsNoneFree self.now }
    {
        self.free == 0
    }

    /// How many frames there are.
    pub fn len(&self) -> u32
        ensures { result ≡ length self.now }
    {
        self.frames.len() as u32
    }

    /// The 64 bytes of a line below 64.
    pub fn line(&self, frame: u32, line: u8) -> [u8; LINE_BYTES]
        requires frame { frame < length self.now }
        requires line { line < PAGE_LINES }
        ensures { result ≡ line_of (frame_at self.now frame).bytes line }
    {
        self.frames[frame as usize].bytes.line(line)
    }

    /// Lays a piece over a line from an offset on. The line is dirty then.
    pub fn write(&mut self, frame: u32, line: u8, from: u8, piece: &Piece)
        requires frame { frame < length self.old }
        requires line { line < PAGE_LINES }
        requires fits { from + length piece.now ≤ LINE_BYTES }
        ensures { self.new ≡ with_frame self.old frame
            (written_frame line from piece.now (frame_at self.old frame)) }
    {
        self.frames[frame as usize].write(line, from, piece);
    }

    /// Sets a line's bytes, and leaves whether it is dirty.
    pub fn fill(&mut self, frame: u32, line: u8, bytes: &[u8; LINE_BYTES])
        requires frame { frame < length self.old }
        requires line { line < PAGE_LINES }
        ensures { self.new ≡ with_frame self.old frame
            (filled_frame line bytes.now (frame_at self.old frame)) }
    {
        self.frames[frame as usize].fill(line, bytes);
    }

    /// Makes a line clean.
    pub fn clean(&mut self, frame: u32, line: u8)
        requires frame { frame < length self.old }
        requires line { line < PAGE_LINES }
        ensures { self.new
            ≡ with_frame self.old frame (cleaned_frame line (frame_at self.old frame)) }
    {
        self.frames[frame as usize].clean(line);
    }

    /// The dirty lines of a frame.
    pub fn dirty(&self, frame: u32) -> LineMask
        requires { frame < length self.now }
        ensures { result ≡ (frame_at self.now frame).dirty }
    {
        self.frames[frame as usize].dirty
    }

    /// The page that a frame holds.
    pub fn page(&self, frame: u32) -> Option<PageNo>
        requires { frame < length self.now }
        ensures { result ≡ (frame_at self.now frame).page }
    {
        self.frames[frame as usize].page
    }

    /// Sets or clears whether a frame was referred to.
    pub fn refer(&mut self, frame: u32, on: bool)
        requires { frame < length self.old }
        ensures { self.new
            ≡ with_frame self.old frame (referred_frame on (frame_at self.old frame)) }
    {
        self.frames[frame as usize].refer(on);
    }

    /// Whether a frame was referred to.
    pub fn referred(&self, frame: u32) -> bool
        requires { frame < length self.now }
        ensures { result ≡ (frame_at self.now frame).referred }
    {
        self.frames[frame as usize].referred
    }
}
