// What a session over a mounted store takes memory for.
ghost use Rattle.std.specs.Prelude.{◌≡◌, replicate, IfOk, [], None};
ghost use Rattle.ff_base.specs.Geometry.{IsWithinLimits};
ghost use Rattle.ff_frames.specs.Frame.{free_frame};

use crate::core_state::Room;
use crate::log::Log;
use ff_base::{Geometry, NoMemory, PageBuf};
use ff_frames::Frames;
use ff_model::{History, Image};
use ff_plb::Plb;
use ff_window::Window;
use std::alloc::Global;

// What a session needs memory for, beside its policy and its page table.
#[derive(Drop)]
pub struct Supplies {
    pub base: Image,
    pub history: History,
    pub log: Log,
    pub frames: Frames,
    pub plb: Plb,
    pub window: Window,
    pub page: PageBuf,
}

pub fn supply(
    alloc: Global,
    base: &Image,
    geometry: &Geometry,
    room: Room,
) -> Result<Supplies, NoMemory>
    requires { IsWithinLimits geometry.now }
    ensures base { IfOk result (λ supplies. supplies.base ≡ base.now) }
    ensures history { IfOk result (λ supplies.
        supplies.history ≡ record { entries = []; room = room.calls }) }
    ensures log { IfOk result (λ supplies.
        supplies.log ≡ record { turns = []; room = room.turns }) }
    ensures frames { IfOk result (λ supplies.
        supplies.frames ≡ replicate geometry.now.frames free_frame) }
    ensures plb { IfOk result (λ supplies. supplies.plb ≡ replicate geometry.now.plb None) }
    ensures window { IfOk result (λ supplies.
        supplies.window ≡ record { posts = []; room = geometry.now.window }) }
{
    let base = base.copy(alloc)?;
    let Lists { history, log } = supply_lists(alloc, room)?;
    let Buffers {
        frames,
        plb,
        window,
        page,
    } = supply_buffers(alloc, geometry)?;
    Ok(Supplies {
        base,
        history,
        log,
        frames,
        plb,
        window,
        page,
    })
}

// The history and the log of a session that has not begun.
#[derive(Drop)]
struct Lists {
    history: History,
    log: Log,
}

fn supply_lists(alloc: Global, room: Room) -> Result<Lists, NoMemory>
    ensures { IfOk result (λ lists. lists ≡ record {
      history = record { entries = []; room = room.calls };
      log = record { turns = []; room = room.turns };
    }) }
{
    let history = History::new(alloc, room.calls)?;
    let log = Log::new(alloc, room.turns)?;
    Ok(Lists { history, log })
}

// Where it copies pages and keeps posts, all empty.
#[derive(Drop)]
struct Buffers {
    frames: Frames,
    plb: Plb,
    window: Window,
    page: PageBuf,
}

fn supply_buffers(alloc: Global, geometry: &Geometry) -> Result<Buffers, NoMemory>
    requires { IsWithinLimits geometry.now }
    ensures frames { IfOk result (λ buffers.
        buffers.frames ≡ replicate geometry.now.frames free_frame) }
    ensures plb { IfOk result (λ buffers. buffers.plb ≡ replicate geometry.now.plb None) }
    ensures window { IfOk result (λ buffers.
        buffers.window ≡ record { posts = []; room = geometry.now.window }) }
{
    let page = PageBuf::new(alloc)?;
    let frames = Frames::new(alloc, geometry.frames)?;
    let plb = Plb::new(alloc, geometry.plb)?;
    let window = Window::new(alloc, geometry.window)?;
    Ok(Buffers {
        frames,
        plb,
        window,
        page,
    })
}
