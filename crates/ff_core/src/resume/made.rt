// The base, the books, the memory and the device of a session over a mounted store and cache.
ghost use Rattle.std.specs.Prelude.{◌≡◌, length, replicate, IfOk, IfErr, [], None};
ghost use Rattle.ff_base.specs.Geometry.{IsWithinLimits, capacity_of};
ghost use Rattle.ff_frames.specs.Frame.{free_frame};
ghost use Rattle.ff_mount.specs.Over.{IsCacheOver};
ghost use Rattle.ff_core.specs.Resume.{resumed_device, resumed_memory};

use crate::core_state::Room;
use crate::log::Log;
use crate::resume::page_table::make_table;
use crate::resume::supplies::{Supplies, supply};
use ff_base::{Geometry, PageBuf};
use ff_cache::Cache;
use ff_device::Device;
use ff_flash::Flash;
use ff_frames::Frames;
use ff_memory::Memory;
use ff_model::{History, Image};
use ff_mount::Mounted;
use ff_plb::Plb;
use ff_store::PageStore;
use ff_table::Table;
use ff_window::Window;
use std::alloc::Global;

// What a session is made of.
#[derive(Drop)]
pub struct Made<F: Flash> {
    pub base: Image,
    pub history: History,
    pub log: Log,
    pub memory: Memory,
    pub device: Device<F>,
}

// A memory in which nothing is in flight.
fn make_memory(frames: Frames, table: Table, plb: Plb, geometry: &Geometry) -> Memory
    requires { IsWithinLimits geometry.now }
    ensures { result ≡ record {
      frames = frames;
      table = table;
      slots = plb;
      capacity = capacity_of geometry.now;
    } }
{
    Memory::new(frames, table, plb, geometry.capacity())
}

// A device over a store and a cache, for which no post waits.
fn make_device<F: Flash>(
    store: PageStore<F>,
    cache: Cache,
    window: Window,
    page: PageBuf,
    geometry: &Geometry,
) -> Device<F>
    requires limits { IsWithinLimits geometry.now }
    requires over { IsCacheOver geometry.now store cache }
    requires none { store.waits ≡ None }
    requires window { window ≡ record { posts = []; room = geometry.now.window } }
    ensures { result ≡ resumed_device store cache geometry.now }
{
    store.known();
    Device::over(store, cache, window, page)
}

// The parts of a session over a store, a cache and a page table.
fn join<F: Flash>(
    store: PageStore<F>,
    cache: Cache,
    table: Table,
    supplies: Supplies,
    geometry: &Geometry,
) -> Made<F>
    requires limits { IsWithinLimits geometry.now }
    requires over { IsCacheOver geometry.now store cache }
    requires none { store.waits ≡ None }
    requires window { supplies.window ≡ record { posts = []; room = geometry.now.window } }
    ensures { result ≡ record {
      base = supplies.base;
      history = supplies.history;
      log = supplies.log;
      memory = record {
        frames = supplies.frames;
        table = table;
        slots = supplies.plb;
        capacity = capacity_of geometry.now;
      };
      device = resumed_device store cache geometry.now;
    } }
{
    let Supplies {
        base,
        history,
        log,
        frames,
        plb,
        window,
        page,
    } = supplies;
    Made {
        base,
        history,
        log,
        memory: make_memory(frames, table, plb, geometry),
        device: make_device(store, cache, window, page, geometry),
    }
}

// A session over these, with room of its own. The error is want of memory, and hands the parts back.
fn make_over<F: Flash>(
    alloc: Global,
    store: PageStore<F>,
    cache: Cache,
    table: Table,
    base: &Image,
    geometry: &Geometry,
    room: Room,
) -> Result<Made<F>, Mounted<F>>
    requires limits { IsWithinLimits geometry.now }
    requires over { IsCacheOver geometry.now store cache }
    requires none { store.waits ≡ None }
    ensures ok { IfOk result (λ made. made ≡ record {
      base = base.now;
      history = record { entries = []; room = room.calls };
      log = record { turns = []; room = room.turns };
      memory = record {
        frames = replicate geometry.now.frames free_frame;
        table = table;
        slots = replicate geometry.now.plb None;
        capacity = capacity_of geometry.now;
      };
      device = resumed_device store cache geometry.now;
    }) }
    ensures err { IfErr result (λ back. back
        ≡ record { store = store; cache = cache; marks = table.marks }) }
{
    match supply(alloc, base, geometry, room) {
        Ok(supplies) => Ok(join(store, cache, table, supplies, geometry)),
        Err(_) => Err(Mounted {
            store,
            cache,
            marks: table.into_marks(),
        }),
    }
}

// The base, the books, the memory and the device of a session. The error is want of memory, and hands the parts back.
pub fn make<F: Flash>(
    alloc: Global,
    mounted: Mounted<F>,
    base: &Image,
    geometry: &Geometry,
    room: Room,
) -> Result<Made<F>, Mounted<F>>
    requires limits { IsWithinLimits geometry.now }
    requires over { IsCacheOver geometry.now mounted.store mounted.cache }
    requires none { mounted.store.waits ≡ None }
    requires marks { length mounted.marks ≡ geometry.now.pages }
    requires size { length base.now.pages ≡ geometry.now.pages }
    ensures ok { IfOk result (λ made. made ≡ record {
      base = base.now;
      history = record { entries = []; room = room.calls };
      log = record { turns = []; room = room.turns };
      memory = resumed_memory geometry.now mounted.marks base.now;
      device = resumed_device mounted.store mounted.cache geometry.now;
    }) }
    ensures err { IfErr result (λ back. back ≡ mounted) }
{
    let Mounted {
        store,
        cache,
        marks,
    } = mounted;
    match make_table(alloc, marks, base, geometry.pages) {
        Ok(table) => make_over(alloc, store, cache, table, base, geometry, room),
        Err(marks) => Err(Mounted {
            store,
            cache,
            marks,
        }),
    }
}
