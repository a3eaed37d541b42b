// How a first session begins.
ghost use Rattle.std.specs.Prelude.{◌≡◌, replicate, IfOk, IfErr, MatchResult, []};
ghost use Rattle.ff_base.specs.Geometry.{IsWithinLimits, capacity_of};
ghost use Rattle.ff_cache.specs.Cache.{fresh_cache};
ghost use Rattle.ff_memory.specs.Memory.{fresh_memory};
ghost use Rattle.ff_model.specs.Image.{empty_content};
ghost use Rattle.ff_table.specs.Table.{fresh_table};
ghost use Rattle.ff_gc.specs.FlashCounts.{no_counts};
ghost use Rattle.ff_model.specs.Legal.{opening_of};
ghost use Rattle.ff_core.specs.Fresh.{IsFreshFlash, fresh_core, fresh_device};
ghost use Rattle.ff_policy.specs.Policy.{fresh_policy};
ghost use Rattle.ff_core.specs.EventTally.{no_tally};

use crate::core_state::{Core, Room};
use crate::hierarchy::Hierarchy;
use crate::log::Log;
use crate::state::State;
use crate::tally::EventTally;
use ff_base::{Geometry, Marks, NoMemory, PageBuf};
use ff_cache::Cache;
use ff_device::Device;
use ff_evict::{Evictor, Pick, Picker};
use ff_flash::Flash;
use ff_frames::Frames;
use ff_gc::FlashCounts;
use ff_memory::Memory;
use ff_model::{History, Image};
use ff_plb::Plb;
use ff_policy::{Policy, Tune, Tuner};
use ff_store::PageStore;
use ff_table::Table;
use ff_window::Window;
use std::alloc::Global;

/// What a core that could not be made hands back, for want of memory.
#[derive(Drop)]
pub struct FreshBack<F: Flash, T: Tune, E: Pick> {
    pub flash: F,
    pub tuner: Tuner<T>,
    pub picker: Picker<E>,
}

// What a session keeps beside its device and its policy.
#[derive(Drop)]
struct Books {
    base: Image,
    history: History,
    log: Log,
    memory: Memory,
}

fn make_table(alloc: Global, pages: u32) -> Result<Table, NoMemory>
    ensures { IfOk result (λ table. table ≡ fresh_table pages (replicate pages 0)) }
{
    let marks = Marks::new(alloc, pages)?;
    match Table::new(alloc, pages, marks) {
        Ok(table) => Ok(table),
        Err(_) => Err(NoMemory),
    }
}

fn make_memory(alloc: Global, geometry: &Geometry) -> Result<Memory, NoMemory>
    requires { IsWithinLimits geometry.now }
    ensures { IfOk result (λ memory. memory ≡ fresh_memory geometry.now.frames geometry.now.pages
        (replicate geometry.now.pages 0) geometry.now.plb (capacity_of geometry.now)) }
{
    let frames = Frames::new(alloc, geometry.frames)?;
    let table = make_table(alloc, geometry.pages)?;
    let plb = Plb::new(alloc, geometry.plb)?;
    Ok(Memory::new(frames, table, plb, geometry.capacity()))
}

fn make_books(alloc: Global, geometry: &Geometry, room: Room) -> Result<Books, NoMemory>
    requires { IsWithinLimits geometry.now }
    ensures { IfOk result (λ books. books ≡ record {
      base = empty_content geometry.now.pages;
      history = record { entries = []; room = room.calls };
      log = record { turns = []; room = room.turns };
      memory = fresh_memory geometry.now.frames geometry.now.pages (replicate geometry.now.pages 0)
          geometry.now.plb (capacity_of geometry.now);
    }) }
{
    Ok(Books {
        base: Image::new(alloc, geometry.pages)?,
        history: History::new(alloc, room.calls)?,
        log: Log::new(alloc, room.turns)?,
        memory: make_memory(alloc, geometry)?,
    })
}

// An empty cache, an empty window and a page.
#[derive(Drop)]
struct Buffers {
    cache: Cache,
    window: Window,
    page: PageBuf,
}

fn make_buffers(alloc: Global, geometry: &Geometry) -> Result<Buffers, NoMemory>
    requires { IsWithinLimits geometry.now }
    ensures cache { IfOk result (λ buffers.
        buffers.cache ≡ fresh_cache geometry.now.sets geometry.now.ways) }
    ensures window { IfOk result (λ buffers.
        buffers.window ≡ record { posts = []; room = geometry.now.window }) }
{
    Ok(Buffers {
        cache: Cache::new(alloc, geometry)?,
        window: Window::new(alloc, geometry.window)?,
        page: PageBuf::new(alloc)?,
    })
}

// A device over a flash of which every page is erased. The error is want of memory, and hands the flash back.
fn make_device<F: Flash>(alloc: Global, flash: F, geometry: &Geometry) -> Result<Device<F>, F>
    requires limits { IsWithinLimits geometry.now }
    requires flash { IsFreshFlash geometry.now (F.state flash) }
    ensures ok { IfOk result (λ device. device ≡ fresh_device (F.state flash) geometry.now) }
    ensures err { IfErr result (λ back. back ≡ flash) }
{
    let Ok(buffers) = make_buffers(alloc, geometry) else {
        return Err(flash);
    };
    let store = PageStore::new(alloc, flash, geometry)?;
    Ok(Device::over(store, buffers.cache, buffers.window, buffers.page))
}

// What a session is made of.
#[derive(Drop)]
struct Made<F: Flash> {
    books: Books,
    device: Device<F>,
}

// The books and the device of a session. The error is want of memory, and hands the flash back.
fn make<F: Flash>(alloc: Global, flash: F, geometry: &Geometry, room: Room) -> Result<Made<F>, F>
    requires limits { IsWithinLimits geometry.now }
    requires flash { IsFreshFlash geometry.now (F.state flash) }
    ensures ok { IfOk result (λ made. made ≡ record {
      books = record {
        base = empty_content geometry.now.pages;
        history = record { entries = []; room = room.calls };
        log = record { turns = []; room = room.turns };
        memory = fresh_memory geometry.now.frames geometry.now.pages
            (replicate geometry.now.pages 0) geometry.now.plb (capacity_of geometry.now);
      };
      device = fresh_device (F.state flash) geometry.now;
    }) }
    ensures err { IfErr result (λ back. back ≡ flash) }
{
    match make_books(alloc, geometry, room) {
        Ok(books) => make_over(alloc, flash, geometry, books),
        Err(_) => Err(flash),
    }
}

fn make_over<F: Flash>(
    alloc: Global,
    flash: F,
    geometry: &Geometry,
    books: Books,
) -> Result<Made<F>, F>
    requires limits { IsWithinLimits geometry.now }
    requires flash { IsFreshFlash geometry.now (F.state flash) }
    ensures ok { IfOk result (λ made. made ≡ record {
      books = books;
      device = fresh_device (F.state flash) geometry.now;
    }) }
    ensures err { IfErr result (λ back. back ≡ flash) }
{
    match make_device(alloc, flash, geometry) {
        Ok(device) => Ok(Made { books, device }),
        Err(flash) => {
            drop(books);
            Err(flash)
        }
    }
}

// The parts of a session.
fn assemble<F: Flash, T: Tune, E: Pick>(
    made: Made<F>,
    policy: Policy<T>,
    picker: Picker<E>,
    geometry: Geometry,
) -> State<F, T, E>
    ensures { result ≡ record {
      opening = opening_of made.books.base geometry 0 made.device.store.world.flash.faults;
      geometry = geometry;
      from_counts = no_counts;
      history = made.books.history;
      events = 0;
      log = made.books.log;
      tally = no_tally;
      hierarchy = record {
        memory = made.books.memory;
        device = made.device;
        policy = policy;
        evictor = record { hand = 0; picker = picker };
      };
    } }
{
    let Made { books, device } = made;
    let from_faults = device.store().flash().fault_count();
    State {
        base: books.base,
        geometry,
        from_event: 0,
        from_faults,
        from_counts: FlashCounts::new(),
        history: books.history,
        events: 0,
        log: books.log,
        tally: EventTally::default(),
        hierarchy: Hierarchy {
            memory: books.memory,
            device,
            policy,
            evictor: Evictor::new(picker),
        },
    }
}

// The parts of a first session over a flash of which every page is erased.
pub fn fresh_state<F: Flash, T: Tune, E: Pick>(
    alloc: Global,
    flash: F,
    geometry: Geometry,
    tuner: Tuner<T>,
    picker: Picker<E>,
    room: Room,
) -> Result<State<F, T, E>, FreshBack<F, T, E>>
    requires limits { IsWithinLimits geometry }
    requires flash { IsFreshFlash geometry (F.state flash) }
    ensures { MatchResult result
        (λ state. state ≡ fresh_core (F.state flash) geometry tuner picker room)
        (λ back. back ≡ record { flash = flash; tuner = tuner; picker = picker }) }
{
    match Policy::new(alloc, geometry.pages, tuner) {
        Ok(policy) => fresh_with(alloc, flash, geometry, policy, picker, room),
        Err(tuner) => Err(FreshBack {
            flash,
            tuner,
            picker,
        }),
    }
}

fn fresh_with<F: Flash, T: Tune, E: Pick>(
    alloc: Global,
    flash: F,
    geometry: Geometry,
    policy: Policy<T>,
    picker: Picker<E>,
    room: Room,
) -> Result<State<F, T, E>, FreshBack<F, T, E>>
    requires limits { IsWithinLimits geometry }
    requires flash { IsFreshFlash geometry (F.state flash) }
    requires policy { policy ≡ fresh_policy geometry.pages policy.tuner }
    ensures { MatchResult result
        (λ state. state ≡ fresh_core (F.state flash) geometry policy.tuner picker room)
        (λ back. back ≡ record { flash = flash; tuner = policy.tuner; picker = picker }) }
{
    match make(alloc, flash, &geometry, room) {
        Ok(made) => Ok(assemble(made, policy, picker, geometry)),
        Err(flash) => Err(FreshBack {
            flash,
            tuner: policy.into_tuner(),
            picker,
        }),
    }
}
