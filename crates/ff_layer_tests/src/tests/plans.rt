// The sizes of the tests, the plans of their flashes, and what is stored there first.
ghost use Rattle.std.specs.Prelude.{◌≡◌, ◌≤◌, IfOk, IfSome, IsTrue};
ghost use Rattle.ff_base.specs.Geometry.{IsWithinLimits, capacity_of};
ghost use Rattle.ff_flash.specs.Plans.{IsPlan, planned_of};
ghost use Rattle.ff_flash.specs.SimFlash.{fresh_flash};
ghost use Rattle.ff_store.specs.PageStore.{new_store};

use ff_base::{Geometry, NoMemory, PageBuf};
use ff_flash::{CutAt, Flash, Plan, SimFlash};
use ff_store::PageStore;
use std::alloc::Global;

/// The sizes where none are given.
pub const USUAL: Geometry = Geometry {
    blocks: 8,
    per_block: 4,
    pages: 16,
    sets: 1,
    ways: 4,
    frames: 4,
    plb: 2,
    window: 4,
    low: 1,
};

/// Four blocks of two pages, which have room for five pages.
pub const SMALL: Geometry = Geometry {
    blocks: 4,
    per_block: 2,
    pages: 5,
    ..USUAL
};

/// The pages that are stored one after the other, and their first bytes. The seventh flush finds no place before a
/// block is collected.
pub static STORES: [(u32, u8); 8] = [
    (0, 0xa0),
    (1, 0xa1),
    (2, 0xa2),
    (3, 0xa3),
    (4, 0xa4),
    (0, 0xb0),
    (1, 0xb1),
    (2, 0xb2),
];

/// Sets the byte of a page, where there is one.
pub fn set_byte(bytes: &mut [u8; 5], page: u32, byte: u8) {
    if (page as usize) < bytes.len() {
        bytes[page as usize] = byte;
    }
}

/// How the flash is made to go.
#[derive(Clone, Copy)]
pub enum Fault {
    Nothing,
    /// The operation after so many fails.
    Fail(u32),
    /// The operation after so many is cut, by this mask.
    Cut(u32, u32),
}

pub fn plan_of(alloc: Global, fault: Fault) -> Result<Plan, NoMemory>
    ensures { IfOk result (λ plan. IsPlan (planned_of plan)) }
{
    match fault {
        Fault::Nothing => Ok(Plan {
            fail: Vec::new(alloc),
            cuts: Vec::new(alloc),
        }),
        Fault::Fail(made) => Ok(Plan {
            fail: vec![in alloc; u64::from(made) + 1]?,
            cuts: Vec::new(alloc),
        }),
        Fault::Cut(made, mask) => Ok(Plan {
            fail: Vec::new(alloc),
            cuts: vec![in alloc;
                CutAt {
                    at: u64::from(made) + 1,
                    mask,
                    arrive: 0,
                },
            ]?,
        }),
    }
}

/// Whether a geometry is within its bounds, and has room for all its pages.
pub fn holds_all(geometry: &Geometry) -> bool
    ensures limits { IsTrue result → IsWithinLimits geometry.now }
    ensures room { IsTrue result → geometry.now.pages ≤ capacity_of geometry.now }
{
    geometry.check().is_ok() && geometry.capacity() >= geometry.pages
}

/// A store in which nothing is stored.
pub fn fresh_store(alloc: Global, geometry: &Geometry, plan: Plan) -> Option<PageStore<SimFlash>>
    requires limits { IsWithinLimits geometry.now }
    requires plan { IsPlan (planned_of plan) }
    ensures { IfSome result (λ store.
        store ≡ new_store (fresh_flash geometry.now (planned_of plan)) geometry.now) }
{
    match SimFlash::new(alloc, geometry, plan) {
        Ok(flash) => PageStore::new(alloc, flash, geometry).ok(),
        Err(_) => None,
    }
}

/// How many operations a flash has made, and whether its power is on.
pub fn made(flash: &SimFlash) -> (u64, bool) {
    (flash.operation_count(), flash.is_on())
}

/// The reads, programs, seals and erases.
pub fn counted(store: &PageStore<SimFlash>) -> [u64; 4] {
    let counts = store.counts();
    [counts.reads, counts.programs, counts.seals, counts.erases]
}

/// Makes a page whose first line is of this byte, and the others of zeros.
pub fn fill(page: &mut PageBuf, byte: u8) {
    page.clear();
    page.set_line(0, &[byte; 64]);
}
