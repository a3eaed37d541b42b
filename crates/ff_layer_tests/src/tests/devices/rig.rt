// A device with room for all its pages, whose calls see to it that they may be made.
ghost use Rattle.std.specs.Prelude.{◌≡◌, ◌≤◌, [], IfOk, IfSome};
ghost use Rattle.ff_base.specs.Geometry.{IsWithinLimits, capacity_of};
ghost use Rattle.ff_cache.specs.Cache.{fresh_cache};
ghost use Rattle.ff_flash.specs.Plans.{IsPlan, planned_of};
ghost use Rattle.ff_device.specs.Device.{lines_in};
ghost use Rattle.ff_lines.specs.DeviceState.{HasRoom};

use crate::tests::plans::{Fault, counted, fresh_store, holds_all, plan_of};
use ff_base::{Geometry, NoMemory, PageNo};
use ff_cache::Cache;
use ff_device::Device;
use ff_flash::{Flash, Plan, SimFlash};
use ff_lines::{LineDevice, Work};
use ff_model::Piece;
use ff_window::Window;
use std::alloc::Global;

#[derive(Drop)]
pub struct DeviceRig {
    device: Device<SimFlash>,
    ghost room: { (lines_in device).pages ≤ (lines_in device).room },
}

#[derive(Drop)]
struct Buffers {
    cache: Cache,
    window: Window,
}

fn fresh_buffers(alloc: Global, geometry: &Geometry) -> Result<Buffers, NoMemory>
    requires { IsWithinLimits geometry.now }
    ensures cache { IfOk result (λ buffers.
        buffers.cache ≡ fresh_cache geometry.now.sets geometry.now.ways) }
    ensures window { IfOk result (λ buffers.
        buffers.window ≡ record { posts = []; room = geometry.now.window }) }
{
    Ok(Buffers {
        cache: Cache::new(alloc, geometry)?,
        window: Window::new(alloc, geometry.window)?,
    })
}

// A device of which nothing is cached or stored.
#[tactic(auto, using(ff_device::proofs::Rooms::fresh_begins, ff_device::proofs::Rooms::fresh_room))]
fn fresh_device(alloc: Global, geometry: &Geometry, plan: Plan) -> Option<Device<SimFlash>>
    requires limits { IsWithinLimits geometry.now }
    requires room { geometry.now.pages ≤ capacity_of geometry.now }
    requires plan { IsPlan (planned_of plan) }
    ensures { IfSome result (λ device. (lines_in device).pages ≤ (lines_in device).room) }
{
    let store = fresh_store(alloc, geometry, plan)?;
    match fresh_buffers(alloc, geometry) {
        Ok(buffers) => Device::new(alloc, store, buffers.cache, buffers.window).ok(),
        Err(_) => None,
    }
}

impl DeviceRig {
    pub fn new(alloc: Global, geometry: &Geometry, fault: Fault) -> Option<DeviceRig> {
        if !holds_all(geometry) {
            return None;
        }
        let Ok(plan) = plan_of(alloc, fault) else {
            return None;
        };
        match fresh_device(alloc, geometry, plan) {
            Some(device) => Some(DeviceRig { device }),
            None => None,
        }
    }

    pub fn is_resident(&self, page: u32) -> bool
        ensures { result ≡ (lines_in self.now.device).resident page }
    {
        self.device.resident(PageNo(page))
    }

    pub fn work(&mut self, page: u32) -> Option<Work> {
        let store = self.device.store();
        if page >= store.pages() || store.flash().operation_count() >= 1 << 63 {
            return None;
        }
        Some(self.device.work(PageNo(page)))
    }

    /// Makes steps of work until one isn't `Stepped`.
    pub fn serve(&mut self, page: u32) -> Option<Work> {
        for _ in 0..64 {
            match self.work(page)? {
                Work::Stepped => {}
                other => return Some(other),
            }
        }
        None
    }

    pub fn read(&mut self, page: u32, hit: bool) -> Option<[u8; 64]> {
        if !self.is_resident(page) {
            return None;
        }
        Some(self.device.read_line(PageNo(page), 0, hit))
    }

    #[tactic(auto, using(ff_device::proofs::Rooms::room_for))]
    fn has_room(&self, page: u32)
        ensures { HasRoom (lines_in self.now.device) page }
    {
        let _ = &self.device;
    }

    /// Posts a piece to line 0 of a page. The answer is how many posts wait.
    pub fn post(
        &mut self,
        page: u32,
        from: u8,
        bytes: &[u8],
        position: Option<u32>,
    ) -> Option<u32> {
        if bytes.len() > 64 || usize::from(from) + bytes.len() > 64 {
            return None;
        }
        if !self.is_resident(page) {
            return None;
        }
        self.has_room(page);
        self.device
            .post(PageNo(page), 0, from, &Piece::from_slice(bytes), position);
        Some(self.device.waiting())
    }

    pub fn pin(&mut self, page: u32, on: bool) -> bool {
        let is_resident = self.is_resident(page);
        if is_resident {
            self.device.pin(PageNo(page), on);
        }
        is_resident
    }

    /// Whether a post waited, and how many wait then.
    pub fn drain_one(&mut self) -> (bool, u32) {
        let found = self.device.drain_one();
        (found, self.device.waiting())
    }

    pub fn drain_all(&mut self) {
        self.device.drain_all();
    }

    pub fn arrive(&mut self, count: u32) -> Option<u32> {
        self.device.arrive(count)
    }

    pub fn collect_work(&mut self) -> Option<Work> {
        if self.device.store().flash().operation_count() >= 1 << 63 {
            return None;
        }
        Some(self.device.collect_work())
    }

    pub fn power_off(&mut self) {
        self.device.power_off();
    }

    pub fn into_device(self) -> Device<SimFlash> {
        self.device
    }

    /// How many posts wait.
    pub fn waiting(&self) -> u32 {
        self.device.window().len()
    }

    /// Whether no flush is to be sealed, and no collection runs or is due.
    pub fn rests(&self) -> bool {
        !self.device.is_pending() && !self.device.wants_collect()
    }

    /// The reads, programs, seals and erases.
    pub fn counts(&self) -> [u64; 4] {
        counted(self.device.store())
    }

    /// Whether the operation failed, or was cut.
    pub fn has_come(&self, fault: Fault) -> bool {
        let flash = self.device.store().flash();
        match fault {
            Fault::Nothing => false,
            Fault::Fail(_) => flash.fault_count() == 1,
            Fault::Cut(..) => !flash.is_on(),
        }
    }
}
