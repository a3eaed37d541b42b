// A device and its parts.
ghost use Rattle.std.specs.Prelude.{◌≡◌, MatchResult};
ghost use Rattle.ff_flash.specs.FlashState.{powered_off};
ghost use Rattle.ff_space.specs.BlockTable.{IsBlockTableSound};
ghost use Rattle.ff_map.specs.PageMap.{IsPageMapSound};
ghost use Rattle.ff_store.specs.PageStore.{IsStoreSound};
ghost use Rattle.ff_cache.specs.Cache.{IsCacheSound};
ghost use Rattle.ff_window.specs.Window.{IsWindowSound};
ghost use Rattle.ff_device.specs.Device.{parts_of};
ghost use Rattle.ff_device.specs.Parts.{CanBegin, IsDeviceSound};

mod arriving;
mod choosing;
mod collecting;
mod draining;
mod fetching;
mod flushing;
mod lines;
mod posting;
mod slots;
mod working;

use ff_base::{PageBuf, PageNo};
use ff_cache::Cache;
use ff_flash::Flash;
use ff_store::PageStore;
use ff_window::Window;
use std::alloc::Global;
use std::marker::Model;

/// A cache and a window over a store. Its bytes are the waiting posts over the cached pages over those of the store.
#[derive(Drop)]
pub struct Device<F: Flash> {
    store: PageStore<F>,
    cache: Cache,
    window: Window,
    page: PageBuf,
}

impl<F: Flash> Model for Device<F> {
    ghost use Rattle.ff_device.specs.Device.{parts_of, DeviceView};
    ghost use Rattle.ff_device.specs.Parts.{IsDeviceSound};

    ghost Value = { DeviceView };

    ghost view = { λ d. record { store = d.store; cache = d.cache; window = d.window } };

    ghost invariant = { λ d. IsDeviceSound
        (parts_of (record { store = d.store; cache = d.cache; window = d.window })) };
}

/// A device's parts, handed out or back.
#[derive(Drop)]
pub struct DeviceParts<F: Flash> {
    pub store: PageStore<F>,
    pub cache: Cache,
    pub window: Window,
}

/// Which page each slot of a cache holds, for contracts alone.
#[derive(Drop)]
pub struct SlotPages {
    pages: Vec<Option<PageNo>>,
}

impl Model for SlotPages {
    ghost use Rattle.std.specs.Prelude.{List, Option};
    ghost use Rattle.ff_base.specs.declared.numbers.PageNo.{PageNo};

    ghost Value = { List (Option PageNo) };

    ghost view = { λ s. s.pages.items };
}

/// What the calls on lines leave of a device, for contracts alone: its store, the sizes of its cache and window, and the
/// pages in the slots.
#[derive(Drop)]
pub struct DeviceOwn<S> {
    pub store: S,
    pub sets: u32,
    pub ways: u32,
    pub room: u32,
    pub pages: SlotPages,
}

impl<F: Flash> Device<F> {
    /// A device of parts of one geometry, with nothing in flight. For want of memory the parts are handed back.
    pub fn new(
        alloc: Global,
        store: PageStore<F>,
        cache: Cache,
        window: Window,
    ) -> Result<Device<F>, DeviceParts<F>>
        requires { CanBegin (parts_of (record { store = store; cache = cache; window = window })) }
        ensures { MatchResult result
            (λ device. device ≡ record { store = store; cache = cache; window = window })
            (λ parts. parts ≡ record { store = store; cache = cache; window = window }) }
    {
        match PageBuf::new(alloc) {
            Ok(page) => Ok(Device::over(store, cache, window, page)),
            Err(_) => Err(DeviceParts {
                store,
                cache,
                window,
            }),
        }
    }

    /// The same with a page of the caller's, whose bytes say nothing. It takes no memory.
    #[tactic(auto, using(crate::proofs::Beginning::begins))]
    pub fn over(store: PageStore<F>, cache: Cache, window: Window, page: PageBuf) -> Device<F>
        requires { CanBegin (parts_of (record { store = store; cache = cache; window = window })) }
        ensures { result ≡ record { store = store; cache = cache; window = window } }
    {
        Device {
            store,
            cache,
            window,
            page,
        }
    }

    /// What every device keeps, and its parts. For the prover alone.
    pub fn known(&self)
        ensures device { IsDeviceSound (parts_of self.now) }
        ensures store { IsStoreSound self.now.store }
        ensures table { IsBlockTableSound self.now.store.world.table }
        ensures map { IsPageMapSound self.now.store.world.places }
        ensures cache { IsCacheSound self.now.cache }
        ensures window { IsWindowSound self.now.window }
    {
        self.store.known();
        self.cache.known();
        let _few = self.window.len();
    }

    pub fn store(&self) -> &PageStore<F>
        ensures { result.now ≡ self.now.store }
    {
        &self.store
    }

    pub fn window(&self) -> &Window
        ensures { result.now ≡ self.now.window }
    {
        &self.window
    }

    /// The store, the cache and the window.
    pub fn into_parts(self) -> DeviceParts<F>
        ensures { result ≡ record { store = self.store; cache = self.cache; window = self.window } }
    {
        let Device {
            store,
            cache,
            window,
            page: _,
        } = self;
        DeviceParts {
            store,
            cache,
            window,
        }
    }

    /// Turns the power off. Nothing else changes.
    pub fn power_off(&mut self)
        ensures { self.new ≡ record self.old {
          store = record self.old.store {
            world = record self.old.store.world { flash = powered_off self.old.store.world.flash };
          };
        } }
    {
        self.store.power_off();
    }
}
