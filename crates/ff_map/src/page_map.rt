// The page map: the mappings by page, the owners by place, and the next version.
ghost use Rattle.std.specs.Prelude.{◌≡◌, ◌<◌, ◌+◌, ◌-◌, ◌^◌, ◌↔◌, length, [], ◌∷◌, IfOk, Some};
ghost use Rattle.ff_base.specs.Geometry.{IsWithinLimits};

use crate::owners::{owner_at, release};
use crate::places::{Mapping, Move};
use ff_base::{Geometry, NoMemory, PageNo, Ppn};
use std::alloc::Global;
use std::marker::Model;

/// The places of the logical pages, the pages of the places, and the versions.
#[derive(Drop)]
pub struct PageMap {
    pages: Vec<Option<Mapping>>,
    owners: Vec<Option<PageNo>>,
    next_version: u64,
}

impl Model for PageMap {
    ghost use Rattle.ff_map.specs.PageMap.{PageMapView};

    ghost Value = { PageMapView };

    ghost use Rattle.ff_map.specs.PageMapFields.{view_of, IsKept};

    ghost view = { view_of };

    ghost invariant = { IsKept };
}

impl PageMap {
    ghost use Rattle.ff_map.specs.PageMap.{mapping_of, place_of, version_of, IsOwner, IsPageMapSound, IsFreeBut, CanSwitch, IsSwitched, drawn_map, empty_map, with_mapping};

    /// No page is mapped, and the next version is 1.
    pub fn new(alloc: Global, geometry: &Geometry) -> Result<PageMap, NoMemory>
        requires { IsWithinLimits geometry.now }
        ensures { IfOk result (λ map. map ≡ empty_map geometry.now) }
    {
        let pages = vec![in alloc; None; geometry.pages as usize]?;
        let owners = vec![in alloc; None; (geometry.blocks * geometry.per_block) as usize]?;
        Ok(PageMap {
            pages,
            owners,
            next_version: 1,
        })
    }

    /// What every map keeps. For the prover alone.
    pub fn known(&self)
        ensures { IsPageMapSound self.now }
    {
        let _ = &self.pages;
    }

    /// How many logical pages there are.
    pub fn pages(&self) -> u32
        ensures { result ≡ length self.now.pages }
    {
        self.pages.len() as u32
    }

    /// The place of a page.
    pub fn get(&self, page: PageNo) -> Option<Ppn>
        ensures { result ≡ place_of self.now page }
    {
        self.mapping(page).map(|mapping| mapping.at)
    }

    /// The page that is at a place.
    pub fn owner(&self, at: Ppn) -> Option<PageNo>
        ensures { (page : PageNo) → (result ≡ Some page) ↔ IsOwner self.now at page }
    {
        owner_at(&self.owners, at)
    }

    /// The version of a page's mapping.
    pub fn version(&self, page: PageNo) -> Option<u64>
        ensures { result ≡ version_of self.now page }
    {
        self.mapping(page).map(|mapping| mapping.version)
    }

    /// Maps a page to a place. Its old place, if it had one, is nobody's then.
    pub fn set(&mut self, page: PageNo, at: Ppn, version: u64)
        requires page { page.0 < length self.old.pages }
        requires place { at.0 < self.old.places }
        requires free { IsFreeBut self.old at page }
        ensures { self.new ≡ with_mapping self.old page (record { at = at; version = version }) }
    {
        let old = self.pages[page.0 as usize];
        release(&mut self.owners, old);
        self.pages[page.0 as usize] = Some(Mapping { at, version });
        self.owners[at.0 as usize] = Some(page);
    }

    /// Moves each page that is still where its move is from. A page that is elsewhere by now stays there.
    pub fn switch(&mut self, moves: &[Move])
        requires { CanSwitch self.old moves.now }
        ensures { IsSwitched moves.now self.old self.new }
    {
        for one in moves {
            self.move_page(*one);
        }
    }

    /// The next version to draw.
    pub fn next_version(&self) -> u64
        ensures { result ≡ self.now.next_version }
    {
        self.next_version
    }

    /// Draws a version: the next is one higher.
    pub fn draw_version(&mut self) -> u64
        requires { self.old.next_version < 2 ^ 64 - 1 }
        ensures drawn { result ≡ self.old.next_version }
        ensures map { self.new ≡ drawn_map self.old }
    {
        let version = self.next_version;
        self.next_version = version + 1;
        version
    }

    /// Sets the next version to draw.
    pub fn start_version(&mut self, next: u64)
        ensures { self.new ≡ record self.old { next_version = next } }
    {
        self.next_version = next;
    }

    fn mapping(&self, page: PageNo) -> Option<Mapping>
        ensures { result ≡ mapping_of self.now page }
    {
        self.pages.get(page.0 as usize).copied().flatten()
    }

    fn move_page(&mut self, one: Move)
        requires { CanSwitch self.old (one ∷ []) }
        ensures { IsSwitched (one ∷ []) self.old self.new }
    {
        if let Some(mapping) = self.mapping(one.page) {
            if mapping.at == one.from {
                self.set(one.page, one.to, mapping.version);
            }
        }
    }
}
