// What a power loss left of an empty device.
ghost use Rattle.std.specs.Prelude.{◌≡◌, IfSome, length};
ghost use Rattle.ff_base.specs.Geometry.{IsWithinLimits};
ghost use Rattle.ff_base.specs.declared.geometry.Geometry.{Geometry};
ghost use Rattle.ff_flash.specs.Plans.{IsPlan, planned_of};
ghost use Rattle.ff_mount.specs.Sound.{AreSound};

use super::parts::blank_marks;
use crate::tests::plans::{Fault, made, plan_of};
use ff_base::{Geometry, Marks, PageNo};
use ff_cache::{Cache, Nv};
use ff_flash::{Flash, Plan, SimFlash};
use ff_mount::{MountBack, MountStop, Mounted, mount};
use std::alloc::Global;
use std::marker::Model;

/// Content and a flash that can be mounted.
#[derive(Drop)]
pub struct Lost {
    nv: Nv,
    flash: SimFlash,
    geometry: Geometry,
}

impl Model for Lost {
    ghost Value = { Geometry };

    ghost view = { λ l. l.geometry };

    ghost invariant = { λ l. IsWithinLimits l.geometry × AreSound l.geometry l.nv l.flash };
}

/// What a mount came to: how many operations the flash has made and whether its power is on, and why it was refused.
pub type Came = (u64, bool, Option<MountStop>);

fn marks_of(alloc: Global, geometry: &Geometry, page: u32) -> Option<Marks>
    ensures { IfSome result (λ marks. length marks ≡ geometry.now.pages) }
{
    let Ok(mut marks) = blank_marks(alloc, geometry.pages) else {
        return None;
    };
    if page < geometry.pages {
        marks.set_lines(PageNo(page), 5);
    }
    Some(marks)
}

fn over(alloc: Global, geometry: &Geometry, plan: Plan, marks: Marks) -> Option<Lost>
    requires limits { IsWithinLimits geometry.now }
    requires plan { IsPlan (planned_of plan) }
    requires marks { length marks ≡ geometry.now.pages }
{
    let Ok(flash) = SimFlash::new(alloc, geometry, plan) else {
        return None;
    };
    let Ok(cache) = Cache::new(alloc, geometry) else {
        return None;
    };
    cache.known();
    Some(Lost {
        nv: cache.into_nv(marks),
        flash,
        geometry: *geometry,
    })
}

impl Lost {
    /// With lines of a page marked.
    pub fn new(alloc: Global, geometry: &Geometry, page: u32, fault: Fault) -> Option<Lost> {
        if geometry.check().is_err() {
            return None;
        }
        match (plan_of(alloc, fault), marks_of(alloc, geometry, page)) {
            (Ok(plan), Some(marks)) => over(alloc, geometry, plan, marks),
            _ => None,
        }
    }

    /// Mounts it: what that came to, and what is mounted or what can be mounted again.
    pub fn mount(self, alloc: Global) -> Option<(Came, Result<Mounted<SimFlash>, Lost>)> {
        let Lost {
            nv,
            flash,
            geometry,
        } = self;
        if flash.operation_count() > 1 << 62 {
            return None;
        }
        match mount(alloc, nv, flash, &geometry) {
            Ok(mounted) => {
                let (operations, on) = made(mounted.store.flash());
                Some(((operations, on, None), Ok(mounted)))
            }
            Err(MountBack { nv, flash, stop }) => {
                let (operations, on) = made(&flash);
                let lost = Lost {
                    nv,
                    flash,
                    geometry,
                };
                Some(((operations, on, Some(stop)), Err(lost)))
            }
        }
    }
}
