// The policy: which pages are hot, and what a promotion costs.
ghost use Rattle.std.specs.Prelude.{◌≡◌, ◌+◌, ◌<◌, ◌↔◌, IfOk, IfErr, IsTrue, length};
ghost use Rattle.ff_base.specs.Count.{HasCountLeft};

use crate::counters::Counters;
use crate::tuner::{Tune, Tuner};
use ff_base::PageNo;
use std::alloc::Global;
use std::marker::Model;

/// Counters of the accesses that the device served, one a page, and the threshold at which a page is hot.
#[derive(Drop)]
pub struct Policy<T: Tune> {
    counters: Counters,
    threshold: u8,
    hits: u64,
    recent: u64,
    accesses: u64,
    promotions: u64,
    tuner: Tuner<T>,
}

impl<T: Tune> Model for Policy<T> {
    ghost use Rattle.ff_policy.specs.Policy.{PolicyView};

    ghost Value = { PolicyView T };

    ghost use Rattle.ff_policy.specs.PolicyFields.{view_of, IsKept};

    ghost view = { λ p. view_of p };

    ghost invariant = { λ p. IsKept p };
}

/// The device accesses from one step of the threshold to the next.
pub const STEP_ACCESSES: u64 = 64;

impl<T: Tune> Policy<T> {
    ghost use Rattle.ff_policy.specs.Counters.{AreCounted, most_counted};
    ghost use Rattle.ff_policy.specs.Policy.{IsHot, IsPolicySound, StepsWhenDue, counted, counter_of, fresh_policy, promoted};

    /// No page was accessed, and the threshold is the tuner's start. The error is want of memory and hands the tuner
    /// back.
    pub fn new(alloc: Global, pages: u32, tuner: Tuner<T>) -> Result<Policy<T>, Tuner<T>>
        ensures ok { IfOk result (λ policy. policy ≡ fresh_policy pages tuner) }
        ensures err { IfErr result (λ back. back ≡ tuner) }
    {
        let Ok(counters) = Counters::new(alloc, pages) else {
            return Err(tuner);
        };
        Ok(Policy {
            counters,
            threshold: tuner.start(),
            hits: 0,
            recent: 0,
            accesses: 0,
            promotions: 0,
            tuner,
        })
    }

    /// What every policy keeps. For the prover alone.
    pub fn known(&self)
        ensures { IsPolicySound self.now }
    {
        let _ = &self.counters;
    }

    /// The device served an access to the page. The threshold is stepped, and every counter halved, after each
    /// `STEP_ACCESSES` of these.
    pub fn device_access(&mut self, page: PageNo)
        requires page { page.0 < length self.old.counters }
        requires few { HasCountLeft self.old.accesses }
        ensures { StepsWhenDue T.answers (counted page.0 self.old) self.new }
    {
        self.counters.raise(page);
        self.accesses += 1;
        self.recent += 1;
        if self.recent == STEP_ACCESSES {
            self.threshold = self.tuner.next(self.hits, self.recent, self.threshold);
            self.counters.halve();
            self.hits = 0;
            self.recent = 0;
        }
    }

    /// A frame served an access.
    pub fn host_access(&mut self)
        requires { HasCountLeft self.old.hits }
        ensures { self.new ≡ record self.old { hits = self.old.hits + 1 } }
    {
        self.hits += 1;
    }

    /// Whether a page's counter has come to the threshold.
    pub fn is_hot(&self, page: PageNo) -> bool
        requires { page.0 < length self.now.counters }
        ensures { IsTrue result ↔ IsHot self.now page.0 }
    {
        self.threshold <= self.counters.count(page)
    }

    /// The pages whose counter isn't zero, each once and in no order. Every hot page is one of these.
    #[tactic(auto, using(crate::proofs::CountedPages::few_counted))]
    pub fn counted(&self) -> &[PageNo]
        ensures pages { AreCounted self.now.counters result.now }
        ensures few { length result.now < most_counted }
    {
        self.counters.counted()
    }

    /// A promotion of the page begins. Its counter pays for it.
    pub fn promote(&mut self, page: PageNo)
        requires { IsHot self.old page.0 }
        ensures { self.new ≡ promoted page.0 self.old }
    {
        self.counters.clear(page);
        self.promotions += 1;
    }

    /// The counter at which a page is hot.
    pub fn threshold(&self) -> u8
        ensures { result ≡ self.now.threshold }
    {
        self.threshold
    }

    /// The counter of a page.
    pub fn counter(&self, page: PageNo) -> u8
        requires { page.0 < length self.now.counters }
        ensures { result ≡ counter_of self.now page.0 }
    {
        self.counters.count(page)
    }

    /// The accesses that the device served.
    pub fn accesses(&self) -> u64
        ensures { result ≡ self.now.accesses }
    {
        self.accesses
    }

    /// The accesses that a frame served since the threshold's last step.
    pub fn hits(&self) -> u64
        ensures { result ≡ self.now.hits }
    {
        self.hits
    }

    /// The promotions that began.
    pub fn promotions(&self) -> u64
        ensures { result ≡ self.now.promotions }
    {
        self.promotions
    }

    /// The least threshold, at least 1.
    pub fn floor(&self) -> u8
        ensures { result ≡ self.now.tuner.floor }
    {
        self.tuner.floor()
    }

    /// The tuner that it was made with.
    pub fn into_tuner(self) -> Tuner<T>
        ensures { result ≡ self.tuner }
    {
        let Policy {
            counters,
            threshold: _,
            hits: _,
            recent: _,
            accesses: _,
            promotions: _,
            tuner,
        } = self;
        drop(counters);
        tuner
    }
}
