// The injector of faults: which operations of a simulated flash fail or are cut, and whether its power is on.
ghost use Rattle.std.specs.Prelude.{◌≡◌, ◌<◌, ◌+◌, ◌↔◌, IfOk, IsTrue, length, if◌then◌else◌, is_some};
ghost use Rattle.ff_base.specs.Count.{HasCountLeft};
ghost use Rattle.ff_flash.specs.Injector.{arrive_of, is_powered, power_after};
ghost use Rattle.ff_flash.specs.Plans.{IsPlan, RisesFrom, cut_at, cut_injected, cut_numbers, is_listed, listed_count, planned_of};

use crate::injected::Injected;
use crate::{CutAt, Plan};
use ff_base::NoMemory;
use std::alloc::Global;
use std::marker::Model;

/// Whether the power is on, and where it is off, whether an operation that was cut turned it off.
#[derive(Clone, Copy)]
pub enum Power {
    On,
    Down,
    /// Off by a cut, with so many waiting posts that arrive.
    CutOff(u32),
}

/// A plan, the operations made so far, and the power.
#[derive(Drop)]
pub struct Injector {
    plan: Plan,
    operations: u64,
    fails_passed: usize,
    cuts_passed: usize,
    power: Power,
}

impl Model for Injector {
    ghost use Rattle.ff_flash.specs.Injector.{InjectorView};

    ghost Value = { InjectorView };

    ghost use Rattle.ff_flash.specs.InjectorFields.{IsKept, view_of};

    ghost view = { view_of };

    ghost invariant = { IsKept };
}

impl Injector {
    ghost use Rattle.ff_flash.specs.Injector.{fresh_injector, injector_after, next_injected, powered_down};

    /// No operation was made, and the power is on.
    pub fn new(plan: Plan) -> Injector
        requires { IsPlan (planned_of plan) }
        ensures { result ≡ fresh_injector (planned_of plan) }
    {
        Injector {
            plan,
            operations: 0,
            fails_passed: 0,
            cuts_passed: 0,
            power: Power::On,
        }
    }

    pub fn copy(&self, alloc: Global) -> Result<Injector, NoMemory>
        ensures { IfOk result (λ copy. copy ≡ self.now) }
    {
        Ok(Injector {
            plan: self.plan.copy(alloc)?,
            operations: self.operations,
            fails_passed: self.fails_passed,
            cuts_passed: self.cuts_passed,
            power: self.power,
        })
    }

    /// Says how an operation goes that is made now, and counts it where the power is on.
    pub fn next(&mut self) -> Injected
        requires { HasCountLeft self.old.operations }
        ensures injected { result ≡ next_injected self.old }
        ensures after { self.new ≡ injector_after self.old }
    {
        if !is_on(self.power) {
            return Injected::PowerOff;
        }
        let before = self.operations;
        let fails = is_next(&self.plan.fail, self.fails_passed, before);
        let cut = next_cut(&self.plan.cuts, self.cuts_passed, before);
        self.fails_passed = passed(self.fails_passed, self.plan.fail.len(), fails);
        self.cuts_passed = passed(self.cuts_passed, self.plan.cuts.len(), cut.is_some());
        self.operations = before + 1;
        self.power = power_left(cut);
        choose(fails, cut)
    }

    pub fn power_off(&mut self)
        ensures { self.new ≡ powered_down self.old }
    {
        if is_on(self.power) {
            self.power = Power::Down;
        }
    }

    pub fn power_up(&mut self)
        ensures { self.new ≡ record self.old { power = Power.On } }
    {
        self.power = Power::On;
    }

    pub fn is_on(&self) -> bool
        ensures { result ≡ is_powered self.now.power }
    {
        is_on(self.power)
    }

    /// How many of the posts that wait arrive, where a cut turned the power off.
    pub fn cut_arrive(&self) -> Option<u32>
        ensures { result ≡ arrive_of self.now.power }
    {
        match self.power {
            Power::CutOff(arrive) => Some(arrive),
            _ => None,
        }
    }

    /// Whether it goes by this plan.
    pub fn plan_is(&self, plan: &Plan) -> bool
        ensures { IsTrue result ↔ (self.now.plan ≡ planned_of plan.now) }
    {
        self.plan.is(plan)
    }

    /// How many of the operations that were made are listed to fail.
    pub fn fault_count(&self) -> u64
        ensures { result ≡ listed_count self.now.operations self.now.plan.fail }
    {
        self.fails_passed as u64
    }

    pub fn operation_count(&self) -> u64
        ensures { result ≡ self.now.operations }
    {
        self.operations
    }
}

fn is_on(power: Power) -> bool
    ensures { result ≡ is_powered power }
{
    match power {
        Power::On => true,
        _ => false,
    }
}

fn is_next(numbers: &[u64], passed: usize, before: u64) -> bool
    requires rises { RisesFrom 1 numbers.now }
    requires passed { passed ≡ listed_count before numbers.now }
    requires life { HasCountLeft before }
    ensures listed { result ≡ is_listed (before + 1) numbers.now }
    ensures room { IsTrue result → passed < length numbers.now }
{
    passed < numbers.len() && numbers[passed] == before + 1
}

fn next_cut(cuts: &[CutAt], passed: usize, before: u64) -> Option<CutAt>
    requires rises { RisesFrom 1 (cut_numbers cuts.now) }
    requires passed { passed ≡ listed_count before (cut_numbers cuts.now) }
    requires life { HasCountLeft before }
    ensures cut { result ≡ cut_at (before + 1) cuts.now }
    ensures room { IsTrue (is_some result) → passed < length cuts.now }
{
    if passed < cuts.len() && cuts[passed].at == before + 1 {
        return Some(cuts[passed]);
    }
    None
}

fn passed(before: usize, len: usize, one_more: bool) -> usize
    requires { IsTrue one_more → before < len }
    ensures { result ≡ (if one_more then before + 1 else before) }
{
    if one_more { before + 1 } else { before }
}

fn choose(fails: bool, cut: Option<CutAt>) -> Injected
    ensures { result ≡ (if fails then Injected.Failure else cut_injected cut) }
{
    if fails {
        return Injected::Failure;
    }
    match cut {
        Some(cut) => Injected::Cut(cut.mask),
        None => Injected::Nothing,
    }
}

fn power_left(cut: Option<CutAt>) -> Power
    ensures { result ≡ power_after cut }
{
    match cut {
        Some(cut) => Power::CutOff(cut.arrive),
        None => Power::On,
    }
}
