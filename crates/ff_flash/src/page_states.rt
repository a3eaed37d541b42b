// The simulated states of pages, without their bytes, and what operations make of them. Whatever bytes a page has,
// its cell changes as an operation changes a cell.
ghost use Rattle.std.specs.Prelude.{◌≡◌, ◌<◌, ◌≤◌, ◌+◌, ℕ, List, IfOk, vec_len, replicate, ◌==◌};
ghost use Rattle.std.specs.Int.{bit_at};
ghost use Rattle.ff_flash.specs.Cells.{cell_after, cell_probe, erase, program, seal};
ghost use Rattle.ff_flash.specs.PageState.{ChangesState, ErasesStates, cell_of};

use crate::injected::Injected;
use crate::{Probe, Spare};
use ff_base::NoMemory;
use std::alloc::Global;

/// The state of a page.
#[derive(Clone, Copy)]
pub enum PageState {
    Erased,
    Spoiled,
    Closed(Spare),
    Sealed(Spare),
}

/// So many pages that are erased.
pub fn erased_states(alloc: Global, places: u32) -> Result<Vec<PageState>, NoMemory>
    ensures items { IfOk result (λ states. states.items ≡ replicate places PageState.Erased) }
    ensures len { IfOk result (λ states. vec_len states ≡ places) }
{
    let mut states = Vec::with_capacity(alloc, places as usize)?;
    states.resize(places as usize, PageState::Erased)?;
    Ok(states)
}

pub fn copied(alloc: Global, states: &[PageState]) -> Result<Vec<PageState>, NoMemory>
    ensures { IfOk result (λ copy. copy.items ≡ states.now) }
{
    let mut copy = Vec::with_capacity(alloc, states.len())?;
    copy.extend_from_slice(states)?;
    Ok(copy)
}

/// What a probe tells of a page.
pub fn probe_of(state: PageState) -> Probe
    ensures { (bytes : List ℕ) → result ≡ cell_probe (cell_of state bytes) }
{
    match state {
        PageState::Erased => Probe::Erased,
        PageState::Spoiled => Probe::Spoiled,
        PageState::Closed(_) => Probe::Closed,
        PageState::Sealed(spare) => Probe::Sealed(spare),
    }
}

// The state of an erased page after a program of these bytes.
fn programmed(state: PageState, spare: Spare, injected: Injected) -> PageState
    ensures { (bytes : List ℕ)
        → cell_of result bytes ≡ cell_after (program bytes spare) injected (cell_of state bytes) }
{
    match injected {
        Injected::Nothing => PageState::Closed(spare),
        Injected::Failure => PageState::Spoiled,
        Injected::Cut(mask) if is_bit(mask, 0) => PageState::Spoiled,
        Injected::Cut(_) | Injected::PowerOff => state,
    }
}

// The state of a closed page after a seal.
fn sealed_state(state: PageState, injected: Injected) -> PageState
    ensures { (bytes : List ℕ)
        → cell_of result bytes ≡ cell_after seal injected (cell_of state bytes) }
{
    match (state, injected) {
        (PageState::Closed(spare), Injected::Nothing) => PageState::Sealed(spare),
        (PageState::Closed(spare), Injected::Cut(mask)) if is_bit(mask, 0) => PageState::Sealed(
            spare,
        ),
        _ => state,
    }
}

// The state of a page after an erase of the block of which it is the page of this number.
fn erased_state(state: PageState, page: u32, injected: Injected) -> PageState
    ensures { (bytes : List ℕ)
        → cell_of result bytes ≡ cell_after (erase page) injected (cell_of state bytes) }
{
    match injected {
        Injected::Nothing => PageState::Erased,
        Injected::Cut(mask) if is_bit(mask, page % 32) => PageState::Spoiled,
        _ => state,
    }
}

fn is_bit(mask: u32, bit: u32) -> bool
    requires { bit < 32 }
    ensures { result ≡ (bit_at mask bit == 1) }
{
    (mask >> bit) % 2 == 1
}

/// Programs an erased page, without its bytes.
pub fn program_at(states: &mut Vec<PageState>, at: u32, spare: Spare, injected: Injected)
    requires { at < vec_len states.old }
    ensures changed { ChangesState states.old.items at states.new.items
        (λ bytes. cell_after (program bytes spare) injected) }
    ensures len { vec_len states.new ≡ vec_len states.old }
{
    let place = at as usize;
    states[place] = programmed(states[place], spare, injected);
}

/// Seals a closed page.
pub fn seal_at(states: &mut Vec<PageState>, at: u32, injected: Injected)
    requires { at < vec_len states.old }
    ensures changed { ChangesState states.old.items at states.new.items
        (λ bytes. cell_after seal injected) }
    ensures len { vec_len states.new ≡ vec_len states.old }
{
    let place = at as usize;
    states[place] = sealed_state(states[place], injected);
}

/// Erases the pages of a block, of which the first and the number are given.
pub fn erase_at(states: &mut Vec<PageState>, first: u32, count: u32, injected: Injected)
    requires { first + count ≤ vec_len states.old }
    ensures erased { ErasesStates first count injected states.old.items states.new.items }
    ensures len { vec_len states.new ≡ vec_len states.old }
{
    for i in 0..count {
        let place = first as usize + i as usize;
        states[place] = erased_state(states[place], i, injected);
    }
}
