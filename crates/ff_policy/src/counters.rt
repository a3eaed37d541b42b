// The counters of accesses, one a page.
ghost use Rattle.std.specs.Prelude.{ℕ, ◌≡◌, ◌≤◌, ◌<◌, ◌++◌, ◌∷◌, [], ◌==◌, IfOk, filter, if◌then◌else◌, length, nat_lt, replicate, slice_index, slice_set, sum, vec_capacity, vec_len};
ghost use Rattle.ff_policy.specs.Counters.{halved, most_counted, raised_count};

use ff_base::{NoMemory, PageNo};
use std::alloc::Global;
use std::marker::Model;

/// A counter a page, and which pages have one that isn't zero.
#[derive(Drop)]
pub struct Counters {
    counts: Vec<u8>,
    counted: Vec<PageNo>,
}

impl Model for Counters {
    ghost use Rattle.std.specs.Prelude.{ℕ, List};

    ghost Value = { List ℕ };

    ghost use Rattle.ff_policy.specs.CountersFields.{view_of, IsKept};

    ghost view = { view_of };

    ghost invariant = { IsKept };
}

// The most pages that have a counter which isn't zero.
const MOST_COUNTED: usize = 128;

// A counter after one more access: it stays at its last value.
fn raised(count: u8) -> u8
    ensures { result ≡ raised_count count }
{
    count.saturating_add(1)
}

// Halves every counter, rounded down.
fn halve(counts: &mut [u8])
    ensures { counts.new ≡ halved counts.old }
{
    for count in counts.iter_mut() {
        *count /= 2;
    }
}

fn is_counted(counts: &[u8], page: PageNo) -> bool
    ensures { result ≡ nat_lt 0 (slice_index counts.now page.0) }
{
    match counts.get(page.0 as usize) {
        Some(count) => *count > 0,
        None => false,
    }
}

// Keeps the pages whose counter isn't zero.
fn keep_counted(counts: &[u8], pages: &mut Vec<PageNo>)
    ensures pages { pages.new.items
        ≡ filter (λ page. nat_lt 0 (slice_index counts.now page.0)) pages.old.items }
    ensures capacity { vec_capacity pages.new ≡ vec_capacity pages.old }
{
    pages.retain(|page| is_counted(counts, *page));
}

// Adds a page whose counter was zero.
fn add_counted(pages: &mut Vec<PageNo>, page: PageNo, count: u8)
    requires { vec_len pages.old < vec_capacity pages.old }
    ensures pages { pages.new.items
        ≡ (if count == 0 then pages.old.items ++ page ∷ [] else pages.old.items) }
    ensures capacity { vec_capacity pages.old ≤ vec_capacity pages.new }
{
    if count > 0 {
        return;
    }
    match pages.push(page) {
        Ok(()) => {}
        Err(_) => unreachable!(),
    }
}

impl Counters {
    ghost use Rattle.ff_policy.specs.Counters.{AreCounted};

    /// So many counters of zero.
    pub fn new(alloc: Global, pages: u32) -> Result<Counters, NoMemory>
        ensures { IfOk result (λ counters. counters ≡ replicate pages 0) }
    {
        let counts = vec![in alloc; 0; pages as usize]?;
        let counted = Vec::with_capacity(alloc, MOST_COUNTED)?;
        Ok(Counters { counts, counted })
    }

    /// The counter of a page.
    pub fn count(&self, page: PageNo) -> u8
        requires { page.0 < length self.now }
        ensures { result ≡ slice_index self.now page.0 }
    {
        self.counts[page.0 as usize]
    }

    /// The pages whose counter isn't zero, each once.
    pub fn counted(&self) -> &[PageNo]
        ensures { AreCounted self.now result.now }
    {
        &self.counted
    }

    /// Counts an access to a page.
    pub fn raise(&mut self, page: PageNo)
        requires page { page.0 < length self.old }
        requires room { sum self.old < most_counted }
        ensures { self.new
            ≡ slice_set self.old page.0 (raised_count (slice_index self.old page.0)) }
    {
        let count = self.counts[page.0 as usize];
        add_counted(&mut self.counted, page, count);
        self.counts[page.0 as usize] = raised(count);
    }

    /// Sets a page's counter to zero.
    pub fn clear(&mut self, page: PageNo)
        requires { page.0 < length self.old }
        ensures { self.new ≡ slice_set self.old page.0 0 }
    {
        self.counts[page.0 as usize] = 0;
        keep_counted(&self.counts, &mut self.counted);
    }

    /// Halves every counter, rounded down.
    pub fn halve(&mut self)
        ensures { self.new ≡ halved self.old }
    {
        halve(&mut self.counts);
        keep_counted(&self.counts, &mut self.counted);
    }
}
