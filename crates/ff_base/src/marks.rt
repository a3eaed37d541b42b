// The persist marks of all pages.
ghost use Rattle.std.specs.Prelude.{◌≡◌, ◌<◌, IfOk, length, List, ℕ, replicate, slice_set, slice_index};

use crate::{NoMemory, PageNo};
use std::alloc::Global;
use std::marker::Model;

/// The persist marks: for each page a mask of its lines, in which bit i stands for line i. A contract sees
/// them as the list of the masks.
#[derive(Drop)]
pub struct Marks {
    masks: Vec<u64>,
}

impl Model for Marks {
    ghost Value = { List ℕ };

    ghost view = { λ m. m.masks.items };
}

impl Marks {
    /// No line is marked.
    pub fn new(alloc: Global, pages: u32) -> Result<Marks, NoMemory>
        ensures { IfOk result (λ marks. marks ≡ replicate pages 0) }
    {
        let masks = vec![in alloc; 0; pages as usize]?;
        Ok(Marks { masks })
    }

    /// Equal marks.
    pub fn copy(&self, alloc: Global) -> Result<Marks, NoMemory>
        ensures { IfOk result (λ marks. marks ≡ self.now) }
    {
        let mut masks = Vec::with_capacity(alloc, self.masks.len())?;
        masks.extend_from_slice(&self.masks)?;
        Ok(Marks { masks })
    }

    /// Marks these lines of the page and no other of it.
    pub fn set_lines(&mut self, page: PageNo, lines: u64)
        requires { page.0 < length self.old }
        ensures { self.new ≡ slice_set self.old page.0 lines }
    {
        self.masks[page.0 as usize] = lines;
    }

    /// The marked lines of the page.
    pub fn lines(&self, page: PageNo) -> u64
        requires { page.0 < length self.now }
        ensures { result ≡ slice_index self.now page.0 }
    {
        self.masks[page.0 as usize]
    }
}
