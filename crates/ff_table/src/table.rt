// The page table, by page number.
ghost use Rattle.std.specs.Prelude.{◌≡◌, ◌<◌, IfOk, IfErr, length, replicate, false};
ghost use Rattle.ff_table.specs.declared.table.Home.TheVariants.{Ssd};

use ff_base::{Marks, NoMemory, PageNo};
use std::alloc::Global;
use std::marker::Model;

/// Where a page is at home.
#[derive(Clone, Copy, Debug, PartialEq, Eq)]
pub enum Home {
    /// On the SSD.
    Ssd,
    /// In this frame of the host memory.
    Host(u32),
}

/// The homes of all pages, the persist marks of their lines, and which pages are born.
#[derive(Drop)]
pub struct Table {
    homes: Vec<Home>,
    marks: Marks,
    born: Vec<bool>,
    count: u32,
}

impl Model for Table {
    ghost use Rattle.ff_table.specs.Table.{TableView};

    ghost Value = { TableView };

    ghost use Rattle.ff_table.specs.TableFields.{view_of, IsKept};

    ghost view = { view_of };

    ghost invariant = { IsKept };
}

// So many pages at home on the SSD.
fn homes_on_ssd(alloc: Global, pages: u32) -> Result<Vec<Home>, NoMemory>
    ensures { IfOk result (λ homes. homes.items ≡ replicate pages Ssd) }
{
    let homes = vec![in alloc; Home::Ssd; pages as usize]?;
    Ok(homes)
}

// So many pages that aren't born.
fn unborn(alloc: Global, pages: u32) -> Result<Vec<bool>, NoMemory>
    ensures { IfOk result (λ born. born.items ≡ replicate pages false) }
{
    let born = vec![in alloc; false; pages as usize]?;
    Ok(born)
}

impl Table {
    ghost use Rattle.ff_table.specs.Table.{IsTableSound, born_count_in, fresh_table, home_of, is_born_in, marks_of, with_born, with_home, with_marks};

    /// Every page is at home on the SSD and none is born; the marks are those handed in. The error is want of memory and
    /// hands the marks back.
    pub fn new(alloc: Global, pages: u32, marks: Marks) -> Result<Table, Marks>
        requires { length marks ≡ pages }
        ensures ok { IfOk result (λ table. table ≡ fresh_table pages marks) }
        ensures err { IfErr result (λ back. back ≡ marks) }
    {
        let Ok(homes) = homes_on_ssd(alloc, pages) else {
            return Err(marks);
        };
        let Ok(born) = unborn(alloc, pages) else {
            return Err(marks);
        };
        Ok(Table {
            homes,
            marks,
            born,
            count: 0,
        })
    }

    /// What every table keeps. For the prover alone.
    pub fn known(&self)
        ensures { IsTableSound self.now }
    {
        let _ = &self.homes;
    }

    /// How many pages there are.
    pub fn pages(&self) -> u32
        ensures { result ≡ length self.now.homes }
    {
        self.known();
        self.homes.len() as u32
    }

    /// Where a page is at home.
    pub fn home(&self, page: PageNo) -> Home
        requires { page.0 < length self.now.homes }
        ensures { result ≡ home_of self.now page.0 }
    {
        self.homes[page.0 as usize]
    }

    /// Gives a page another home.
    pub fn set_home(&mut self, page: PageNo, home: Home)
        requires { page.0 < length self.old.homes }
        ensures { self.new ≡ with_home page.0 home self.old }
    {
        self.homes[page.0 as usize] = home;
    }

    /// Marks the lines of a mask, or clears their marks; bit i of the mask stands for line i.
    pub fn mark(&mut self, page: PageNo, lines: u64, on: bool)
        requires { page.0 < length self.old.homes }
        ensures { self.new ≡ with_marks page.0 lines on self.old }
    {
        let before = self.marks.lines(page);
        let after = if on { before | lines } else { before & !lines };
        self.marks.set_lines(page, after);
    }

    /// The mask of a page's marked lines.
    pub fn marks(&self, page: PageNo) -> u64
        requires { page.0 < length self.now.homes }
        ensures { result ≡ marks_of self.now page.0 }
    {
        self.marks.lines(page)
    }

    /// Whether a page is born.
    pub fn is_born(&self, page: PageNo) -> bool
        requires { page.0 < length self.now.homes }
        ensures { result ≡ is_born_in self.now page.0 }
    {
        self.born[page.0 as usize]
    }

    /// A page is born, if it wasn't before.
    pub fn bear(&mut self, page: PageNo)
        requires { page.0 < length self.old.homes }
        ensures { self.new ≡ with_born page.0 self.old }
    {
        let at = page.0 as usize;
        if !self.born[at] {
            self.count += 1;
            self.born[at] = true;
        }
    }

    /// How many pages are born.
    pub fn born(&self) -> u32
        ensures { result ≡ born_count_in self.now }
    {
        self.count
    }

    /// The marks of all pages.
    pub fn into_marks(self) -> Marks
        ensures { result ≡ self.marks }
    {
        let Table {
            homes,
            marks,
            born,
            count: _,
        } = self;
        drop(homes);
        drop(born);
        marks
    }
}
