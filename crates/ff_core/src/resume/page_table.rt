// The page table over an image: the pages that it holds are born.
ghost use Rattle.std.specs.Prelude.{◌≡◌, ◌<◌, length, replicate, if◌then◌else◌, is_some, IfOk, IfErr, false};
ghost use Rattle.ff_model.specs.Image.{held_page};
ghost use Rattle.ff_table.specs.Table.{with_born};
ghost use Rattle.ff_core.specs.Resume.{pages_held, resumed_table};

use ff_base::{Marks, PageNo};
use ff_model::Image;
use ff_table::Table;
use std::alloc::Global;

fn holds(base: &Image, page: PageNo) -> bool
    ensures { result ≡ is_some (held_page base.now page.0) }
{
    base.page(page).is_some()
}

fn bear_where(table: &mut Table, page: PageNo, held: bool)
    requires { page.0 < length table.old.homes }
    ensures { table.new ≡ (if held then with_born page.0 table.old else table.old) }
{
    if held {
        table.bear(page);
    }
}

// The pages that an image holds are born.
fn bear_held(table: &mut Table, base: &Image, pages: u32)
    requires homes { length table.old.homes ≡ pages }
    requires unborn { table.old.born ≡ replicate pages false }
    requires size { length base.now.pages ≡ pages }
    ensures { table.new ≡ record table.old { born = pages_held base.now } }
{
    for page in 0..pages {
        let page = PageNo(page);
        bear_where(table, page, holds(base, page));
    }
}

// A page table in which the pages that an image holds are born. The error is want of memory, and hands the marks back.
pub fn make_table(alloc: Global, marks: Marks, base: &Image, pages: u32) -> Result<Table, Marks>
    requires marks { length marks ≡ pages }
    requires size { length base.now.pages ≡ pages }
    ensures ok { IfOk result (λ table. table ≡ resumed_table pages marks (pages_held base.now)) }
    ensures err { IfErr result (λ back. back ≡ marks) }
{
    match Table::new(alloc, pages, marks) {
        Ok(mut table) => {
            bear_held(&mut table, base, pages);
            Ok(table)
        }
        Err(marks) => Err(marks),
    }
}
