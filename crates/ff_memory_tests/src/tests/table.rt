// Homes, marks and born pages, on a table of three pages.
use ff_base::{Marks, PageNo};
use ff_table::{Home, Table};
use std::alloc::Global;
use std::test::Fail;

fn table_of_three(alloc: Global) -> Result<Table, Fail> {
    let marks = Marks::new(alloc, 3)?;
    match Table::new(alloc, 3, marks) {
        Ok(table) => Ok(table),
        Err(_) => Err("no memory")?,
    }
}

#[derive(Clone, Copy)]
enum Change {
    Home(u32, Home),
    Mark(u32, u64),
    Release(u32, u64),
    Bear(u32),
}

// Makes a change to a page that the table has.
fn change_page(table: &mut Table, change: Change) {
    let pages = table.pages();
    match change {
        Change::Home(page, home) if page < pages => table.set_home(PageNo(page), home),
        Change::Mark(page, lines) if page < pages => table.mark(PageNo(page), lines, true),
        Change::Release(page, lines) if page < pages => table.mark(PageNo(page), lines, false),
        Change::Bear(page) if page < pages => table.bear(PageNo(page)),
        _ => {}
    }
}

// The home, the marks and whether it is born, of page 1, and how many pages are born.
fn page_1(table: &Table) -> Option<(Home, u64, bool, u32)> {
    if table.pages() < 2 {
        return None;
    }
    let page = PageNo(1);
    let home = table.home(page);
    Some((home, table.marks(page), table.is_born(page), table.born()))
}

// The first two pages' marks.
fn marks_left(table: Table) -> Option<(u64, u64)> {
    if table.pages() < 2 {
        return None;
    }
    let marks = table.into_marks();
    Some((marks.lines(PageNo(0)), marks.lines(PageNo(1))))
}

// Changes, and what page 1 is after each.
static CHANGES: [(Change, (Home, u64, bool, u32)); 10] = [
    (Change::Home(0, Home::Host(7)), (Home::Ssd, 0, false, 0)),
    (Change::Home(1, Home::Host(3)), (Home::Host(3), 0, false, 0)),
    (Change::Mark(1, 0b1100), (Home::Host(3), 0b1100, false, 0)),
    (Change::Mark(1, 0b0110), (Home::Host(3), 0b1110, false, 0)),
    (Change::Mark(2, 1), (Home::Host(3), 0b1110, false, 0)),
    (Change::Bear(2), (Home::Host(3), 0b1110, false, 1)),
    (Change::Home(1, Home::Ssd), (Home::Ssd, 0b1110, false, 1)),
    (
        Change::Release(1, 0x8000_0000_0000_0005),
        (Home::Ssd, 0b1010, false, 1),
    ),
    (Change::Bear(1), (Home::Ssd, 0b1010, true, 2)),
    (Change::Bear(1), (Home::Ssd, 0b1010, true, 2)),
];

#[test]
fn a_page_by_its_number(rt: HostRuntime) -> Result<(), Fail> {
    let mut table = table_of_three(rt.alloc())?;
    assert_eq!(rt; page_1(&table), Some((Home::Ssd, 0, false, 0)));
    for (change, wanted) in CHANGES.iter() {
        change_page(&mut table, *change);
        assert_eq!(rt; page_1(&table), Some(*wanted));
    }
    assert_eq!(rt; marks_left(table), Some((0, 0b1010)));
    Ok(())
}
