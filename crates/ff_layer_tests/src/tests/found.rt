// What the cells of a flash hold, read from the flash alone.
use ff_base::{PageBuf, PageNo, Ppn};
use ff_flash::{Flash, Probe, SimFlash, Spare};

// The spare of a sealed page, and its first byte.
type Sealed = Option<(Spare, u8)>;

/// What is sealed in four blocks of two pages.
#[derive(Drop)]
pub struct Found {
    cells: [Sealed; 8],
}

fn sealed_at(flash: &mut SimFlash, at: Ppn, page: &mut PageBuf) -> Sealed {
    match flash.glance(at) {
        Some(Probe::Sealed(spare)) if flash.operation_count() < 1 << 63 => {
            flash.read(at, page).ok()?;
            Some((spare, page.line(0)[0]))
        }
        _ => None,
    }
}

// The first byte of a page's best version, or 0 where it has none.
fn best_of(cells: &[Sealed], page: u32) -> u8 {
    let mut best = (0, 0);
    for (spare, byte) in cells.iter().flatten() {
        if spare.page == PageNo(page) && spare.version > best.0 {
            best = (spare.version, *byte);
        }
    }
    best.1
}

fn is_backed(cells: &[Sealed], block: usize, spare: Spare) -> bool {
    cells.iter().enumerate().any(|(at, cell)| match cell {
        Some((other, _)) => {
            at / 2 != block && other.page == spare.page && other.version >= spare.version
        }
        None => false,
    })
}

fn is_covered(cells: &[Sealed], block: usize) -> bool {
    cells.iter().enumerate().all(|(at, cell)| match cell {
        Some((spare, _)) => at / 2 != block || is_backed(cells, block, *spare),
        None => true,
    })
}

impl Found {
    pub fn of(flash: &mut SimFlash, page: &mut PageBuf) -> Found {
        let mut cells = [None; 8];
        for (at, cell) in cells.iter_mut().enumerate() {
            *cell = sealed_at(flash, Ppn(at as u32), page);
        }
        Found { cells }
    }

    pub fn best_bytes(&self) -> [u8; 5] {
        let mut bytes = [0; 5];
        for (page, byte) in bytes.iter_mut().enumerate() {
            *byte = best_of(&self.cells, page as u32);
        }
        bytes
    }

    pub fn has_covered_block(&self) -> bool {
        (0..4).any(|block| is_covered(&self.cells, block))
    }
}
