// Masks and overlays, by their lines and bytes.
use ff_lines::{LineMask, overlay};
use ff_model::Piece;
use std::test::Fail;

// A mask, its least clear line, whether it has line 1 and line 63, and it with line 2 put in, with line 0 taken out,
// and its other lines.
#[derive(Clone, Copy, Debug, PartialEq, Eq)]
struct Row {
    mask: u64,
    first_clear: Option<u8>,
    has_1: bool,
    has_63: bool,
    with_2: u64,
    without_0: u64,
    others: u64,
}

static ROWS: [Row; 5] = [
    Row {
        mask: 0,
        first_clear: Some(0),
        has_1: false,
        has_63: false,
        with_2: 4,
        without_0: 0,
        others: 0xFFFF_FFFF_FFFF_FFFF,
    },
    Row {
        mask: 1,
        first_clear: Some(1),
        has_1: false,
        has_63: false,
        with_2: 5,
        without_0: 0,
        others: 0xFFFF_FFFF_FFFF_FFFE,
    },
    Row {
        mask: 0x8000_0000_0000_0000,
        first_clear: Some(0),
        has_1: false,
        has_63: true,
        with_2: 0x8000_0000_0000_0004,
        without_0: 0x8000_0000_0000_0000,
        others: 0x7FFF_FFFF_FFFF_FFFF,
    },
    Row {
        mask: 0xFFFF_FFFF_FFFF_FFFF,
        first_clear: None,
        has_1: true,
        has_63: true,
        with_2: 0xFFFF_FFFF_FFFF_FFFF,
        without_0: 0xFFFF_FFFF_FFFF_FFFE,
        others: 0,
    },
    Row {
        mask: 0b1011,
        first_clear: Some(2),
        has_1: true,
        has_63: false,
        with_2: 0b1111,
        without_0: 0b1010,
        others: 0xFFFF_FFFF_FFFF_FFF4,
    },
];

fn with(mask: LineMask, line: u8) -> LineMask {
    let mut with = mask;
    with.set(line.min(63));
    with
}

fn without(mask: LineMask, line: u8) -> LineMask {
    let mut without = mask;
    without.clear(line.min(63));
    without
}

// What a mask comes to.
fn row_of(mask: u64) -> Row {
    let lines = LineMask(mask);
    Row {
        mask,
        first_clear: lines.first_clear(),
        has_1: lines.has(1),
        has_63: lines.has(63),
        with_2: with(lines, 2).0,
        without_0: without(lines, 0).0,
        others: lines.complement().0,
    }
}

#[test]
fn masks_by_their_lines(rt: HostRuntime) {
    for row in ROWS.iter() {
        assert_eq!(rt; row_of(row.mask), *row);
    }
}

// A line of ones with three bytes laid over it.
fn overlaid() -> [u8; 64] {
    let mut line = [1; 64];
    overlay(&mut line, 10, &Piece::from_slice(&[7, 8, 9]));
    line
}

#[test]
fn a_piece_covers_its_bytes_of_a_line(rt: HostRuntime) {
    let mut wanted = [1; 64];
    wanted[10] = 7;
    wanted[11] = 8;
    wanted[12] = 9;
    assert_eq!(rt; overlaid(), wanted);
}
