// Rows that numbers make.
use super::*;
use ff_base::{Caller, PageNo};
use ff_model::{Kind, Op, Piece};
use ff_trace::Row;
use std::test::Fail;

fn call(caller: u16, op: Op) -> Row {
    Row::Call {
        caller: Caller(caller),
        op,
    }
}

fn load(caller: u16, at: u32) -> Row {
    call(caller, Op::Load { at, len: 8 })
}

fn store(caller: u16, at: u32, bytes: u64) -> Row {
    let bytes = Piece::from_slice(&bytes.to_be_bytes());
    call(caller, Op::Store { at, bytes })
}

fn mark(caller: u16, page: u32) -> Row {
    let page = PageNo(page);
    call(
        caller,
        Op::Mark {
            page,
            from: 0,
            count: 64,
        },
    )
}

fn turns(kind: Kind, count: u32) -> Row {
    Row::Turns { kind, count }
}

#[test]
fn the_first_draw_is_that_of_the_generator(rt: HostRuntime) {
    let mut draws = draws::Draws { state: 7 };
    let number = draws.draw();
    assert_eq!(rt; draws.state, 9_098_160_460_397_411_210);
    assert_eq!(rt; number, 1_059_165_278);
}

#[test]
fn rows_are_those_of_the_number(rt: HostRuntime) -> Result<(), Fail> {
    let rows = generate(rt.alloc(), 7)?;
    let first = [
        mark(0, 240),
        mark(1, 241),
        mark(2, 242),
        mark(3, 243),
        call(0, Op::Verify),
        call(1, Op::Verify),
        load(2, 19008),
        load(3, 1025280),
        store(0, 53440, 0x8f24_1366_2bd4_f733),
        load(1, 116544),
        load(2, 64704),
        store(3, 30208, 0x5cce_f742_487b_e4e5),
        load(0, 51008),
        load(1, 878144),
        load(2, 903680),
        store(3, 37568, 0xbb8e_d63b_5fab_5e6c),
        load(0, 26304),
        load(1, 372544),
        load(2, 559232),
        store(3, 763904, 0xeb84_2f41_92df_c637),
        turns(Kind::Promote, 64),
        turns(Kind::Evict, 32),
        turns(Kind::Collect, 8),
        turns(Kind::Drain, 4),
        load(0, 11520),
        call(1, Op::Verify),
    ];
    let last = [
        store(2, 7744, 0x0384_2841_cc18_34d0),
        load(3, 31040),
        turns(Kind::Promote, 64),
        turns(Kind::Evict, 32),
        turns(Kind::Collect, 8),
        turns(Kind::Drain, 4),
    ];
    assert_eq!(rt; rows.len(), 25_004);
    assert!(rt; rows.as_slice().starts_with(&first));
    assert!(rt; rows.as_slice().ends_with(&last));
    let rows = generate(rt.alloc(), 4_294_967_295)?;
    let first = [
        mark(0, 240),
        mark(1, 241),
        mark(2, 242),
        mark(3, 243),
        call(0, Op::Verify),
        store(1, 1000128, 0x4f22_fafd_0bcb_f9f6),
        call(2, Op::Verify),
        load(3, 307136),
    ];
    assert!(rt; rows.as_slice().starts_with(&first));
    Ok(())
}
