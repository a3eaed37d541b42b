// Texts and their rows, and texts that are refused.
ghost use Rattle.std.specs.Prelude.{◌≤◌, length};

use ff_base::{Caller, PageNo};
use ff_model::{Kind, Op, Piece};
use ff_trace::{BadTrace, Row, trace};
use std::alloc::{AllocError, Global};
use std::test::Fail;

fn call(caller: u16, op: Op) -> Row {
    Row::Call {
        caller: Caller(caller),
        op,
    }
}

fn load(at: u32, len: u32) -> Row {
    call(0, Op::Load { at, len })
}

fn store(at: u32, bytes: &[u8]) -> Row
    requires { length bytes.now ≤ 64 }
{
    let bytes = Piece::from_slice(bytes);
    call(0, Op::Store { at, bytes })
}

fn mark(page: u32, from: u32, count: u32) -> Row {
    let page = PageNo(page);
    call(0, Op::Mark { page, from, count })
}

fn release(page: u32, from: u32, count: u32) -> Row {
    let page = PageNo(page);
    call(0, Op::Release { page, from, count })
}

fn turns(kind: Kind, count: u32) -> Row {
    Row::Turns { kind, count }
}

fn gives(alloc: Global, text: &str, wanted: &[Row]) -> bool {
    match trace(alloc, text.as_bytes(), 0, false) {
        Ok(rows) => rows.as_slice() == wanted,
        Err(_) => false,
    }
}

// How many rows a text has, or why it is refused.
fn length(alloc: Global, text: &str, cuts: u32, threads: bool) -> Result<usize, BadTrace> {
    match trace(alloc, text.as_bytes(), cuts, threads) {
        Ok(rows) => Ok(rows.len()),
        Err(cause) => Err(cause),
    }
}

#[test]
fn rows_come_in_their_order(rt: HostRuntime) {
    let text = "caller,op,a,b\n0,store,10,aabb\n0,store,11,cc\n0,load,10,3\n";
    let wanted = [store(10, &[0xaa, 0xbb]), store(11, &[0xcc]), load(10, 3)];
    assert!(rt; gives(rt.alloc(), text, &wanted));
    assert!(rt; gives(rt.alloc(), "caller,op,a,b\n", &[]));
}

#[test]
fn one_row_has_many_spellings(rt: HostRuntime) {
    let wanted = [load(10, 3)];
    for text in [
        "caller,op,a,b\n0,load,10,3",
        "caller,op,a,b\r\n0,load,10,3\r\n",
        "caller,op,a,b\r0,load,10,3\r",
        "\ncaller,op,a,b\n\n\r\n0,load,10,3\n\n",
        "\u{feff}caller,op,a,b\n0,load,10,3\n",
        "\"caller\",\"op\",\"a\",\"b\"\n\"0\",\"load\",\"10\",\"3\"\n",
        "caller,op,a,b\n00,load,010,0000000003\n",
    ] {
        assert!(rt; gives(rt.alloc(), text, &wanted), "at {text}");
    }
}

// Records, and the rows that they are.
fn good_rows() -> [(&'static str, Row); 26] {
    [
        ("0000000000,load,4294967295,0", load(4294967295, 0)),
        ("0,load,0,4294967295", load(0, 4294967295)),
        ("63,load,1,2", call(63, Op::Load { at: 1, len: 2 })),
        ("0000000063,verify,,", call(63, Op::Verify)),
        ("0,store,7,", store(7, &[])),
        ("0,store,8,AbCdEf", store(8, &[0xab, 0xcd, 0xef])),
        (
            "0,store,1,\
            5a5a5a5a5a5a5a5a5a5a5a5a5a5a5a5a5a5a5a5a5a5a5a5a5a5a5a5a5a5a5a5a\
            5a5a5a5a5a5a5a5a5a5a5a5a5a5a5a5a5a5a5a5a5a5a5a5a5a5a5a5a5a5a5a5a",
            store(1, &[0x5a; 64]),
        ),
        ("0,verify,,", call(0, Op::Verify)),
        ("0,mark,3,", mark(3, 0, 64)),
        ("0,mark,3,0+64", mark(3, 0, 64)),
        ("0,mark,3,00+064", mark(3, 0, 64)),
        ("0,mark,3,9+1", mark(3, 9, 1)),
        ("0,mark,4294967295,60+5", mark(4294967295, 60, 5)),
        ("0,mark,0,4294967295+0", mark(0, 4294967295, 0)),
        ("0,release,3,", release(3, 0, 64)),
        ("0,release,3,1+2", release(3, 1, 2)),
        ("-,promote,12,", turns(Kind::Promote, 12)),
        ("-,evict,0,", turns(Kind::Evict, 0)),
        ("-,collect,1,", turns(Kind::Collect, 1)),
        ("-,drain,262144,", turns(Kind::Drain, 262_144)),
        ("-,power,0,", Row::Power { arrive: 0 }),
        ("-,power,4294967295,", Row::Power { arrive: 4294967295 }),
        ("\"0\",\"lo\"ad,10,3", load(10, 3)),
        ("\"-\",\"power\",\"1\",\"\"", Row::Power { arrive: 1 }),
        ("1,load,1,1", call(1, Op::Load { at: 1, len: 1 })),
        ("0,load,00,01", load(0, 1)),
    ]
}

#[test]
fn a_record_is_a_row(rt: HostRuntime) -> Result<(), Fail> {
    for (record, row) in good_rows() {
        let text = format!(in rt.alloc(); "caller,op,a,b\n{record}\n")?;
        assert!(rt; gives(rt.alloc(), text.as_str(), &[row]), "at {record}");
    }
    Ok(())
}

// Records of which none is a row.
static BAD_ROWS: [&str; 40] = [
    "0,fly,,",
    "0,Load,10,3",
    "64,load,10,3",
    ",load,10,3",
    "--,power,1,",
    "00000000000,load,10,3",
    "0,load,00000000010,3",
    "0,load,10,4294967296",
    "0,load,,3",
    "0,load,10,",
    "0,load,10,+3",
    "0,load,10, 3",
    "0,load,10",
    "0,load,10,3,",
    "0,store,10,abc",
    "0,store,10,0g",
    "0,store,,00",
    "0,store,1,5a\
    5a5a5a5a5a5a5a5a5a5a5a5a5a5a5a5a5a5a5a5a5a5a5a5a5a5a5a5a5a5a5a5a\
    5a5a5a5a5a5a5a5a5a5a5a5a5a5a5a5a5a5a5a5a5a5a5a5a5a5a5a5a5a5a5a5a",
    "0,verify,0,",
    "0,verify,,0",
    "-,verify,,",
    "0,mark,,",
    "0,mark,1,9",
    "0,mark,1,9+",
    "0,mark,1,+9",
    "0,mark,1,9+1+1",
    "0,mark,1,9 +1",
    "0,release,x,",
    "0,release,1,1-1",
    "-,load,10,3",
    "-,mark,1,",
    "-,promote,,",
    "-,promote,1,1",
    "-,evict,-1,",
    "-,promote,262145,",
    "0,promote,1,",
    "-,drained,1,",
    "-,power,,",
    "-,power,1,1",
    "0,power,1,",
];

// How many rows a text has whose second record is this one and whose third is none, or why it is refused.
fn length_with(alloc: Global, record: &str) -> Result<Result<usize, BadTrace>, AllocError> {
    let text = format!(in alloc; "caller,op,a,b\n0,load,1,1\n{record}\n0,fly,,\n")?;
    Ok(length(alloc, text.as_str(), 0, false))
}

#[test]
fn a_bad_record_is_no_row(rt: HostRuntime) -> Result<(), Fail> {
    for record in BAD_ROWS.iter() {
        let found = length_with(rt.alloc(), record)?;
        assert_eq!(rt; found, Err(BadTrace::Row(2)), "at {record}");
    }
    Ok(())
}

// How many cuts the settings have, whether callers are threads, a text, and the number of its rows or the record that is
// bad first.
static TEXTS: [(u32, bool, &str, Result<usize, BadTrace>); 17] = [
    (0, false, "", Err(BadTrace::Row(0))),
    (0, false, "\n\r\n", Err(BadTrace::Row(0))),
    (0, false, "0,load,10,3\n", Err(BadTrace::Row(0))),
    (
        0,
        false,
        "caller,op,a\n0,load,10,3\n",
        Err(BadTrace::Row(0)),
    ),
    (
        0,
        false,
        "caller,op,a,b,c\n0,load,10,3\n",
        Err(BadTrace::Row(0)),
    ),
    (
        0,
        false,
        "Caller,op,a,b\n0,load,10,3\n",
        Err(BadTrace::Row(0)),
    ),
    (
        0,
        false,
        "caller,op,a,b\n0,load,1,1\n0,load,2,\"2\n0,load,3,3\n",
        Err(BadTrace::Row(2)),
    ),
    (
        0,
        false,
        "caller,op,a,b\n\n0,load,2,2\n\n0,store,3,xx",
        Err(BadTrace::Row(2)),
    ),
    (
        0,
        false,
        "caller,op,a,b\n-,promote,262144,\n-,evict,262144,\n-,promote,1,",
        Err(BadTrace::Row(3)),
    ),
    (
        0,
        false,
        "caller,op,a,b\n-,collect,262143,\n-,collect,1,\n-,drain,262144,",
        Ok(3),
    ),
    (
        16,
        false,
        "caller,op,a,b\n-,power,0,",
        Err(BadTrace::Row(1)),
    ),
    (
        15,
        false,
        "caller,op,a,b\n-,power,0,\n-,power,0,",
        Err(BadTrace::Row(2)),
    ),
    (15, false, "caller,op,a,b\n-,power,0,", Ok(1)),
    (
        4294967295,
        false,
        "caller,op,a,b\n-,power,0,",
        Err(BadTrace::Row(1)),
    ),
    (17, false, "caller,op,a,b\n0,verify,,", Ok(1)),
    (0, true, "caller,op,a,b\n-,power,0,", Err(BadTrace::Row(1))),
    (0, true, "caller,op,a,b\n-,drain,1,\n63,verify,,", Ok(2)),
];

#[test]
fn the_first_bad_record_is_told(rt: HostRuntime) {
    for (cuts, threads, text, wanted) in TEXTS.iter() {
        let found = length(rt.alloc(), text, *cuts, *threads);
        assert_eq!(rt; found, *wanted, "at {text}");
    }
}

fn text_of_rows(alloc: Global, rows: u32) -> Result<String, AllocError> {
    let mut text = String::new(alloc);
    text.push_str("caller,op,a,b\n")?;
    for _ in 0..rows {
        text.push_str("0,load,4294967295,64\n")?;
    }
    Ok(text)
}

// How many rows a text of so many loads has, or why it is refused.
fn length_of_rows(alloc: Global, rows: u32) -> Result<Result<usize, BadTrace>, AllocError> {
    let text = text_of_rows(alloc, rows)?;
    Ok(length(alloc, text.as_str(), 0, false))
}

#[test]
fn one_row_past_the_limit_is_bad(rt: HostRuntime) -> Result<(), Fail> {
    assert_eq!(rt; length_of_rows(rt.alloc(), 262_144)?, Ok(262_144));
    let past = length_of_rows(rt.alloc(), 262_145)?;
    assert_eq!(rt; past, Err(BadTrace::Row(262_145)));
    Ok(())
}
