// Every step of an entry, and the slot of the next step.
ghost use Rattle.std.specs.Prelude.{◌≡◌, ◌<◌, IfOk, length};
ghost use Rattle.ff_plb.specs.Plb.{IsInUse};

use ff_base::{LINE_BYTES, PageNo};
use ff_lines::LineMask;
use ff_plb::{Flight, Landing, NextStep, Plb, Way};
use std::alloc::Global;
use std::test::Fail;

const PAGE: PageNo = PageNo(9);

#[derive(Clone, Copy, Debug)]
enum Step {
    Begin(Way, u64),
    Lift(u8),
    Land,
    Store(u8),
    TurnBack(u64),
    Close,
}

// What came of a flight.
#[derive(Clone, Copy, Debug, PartialEq, Eq)]
enum End {
    None,
    Landed(u8),
    Dropped,
}

// A step, what came of the flight that it ended, and the way, the copied lines and the line under way after it.
struct Row(Step, End, Option<(Way, u64, Option<u8>)>);

static ROWS: [Row; 20] = [
    Row(
        Step::Begin(Way::Coming, 0),
        End::None,
        Some((Way::Coming, 0, None)),
    ),
    Row(Step::Lift(0), End::None, Some((Way::Coming, 0, Some(0)))),
    Row(
        Step::Land,
        End::Landed(0),
        Some((Way::Coming, 0b0001, None)),
    ),
    Row(Step::Store(2), End::None, Some((Way::Coming, 0b0101, None))),
    Row(
        Step::Lift(1),
        End::None,
        Some((Way::Coming, 0b0101, Some(1))),
    ),
    Row(
        Step::Store(3),
        End::None,
        Some((Way::Coming, 0b1101, Some(1))),
    ),
    Row(
        Step::Store(1),
        End::None,
        Some((Way::Coming, 0b1111, Some(1))),
    ),
    Row(Step::Land, End::Dropped, Some((Way::Coming, 0b1111, None))),
    Row(
        Step::Lift(63),
        End::None,
        Some((Way::Coming, 0b1111, Some(63))),
    ),
    Row(
        Step::TurnBack(0b1110),
        End::None,
        Some((Way::Leaving, 0xFFFF_FFFF_FFFF_FFF1, None)),
    ),
    Row(
        Step::Lift(1),
        End::None,
        Some((Way::Leaving, 0xFFFF_FFFF_FFFF_FFF1, Some(1))),
    ),
    Row(
        Step::Store(1),
        End::None,
        Some((Way::Leaving, 0xFFFF_FFFF_FFFF_FFF1, None)),
    ),
    Row(
        Step::Lift(1),
        End::None,
        Some((Way::Leaving, 0xFFFF_FFFF_FFFF_FFF1, Some(1))),
    ),
    Row(
        Step::Store(2),
        End::None,
        Some((Way::Leaving, 0xFFFF_FFFF_FFFF_FFF1, Some(1))),
    ),
    Row(
        Step::Land,
        End::Landed(1),
        Some((Way::Leaving, 0xFFFF_FFFF_FFFF_FFF3, None)),
    ),
    Row(Step::Close, End::None, None),
    Row(
        Step::Begin(Way::Leaving, 5),
        End::None,
        Some((Way::Leaving, 5, None)),
    ),
    Row(Step::Lift(63), End::None, Some((Way::Leaving, 5, Some(63)))),
    Row(
        Step::Land,
        End::Landed(63),
        Some((Way::Leaving, 0x8000_0000_0000_0005, None)),
    ),
    Row(Step::Close, End::None, None),
];

fn flight(line: u8) -> Flight {
    Flight {
        line,
        bytes: [line; LINE_BYTES],
    }
}

// The page comes or goes by slot 1, where that is empty and the page has no entry.
fn begin(plb: &mut Plb, way: Way, bits: u64)
    requires { length plb.old ≡ 2 }
    ensures { length plb.new ≡ 2 }
{
    match (plb.get(1), plb.find(PAGE)) {
        (None, None) => plb.begin(1, PAGE, 4, way, LineMask(bits)),
        _ => {}
    }
}

fn land(plb: &mut Plb) -> End
    requires { IsInUse plb.old 1 }
    ensures { length plb.new ≡ length plb.old }
{
    match plb.entry(1).flight {
        Some(flight) if flight.line < 64 => end_of(plb.land(1)),
        _ => End::None,
    }
}

fn end_of(landing: Landing) -> End {
    match landing {
        Landing::Landed(flight) => End::Landed(flight.line),
        Landing::Dropped => End::Dropped,
    }
}

// A step of the entry in slot 1.
fn step_entry(plb: &mut Plb, step: Step) -> End
    requires { IsInUse plb.old 1 }
    ensures { length plb.new ≡ length plb.old }
{
    match step {
        Step::Begin(..) => {}
        Step::Lift(line) => plb.lift(1, flight(line)),
        Step::Land => return land(plb),
        Step::Store(line) => plb.store_hit(1, line.min(63)),
        Step::TurnBack(dirty) => plb.turn_back(1, LineMask(dirty)),
        Step::Close => plb.close(1),
    }
    End::None
}

fn make_step(plb: &mut Plb, step: Step) -> End
    requires { length plb.old ≡ 2 }
    ensures { length plb.new ≡ 2 }
{
    match (plb.get(1), step) {
        (Some(_), _) => step_entry(plb, step),
        (None, Step::Begin(way, bits)) => {
            begin(plb, way, bits);
            End::None
        }
        (None, _) => End::None,
    }
}

// The way, the copied lines and the line under way of the entry in slot 1.
fn entry_now(plb: &Plb) -> Option<(Way, u64, Option<u8>)>
    requires { length plb.now ≡ 2 }
{
    let entry = plb.get(1)?;
    let line = match entry.flight {
        Some(flight) => Some(flight.line),
        None => None,
    };
    Some((entry.way, entry.bits.0, line))
}

#[test]
fn an_entry_by_its_steps(rt: HostRuntime) -> Result<(), Fail> {
    let mut plb = Plb::new(rt.alloc(), 2)?;
    for (at, Row(step, end, entry)) in ROWS.iter().enumerate() {
        assert_eq!(rt; make_step(&mut plb, *step), *end, "row {at}");
        assert_eq!(rt; entry_now(&plb), *entry, "row {at}");
    }
    Ok(())
}

#[test]
fn a_page_and_a_slot_are_found(rt: HostRuntime) -> Result<(), Fail> {
    let mut plb = Plb::new(rt.alloc(), 2)?;
    plb.known();
    assert_eq!(rt; (plb.find(PAGE), plb.free_slot()), (None, Some(0)));
    plb.begin(0, PageNo(8), 3, Way::Leaving, LineMask(0));
    assert_eq!(rt; (plb.find(PAGE), plb.free_slot()), (None, Some(1)));
    begin(&mut plb, Way::Coming, 0);
    assert_eq!(rt; (plb.find(PAGE), plb.free_slot()), (Some(1), None));
    Ok(())
}

// The page of this number comes or goes by the slot of the same number, where that is empty and the page has no entry.
fn begin_in(plb: &mut Plb, slot: u32, way: Way, bits: u64)
    requires { slot < length plb.old }
    ensures { length plb.new ≡ length plb.old }
{
    match (plb.get(slot), plb.find(PageNo(slot))) {
        (None, None) => plb.begin(slot, PageNo(slot), slot, way, LineMask(bits)),
        _ => {}
    }
}

fn lift_in(plb: &mut Plb, slot: u32, line: u8)
    requires { slot < length plb.old }
    ensures { length plb.new ≡ length plb.old }
{
    match plb.get(slot) {
        Some(_) => plb.lift(slot, flight(line)),
        None => {}
    }
}

// A leaving page and a coming one that can finish, a coming one with a line under way and all its lines copied, and two
// coming ones with lines to lift.
fn in_flight(alloc: Global) -> Result<Plb, Fail>
    ensures { IfOk result (λ plb. length plb ≡ 6) }
{
    let mut plb = Plb::new(alloc, 6)?;
    begin_in(&mut plb, 0, Way::Leaving, u64::MAX);
    begin_in(&mut plb, 2, Way::Coming, u64::MAX - 1);
    begin_in(&mut plb, 3, Way::Coming, u64::MAX);
    begin_in(&mut plb, 4, Way::Coming, u64::MAX);
    begin_in(&mut plb, 5, Way::Coming, 1);
    lift_in(&mut plb, 3, 7);
    Ok(plb)
}

static NEXT: [(Way, NextStep, Option<u32>); 6] = [
    (Way::Coming, NextStep::Finish, Some(4)),
    (Way::Coming, NextStep::Land, Some(3)),
    (Way::Coming, NextStep::Lift, Some(2)),
    (Way::Leaving, NextStep::Finish, Some(0)),
    (Way::Leaving, NextStep::Land, None),
    (Way::Leaving, NextStep::Lift, None),
];

#[test]
fn the_least_slot_with_a_next_step(rt: HostRuntime) -> Result<(), Fail> {
    let plb = in_flight(rt.alloc())?;
    for (way, step, slot) in NEXT.iter() {
        assert_eq!(rt; plb.least_next(*way, *step), *slot, "{way:?} {step:?}");
    }
    Ok(())
}
