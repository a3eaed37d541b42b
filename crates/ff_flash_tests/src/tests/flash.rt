// The table of the operations on the pages of a flash, its counts and its cuts.
ghost use Rattle.std.specs.Prelude.{◌≡◌, IfOk};
ghost use Rattle.ff_flash.specs.Plans.{IsPlan, planned_of};

use ff_base::{Block, Geometry, NoMemory, PageBuf, PageNo, Ppn};
use ff_flash::{CutAt, Flash, FlashStop, Plan, Probe, SimFlash, Spare};
use std::alloc::Global;
use std::test::Fail;

const SPARE: Spare = Spare {
    page: PageNo(3),
    version: 7,
};

#[test]
fn a_spare_is_written_as_sixteen_bytes(rt: HostRuntime) {
    let mut bytes = [0, 0, 0, 3, 0, 0, 0, 0, 0, 0, 0, 0, 0, 0, 0, 7];
    assert_eq!(rt; SPARE.to_bytes(), bytes);
    assert_eq!(rt; Spare::from_bytes(&bytes), Some(SPARE));
    bytes[4] = 1;
    assert_eq!(rt; Spare::from_bytes(&bytes), None);
}

/// An operation on the first page of the second block, or on that block.
#[derive(Clone, Copy)]
enum Call {
    Probe,
    Read,
    Program,
    Seal,
    Erase,
}

/// How the operation is made to go.
#[derive(Clone, Copy)]
enum Way {
    Works,
    Fails,
    Cut(u32),
}

type Answer = Option<Result<(), FlashStop>>;

static WAYS: [Way; 5] = [
    Way::Works,
    Way::Fails,
    Way::Cut(0),
    Way::Cut(1),
    Way::Cut(3),
];

// The operation, the state of the first two pages of the block before it, and for each way that it goes the letter of
// its answer and those of the two states after it.
static ROWS: [(Call, u8, &[u8; 20]); 11] = [
    (Call::Probe, b'e', b"oee fee -ee -ee -ee "),
    (Call::Probe, b's', b"oss fss -ss -ss -ss "),
    (Call::Probe, b'c', b"occ fcc -cc -cc -cc "),
    (Call::Probe, b'x', b"oxx fxx -xx -xx -xx "),
    (Call::Read, b'x', b"oxx fxx -xx -xx -xx "),
    (Call::Program, b'e', b"oce fse -ee -se -se "),
    (Call::Seal, b'c', b"oxc fcc -cc -xc -xc "),
    (Call::Erase, b'e', b"oee fee -ee -se -ss "),
    (Call::Erase, b's', b"oee fss -ss -ss -ss "),
    (Call::Erase, b'c', b"oee fcc -cc -sc -ss "),
    (Call::Erase, b'x', b"oee fxx -xx -sx -ss "),
];

#[test]
fn pages_change_by_the_table(rt: HostRuntime) -> Result<(), Fail> {
    for (call, state, wanted) in ROWS.iter() {
        assert_eq!(rt; row(rt.alloc(), *call, *state)?, **wanted);
    }
    Ok(())
}

// The letters of an operation from a state, each way that it goes.
fn row(alloc: Global, call: Call, state: u8) -> Result<[u8; 20], NoMemory> {
    let mut letters = *b"                    ";
    let mut page = PageBuf::new(alloc)?;
    for i in 0..5 {
        let [answer, first, second] = letters_of(alloc, call, state, WAYS[i], &mut page)?;
        letters[4 * i] = answer;
        letters[4 * i + 1] = first;
        letters[4 * i + 2] = second;
    }
    Ok(letters)
}

// The letters of an operation that goes this way.
fn letters_of(
    alloc: Global,
    call: Call,
    state: u8,
    way: Way,
    page: &mut PageBuf,
) -> Result<[u8; 3], NoMemory> {
    let mut flash = flash_in(alloc, state, way, page)?;
    let answer = answer_letter(make(&mut flash, call, Ppn(4), page));
    let (first, second) = (flash.glance(Ppn(4)), flash.glance(Ppn(5)));
    drop(flash);
    Ok([answer, state_letter(first), state_letter(second)])
}

fn answer_letter(answer: Answer) -> u8 {
    match answer {
        Some(Ok(())) => b'o',
        Some(Err(FlashStop::Failed)) => b'f',
        Some(Err(FlashStop::Off)) => b'-',
        None => b'?',
    }
}

fn state_letter(state: Option<Probe>) -> u8 {
    match state {
        Some(Probe::Erased) => b'e',
        Some(Probe::Spoiled) => b's',
        Some(Probe::Closed) => b'c',
        Some(Probe::Sealed(_)) => b'x',
        None => b'?',
    }
}

/// The operations made, the faults, whether the power is on, and the posts that arrive after a cut.
type Told = (u64, u64, bool, Option<u32>);

fn told(flash: &SimFlash) -> Told {
    (
        flash.operation_count(),
        flash.fault_count(),
        flash.is_on(),
        flash.cut_arrive(),
    )
}

// What a flash tells once it is switched off, on, and off again.
fn switched(flash: &mut SimFlash) -> [Told; 3] {
    flash.power_off();
    let off = told(flash);
    flash.power_up();
    let on = told(flash);
    flash.power_off();
    [off, on, told(flash)]
}

// The same, and what a copy tells then that was made before.
fn switched_beside_copy(alloc: Global, flash: &mut SimFlash) -> Option<([Told; 3], Told)> {
    match flash.copy(alloc) {
        Ok(copy) => {
            let switched = switched(flash);
            let told = told(&copy);
            drop(copy);
            Some((switched, told))
        }
        Err(_) => None,
    }
}

#[test]
fn a_flash_tells_its_counts_and_its_cut(rt: HostRuntime) -> Result<(), Fail> {
    let mut page = PageBuf::new(rt.alloc())?;
    let mut flash = flash_in(rt.alloc(), b'e', Way::Cut(0), &mut page)?;
    let before = told(&flash);
    let _ = make(&mut flash, Call::Probe, Ppn(0), &mut page);
    let after = switched_beside_copy(rt.alloc(), &mut flash);
    drop(flash);
    assert_eq!(rt; before, (6, 0, true, None));
    let cut = (7, 0, false, Some(2));
    let switched = [cut, (7, 0, true, None), (7, 0, false, None)];
    assert_eq!(rt; after, Some((switched, cut)));
    Ok(())
}

// Whether a flash tells this plan.
fn tells(alloc: Global, flash: &SimFlash, way: Way) -> Result<bool, NoMemory> {
    let plan = plan_of(alloc, way)?;
    let told = flash.plan_is(&plan);
    drop(plan);
    Ok(told)
}

// Whether a flash that is cut tells its own plan, and whether another's.
fn plans_told(alloc: Global, flash: &SimFlash) -> Result<(bool, bool), NoMemory> {
    Ok((
        tells(alloc, flash, Way::Cut(0))?,
        tells(alloc, flash, Way::Fails)?,
    ))
}

#[test]
fn a_flash_tells_its_plan(rt: HostRuntime) -> Result<(), Fail> {
    let mut page = PageBuf::new(rt.alloc())?;
    let flash = flash_in(rt.alloc(), b'e', Way::Cut(0), &mut page)?;
    let told = plans_told(rt.alloc(), &flash);
    drop(flash);
    assert_eq!(rt; told?, (true, false));
    Ok(())
}

// The first operation, an erase, is cut and spoils two pages. The seventh goes this way.
fn plan_of(alloc: Global, way: Way) -> Result<Plan, NoMemory>
    ensures { IfOk result (λ plan. IsPlan (planned_of plan)) }
{
    let spoils = CutAt {
        at: 1,
        mask: 3,
        arrive: 0,
    };
    match way {
        Way::Works => Ok(Plan {
            fail: Vec::new(alloc),
            cuts: vec![in alloc; spoils]?,
        }),
        Way::Fails => Ok(Plan {
            fail: vec![in alloc; 7]?,
            cuts: vec![in alloc; spoils]?,
        }),
        Way::Cut(mask) => Ok(Plan {
            fail: Vec::new(alloc),
            cuts: vec![in alloc;
                spoils,
                CutAt {
                    at: 7,
                    mask,
                    arrive: 2
                },
            ]?,
        }),
    }
}

// A flash after six operations, of which the first two pages of the second block are in this state.
fn flash_in(alloc: Global, state: u8, way: Way, page: &mut PageBuf) -> Result<SimFlash, NoMemory>
    ensures { IfOk result (λ flash. flash.blocks ≡ 8) }
{
    let mut flash = SimFlash::new(alloc, &Geometry::default(), plan_of(alloc, way)?)?;
    let _ = make(&mut flash, Call::Erase, Ppn(4), page);
    flash.power_up();
    if state != b's' {
        let _ = make(&mut flash, Call::Erase, Ppn(4), page);
        bring(&mut flash, Ppn(4), state, page);
        bring(&mut flash, Ppn(5), state, page);
    }
    for _ in flash.operation_count()..6 {
        let _ = make(&mut flash, Call::Probe, Ppn(0), page);
    }
    Ok(flash)
}

// Brings an erased page to this state.
fn bring(flash: &mut SimFlash, at: Ppn, state: u8, page: &mut PageBuf)
    requires { flash.old.blocks ≡ 8 }
    ensures { flash.new.blocks ≡ 8 }
{
    if state != b'e' {
        let _ = make(flash, Call::Program, at, page);
    }
    if state == b'x' {
        let _ = make(flash, Call::Seal, at, page);
    }
}

// Makes an operation on a flash of eight blocks of four pages, where it may be made.
fn make(flash: &mut SimFlash, call: Call, at: Ppn, page: &mut PageBuf) -> Answer
    requires { flash.old.blocks ≡ 8 }
    ensures { flash.new.blocks ≡ 8 }
{
    if flash.operation_count() >= 1 << 63 {
        return None;
    }
    match (call, flash.glance(at)?) {
        (Call::Probe, _) => Some(flash.probe(at).map(|_| ())),
        (Call::Read, Probe::Sealed(_)) => Some(flash.read(at, page)),
        (Call::Program, Probe::Erased) => Some(flash.program(at, page, SPARE)),
        (Call::Seal, Probe::Closed) => Some(flash.seal(at)),
        (Call::Erase, _) if at.0 < 8 * 4 => Some(flash.erase(Block(at.0 / 4))),
        _ => None,
    }
}
