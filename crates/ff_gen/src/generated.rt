// The rows that a number makes.
ghost use Rattle.std.specs.Prelude.{◌≡◌, ◌<◌, ◌%◌, ◌++◌, ◌∷◌, [], IfOk, OnOk};
ghost use Rattle.ff_gen.specs.Calls.{call_from};
ghost use Rattle.ff_gen.specs.Generated.{generated, mark_row, mark_rows, rows_at, turn_rows, turns_behind};
ghost use Rattle.ff_trace.specs.declared.row.Row.TheVariants.{Call, Turns};

use crate::calls::call;
use crate::draws::Draws;
use ff_base::{Caller, NoMemory, PageNo};
use ff_model::{Kind, Op};
use ff_trace::Row;
use std::alloc::Global;

// How many calls are drawn.
const CALLS: u32 = 20_000;

// How many rows there are: a mark of each caller, the calls, and four rows of turns behind each sixteenth.
const ROWS: usize = 25_004;

/// The rows that the number makes: a mark of each of four callers, then 20,000 calls that are drawn, with
/// background turns behind each sixteenth. They are meant for 256 pages.
pub fn generate(alloc: Global, number: u32) -> Result<Vec<Row>, NoMemory>
    ensures { IfOk result (λ rows. rows.items ≡ generated number) }
{
    let mut rows = Vec::with_capacity(alloc, ROWS)?;
    push_marks(&mut rows)?;
    let mut draws = Draws {
        state: u64::from(number),
    };
    for at in 0..CALLS {
        push_rows(&mut rows, at, &mut draws)?;
    }
    Ok(rows)
}

fn push_marks(rows: &mut Vec<Row>) -> Result<(), NoMemory>
    ensures { OnOk result (rows.new.items ≡ rows.old.items ++ mark_rows) }
{
    push_row(rows, mark_row(0))?;
    push_row(rows, mark_row(1))?;
    push_row(rows, mark_row(2))?;
    push_row(rows, mark_row(3))
}

fn mark_row(caller: u16) -> Row
    requires { caller < 4 }
    ensures { result ≡ mark_row caller }
{
    Row::Call {
        caller: Caller(caller),
        op: Op::Mark {
            page: PageNo(240 + u32::from(caller)),
            from: 0,
            count: 64,
        },
    }
}

fn push_rows(rows: &mut Vec<Row>, number: u32, draws: &mut Draws) -> Result<(), NoMemory>
    ensures rows { OnOk result
        (rows.new.items ≡ rows.old.items ++ rows_at (number, (call_from draws.old.state).op)) }
    ensures state { OnOk result (draws.new.state ≡ (call_from draws.old.state).state) }
{
    let row = call_row(number, draws);
    push_row(rows, row)?;
    push_turns_behind(rows, number)
}

fn call_row(number: u32, draws: &mut Draws) -> Row
    ensures row { result ≡ Call (record { 0 = number % 4 }) (call_from draws.old.state).op }
    ensures state { draws.new.state ≡ (call_from draws.old.state).state }
{
    Row::Call {
        caller: Caller((number % 4) as u16),
        op: call(draws),
    }
}

fn push_turns_behind(rows: &mut Vec<Row>, number: u32) -> Result<(), NoMemory>
    ensures { OnOk result (rows.new.items ≡ rows.old.items ++ turns_behind number) }
{
    if number % 16 == 15 {
        push_turns(rows)
    } else {
        Ok(())
    }
}

fn push_turns(rows: &mut Vec<Row>) -> Result<(), NoMemory>
    ensures { OnOk result (rows.new.items ≡ rows.old.items ++ turn_rows) }
{
    push_turn(rows, Kind::Promote, 64)?;
    push_turn(rows, Kind::Evict, 32)?;
    push_turn(rows, Kind::Collect, 8)?;
    push_turn(rows, Kind::Drain, 4)
}

fn push_turn(rows: &mut Vec<Row>, kind: Kind, count: u32) -> Result<(), NoMemory>
    ensures { OnOk result (rows.new.items ≡ rows.old.items ++ Turns kind count ∷ []) }
{
    push_row(rows, Row::Turns { kind, count })
}

fn push_row(rows: &mut Vec<Row>, row: Row) -> Result<(), NoMemory>
    ensures { OnOk result (rows.new.items ≡ rows.old.items ++ row ∷ []) }
{
    Ok(rows.push(row)?)
}
