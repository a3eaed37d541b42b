// The calls that are drawn.
ghost use Rattle.std.specs.Prelude.{◌≡◌, ◌<◌};
ghost use Rattle.std.specs.Int.{to_be_bytes, w64};
ghost use Rattle.ff_model.specs.declared.op.Op.TheVariants.{Store};
ghost use Rattle.ff_gen.specs.Calls.{access_from, address_of, call_from, call_of_kind, drawn_page};
ghost use Rattle.ff_gen.specs.Draws.{next_state};

use crate::draws::Draws;
use ff_base::{LINE_BYTES, PAGE_BYTES, PAGE_LINES};
use ff_model::{Op, Piece};

/// Draws the next call.
pub(crate) fn call(draws: &mut Draws) -> Op
    ensures op { result ≡ (call_from draws.old.state).op }
    ensures state { draws.new.state ≡ (call_from draws.old.state).state }
{
    let kind = draws.draw() % 16;
    call_of_kind(draws, kind)
}

fn call_of_kind(draws: &mut Draws, kind: u64) -> Op
    ensures op { result ≡ (call_of_kind kind draws.old.state).op }
    ensures state { draws.new.state ≡ (call_of_kind kind draws.old.state).state }
{
    if kind >= 14 {
        Op::Verify
    } else {
        access(draws, kind)
    }
}

fn access(draws: &mut Draws, kind: u64) -> Op
    ensures op { result ≡ (access_from kind draws.old.state).op }
    ensures state { draws.new.state ≡ (access_from kind draws.old.state).state }
{
    let page = draws.draw();
    let line = draws.draw();
    let at = address(page, line);
    if kind <= 8 {
        Op::Load { at, len: 8 }
    } else {
        store(draws, at)
    }
}

fn store(draws: &mut Draws, at: u32) -> Op
    ensures op { result ≡ Store at (to_be_bytes w64 (next_state draws.old.state)) }
    ensures state { draws.new.state ≡ next_state draws.old.state }
{
    let _ = draws.draw();
    Op::Store {
        at,
        bytes: Piece::from_slice(&draws.state.to_be_bytes()),
    }
}

fn address(page: u64, line: u64) -> u32
    ensures { result ≡ address_of page line }
{
    (drawn_page(page) * PAGE_BYTES as u64 + line % PAGE_LINES as u64 * LINE_BYTES as u64) as u32
}

fn drawn_page(number: u64) -> u64
    ensures page { result ≡ drawn_page number }
    ensures within { result < 256 }
{
    if number % 4 == 0 {
        number / 4 % 256
    } else {
        number / 4 % 16
    }
}
