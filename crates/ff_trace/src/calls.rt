// The call that the fields of a record are.
ghost use Rattle.std.specs.Prelude.{◌≡◌};
ghost use Rattle.ff_trace.specs.Fields.{both_of, if_empty, make_mark, make_release, op_of};
ghost use Rattle.ff_model.specs.declared.op.Op.TheVariants.{Load, Store, Verify};

use crate::fields::{LineRange, bytes, line_range, number};
use ff_base::PageNo;
use ff_model::{Op, Piece};

/// The call, from the fields `op`, `a` and `b`.
pub(crate) fn call(op: &[u8], a: &[u8], b: &[u8]) -> Option<Op>
    ensures { result ≡ op_of op.now a.now b.now }
{
    if op == b"load".as_slice() {
        load(number(a), number(b))
    } else if op == b"store".as_slice() {
        store(number(a), bytes(b))
    } else if op == b"verify".as_slice() {
        verify(a, b)
    } else if op == b"mark".as_slice() {
        mark(number(a), line_range(b))
    } else if op == b"release".as_slice() {
        release(number(a), line_range(b))
    } else {
        None
    }
}

fn load(at: Option<u32>, len: Option<u32>) -> Option<Op>
    ensures { result ≡ both_of Load at len }
{
    Some(Op::Load { at: at?, len: len? })
}

fn store(at: Option<u32>, bytes: Option<Piece>) -> Option<Op>
    ensures { result ≡ both_of Store at bytes }
{
    Some(Op::Store {
        at: at?,
        bytes: bytes?,
    })
}

fn verify(a: &[u8], b: &[u8]) -> Option<Op>
    ensures { result ≡ if_empty a.now (if_empty b.now (Some Verify)) }
{
    if a.is_empty() && b.is_empty() {
        Some(Op::Verify)
    } else {
        None
    }
}

fn mark(page: Option<u32>, lines: Option<LineRange>) -> Option<Op>
    ensures { result ≡ both_of make_mark page lines }
{
    let page = PageNo(page?);
    let LineRange { from, count } = lines?;
    Some(Op::Mark { page, from, count })
}

fn release(page: Option<u32>, lines: Option<LineRange>) -> Option<Op>
    ensures { result ≡ both_of make_release page lines }
{
    let page = PageNo(page?);
    let LineRange { from, count } = lines?;
    Some(Op::Release { page, from, count })
}
