// The row that a record is.
ghost use Rattle.std.specs.Prelude.{◌≡◌, ◌<◌, ◌∷◌, [], Some, length, option_map};
ghost use Rattle.csv.specs.Records.{field_at, fields_of};
ghost use Rattle.ff_trace.specs.Fields.{both_of, device_row_of, if_empty, is_header, kind_of, make_call, row_of};
ghost use Rattle.ff_trace.specs.declared.row.Row.TheVariants.{Power, Turns};

use crate::calls::call;
use crate::fields::{self, number};
use csv::ByteRecord;
use ff_base::Caller;
use ff_model::{Kind, Op};

/// A row of a trace.
#[derive(Debug, Drop, PartialEq, Eq)]
pub enum Row {
    /// A call of a caller.
    Call { caller: Caller, op: Op },
    /// So many background turns of a kind.
    Turns { kind: Kind, count: u32 },
    /// A loss of power, before which so many of the waiting posts arrive.
    Power { arrive: u32 },
}

/// The row that a record is, if it is of one of the forms.
#[tactic(auto, using(crate::proofs::FourFields::record_fields))]
pub(crate) fn row_from(record: &ByteRecord) -> Option<Row>
    ensures { result ≡ row_of (fields_of «record».now) }
{
    if record.len() != 4 {
        return None;
    }
    row_of_fields(
        field(record, 0),
        field(record, 1),
        field(record, 2),
        field(record, 3),
    )
}

/// Whether a record names the four fields.
#[tactic(auto, using(crate::proofs::FourFields::record_fields))]
pub(crate) fn is_header(record: &ByteRecord) -> bool
    ensures { result ≡ is_header (fields_of «record».now) }
{
    if record.len() != 4 {
        return false;
    }
    names_fields(
        field(record, 0),
        field(record, 1),
        field(record, 2),
        field(record, 3),
    )
}

fn names_fields(caller: &[u8], op: &[u8], a: &[u8], b: &[u8]) -> bool
    ensures { result ≡ is_header (caller.now ∷ op.now ∷ a.now ∷ b.now ∷ []) }
{
    caller == b"caller".as_slice()
        && op == b"op".as_slice()
        && a == b"a".as_slice()
        && b == b"b".as_slice()
}

#[tactic(auto, using(crate::proofs::FourFields::record_fields))]
fn field(record: &ByteRecord, at: usize) -> &[u8]
    requires { at < length (fields_of «record».now) }
    ensures { field_at (fields_of «record».now) at ≡ Some result.now }
{
    match record.get(at) {
        Some(field) => field,
        None => unreachable!(),
    }
}

fn row_of_fields(caller: &[u8], op: &[u8], a: &[u8], b: &[u8]) -> Option<Row>
    ensures { result ≡ row_of (caller.now ∷ op.now ∷ a.now ∷ b.now ∷ []) }
{
    if caller == b"-".as_slice() {
        device_row(op, a, b)
    } else {
        call_row(fields::caller(caller), call(op, a, b))
    }
}

fn call_row(caller: Option<u16>, op: Option<Op>) -> Option<Row>
    ensures { result ≡ both_of make_call caller op }
{
    Some(Row::Call {
        caller: Caller(caller?),
        op: op?,
    })
}

fn device_row(op: &[u8], a: &[u8], b: &[u8]) -> Option<Row>
    ensures { result ≡ if_empty b.now (device_row_of op.now a.now) }
{
    if !b.is_empty() {
        return None;
    }
    if op == b"power".as_slice() {
        power(number(a))
    } else {
        turns(kind(op), number(a))
    }
}

fn power(arrive: Option<u32>) -> Option<Row>
    ensures { result ≡ option_map (λ arrive. Power arrive) arrive }
{
    Some(Row::Power { arrive: arrive? })
}

fn turns(kind: Option<Kind>, count: Option<u32>) -> Option<Row>
    ensures { result ≡ both_of Turns kind count }
{
    Some(Row::Turns {
        kind: kind?,
        count: count?,
    })
}

fn kind(op: &[u8]) -> Option<Kind>
    ensures { result ≡ kind_of op.now }
{
    if op == b"promote".as_slice() {
        Some(Kind::Promote)
    } else if op == b"evict".as_slice() {
        Some(Kind::Evict)
    } else if op == b"collect".as_slice() {
        Some(Kind::Collect)
    } else if op == b"drain".as_slice() {
        Some(Kind::Drain)
    } else {
        None
    }
}
