// The fields of a record: decimal numbers, bytes in hexadecimal digits, and ranges of lines.
ghost use Rattle.std.specs.Prelude.{◌≡◌, ◌<◌, ◌≤◌, IfSome, length};
ghost use Rattle.std.specs.List.{list_all};
ghost use Rattle.std.specs.Char.{is_ascii_digit};
ghost use Rattle.ff_trace.specs.Fields.{caller_in, caller_of, digits_value, hex_bytes_of, line_range_of, number_of, plus_at, range_at};

use crate::hex_pairs::decode;
use ff_base::PAGE_LINES;
use ff_model::{PIECE_BYTES, Piece};

/// The callers of a trace, numbered from 0.
pub const CALLERS: u16 = 64;

const MOST_DIGITS: usize = 10;

/// A number of one to ten digits.
pub(crate) fn number(field: &[u8]) -> Option<u32>
    ensures { result ≡ number_of field.now }
{
    if field.is_empty() || field.len() > MOST_DIGITS || !all_digits(field) {
        return None;
    }
    u32::try_from(value(field)).ok()
}

fn all_digits(field: &[u8]) -> bool
    ensures { result ≡ list_all is_ascii_digit field.now }
{
    field.iter().all(|byte| byte.is_ascii_digit())
}

#[tactic(auto, using(crate::proofs::Digits::digit_values))]
fn value(digits: &[u8]) -> u64
    requires { length digits.now ≤ 10 }
    ensures { result ≡ digits_value digits.now }
{
    let mut value = 0;
    for digit in digits {
        value = 10 * value + u64::from(digit.saturating_sub(b'0'));
    }
    value
}

/// The bytes of an even count of hexadecimal digits, at most those of a piece.
pub(crate) fn bytes(field: &[u8]) -> Option<Piece>
    ensures { result ≡ hex_bytes_of field.now }
{
    if field.len() > 2 * PIECE_BYTES || field.len() % 2 != 0 {
        return None;
    }
    let mut room = [0; PIECE_BYTES];
    let bytes = &mut room[..field.len() / 2];
    if decode(field, bytes) {
        Some(Piece::from_slice(bytes))
    } else {
        None
    }
}

/// The number of a caller.
pub(crate) fn caller(field: &[u8]) -> Option<u16>
    ensures { result ≡ caller_of field.now }
{
    caller_in(number(field))
}

fn caller_in(number: Option<u32>) -> Option<u16>
    ensures { result ≡ caller_in number }
{
    match number {
        Some(number) if number < u32::from(CALLERS) => Some(number as u16),
        _ => None,
    }
}

/// A first line of a page, and a count of lines, as they are written.
#[derive(Clone, Copy)]
pub(crate) struct LineRange {
    pub from: u32,
    pub count: u32,
}

/// A range of lines: all lines where the field is empty, else the first line and the count with a
/// `+` between.
pub(crate) fn line_range(field: &[u8]) -> Option<LineRange>
    ensures { result ≡ line_range_of field.now }
{
    if field.is_empty() {
        return Some(LineRange {
            from: 0,
            count: PAGE_LINES as u32,
        });
    }
    range_at(field, plus_at(field))
}

fn range_at(field: &[u8], plus: Option<usize>) -> Option<LineRange>
    requires { IfSome plus (λ at. at < length field.now) }
    ensures { result ≡ range_at field.now plus }
{
    let at = plus?;
    Some(LineRange {
        from: number(&field[..at])?,
        count: number(&field[at + 1..])?,
    })
}

fn plus_at(field: &[u8]) -> Option<usize>
    ensures plus { result ≡ plus_at field.now }
    ensures within { IfSome result (λ at. at < length field.now) }
{
    field.iter().position(|byte| *byte == b'+')
}
