// Bytes in hexadecimal digits, read without a branch on a digit: which of sixteen a digit is can't
// be foreseen, and a wrong guess costs more than the digit.
ghost use Rattle.std.specs.Prelude.{◌≡◌, ◌*◌, Ok, IsErr, length};
ghost use Rattle.std.specs.Bool.{MatchBool};
ghost use Rattle.hex.specs.Hex.{decode_pairs};
ghost use Rattle.ff_trace.specs.Fields.{digit_or_sixteen};

/// Reads each pair of digits to a byte, and says whether all of them are digits.
pub(crate) fn decode(digits: &[u8], bytes: &mut [u8]) -> bool
    requires { length digits.now ≡ 2 * length bytes.old }
    ensures { MatchBool result
        (decode_pairs 0 digits.now ≡ Ok bytes.new)
        (IsErr (decode_pairs 0 digits.now)) }
{
    let mut greatest: u8 = 0;
    for i in 0..bytes.len() {
        let high = value_of(digits[2 * i]);
        let low = value_of(digits[2 * i + 1]);
        greatest = greatest.max(high).max(low);
        bytes[i] = 16 * (high % 16) + low % 16;
    }
    greatest < 16
}

// The value of a digit of either case, and 16 for any other byte.
fn value_of(byte: u8) -> u8
    ensures { result ≡ digit_or_sixteen byte }
{
    match byte {
        b'0'..=b'9' => byte - b'0',
        b'a'..=b'f' => byte - b'a' + 10,
        b'A'..=b'F' => byte - b'A' + 10,
        _ => 16,
    }
}
