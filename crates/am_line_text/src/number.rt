//! Numbers in lines.

ghost use Rattle.std.specs.Prelude.{◌≡◌, ◌≤◌, length, true, Some, if◌then◌else◌};
ghost use Rattle.std.specs.Char.{is_ascii_digit};
ghost use Rattle.std.specs.List.{list_all};
ghost use Rattle.am_line_text.specs.Numbers.{is_numeral, numeral_value, number_for};

use crate::fault::LineFault;
use std::str;

/// So many digits always fit 64 bits.
const SHORT: usize = 19;

/// The number of a field; None where it has more than 64 bits, Syntax where the field is no number.
pub fn parse_number(field: &[u8]) -> Result<Option<u64>, LineFault>
    ensures { result ≡ (if is_numeral field.now
        then Ok (number_for (numeral_value field.now)) else Err LineFault.Syntax) }
{
    if !is_numeral(field) {
        return Err(LineFault::Syntax);
    }
    if field.len() <= SHORT {
        return Ok(Some(short_number(field)));
    }
    match str::from_utf8(field) {
        Ok(digits) => Ok(digits.parse().ok()),
        Err(_) => unreachable!(),
    }
}

// The number of a few digits.
fn short_number(digits: &[u8]) -> u64
    requires digits { list_all is_ascii_digit digits.now ≡ true }
    requires few { length digits.now ≤ 19 }
    ensures number { result ≡ numeral_value digits.now }
    ensures fits { number_for (numeral_value digits.now) ≡ Some (numeral_value digits.now) }
{
    let mut number = 0;
    for digit in digits {
        number = 10 * number + u64::from(digit - b'0');
    }
    number
}

// Whether the text is decimal digits, with no 0 before others.
fn is_numeral(text: &[u8]) -> bool
    ensures { result ≡ is_numeral text.now }
{
    match text.split_first() {
        None => false,
        Some((first, rest)) => {
            text.iter().all(u8::is_ascii_digit) && (*first != b'0' || rest.is_empty())
        }
    }
}
