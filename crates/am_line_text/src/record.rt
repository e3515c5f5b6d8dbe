//! Records in lines.

ghost use Rattle.std.specs.Prelude.{◌≡◌, if◌then◌else◌};
ghost use Rattle.am_line_text.specs.Records.{record_for, record_text, is_record_text};

use crate::fault::LineFault;
use crate::key::parse_key;
use crate::place::position_of;
use crate::value::parse_value;
use am_record::{Key, Value};

/// The record of a key and a value; None where one of them is out of bounds, Syntax where one of them is none.
pub fn parse_record(key: &[u8], value: &[u8]) -> Result<Option<(Key, Value)>, LineFault>
    ensures { result ≡ (if is_record_text (key.now, value.now)
        then Ok (record_for (key.now, value.now)) else Err LineFault.Syntax) }
{
    match (parse_key(key)?, parse_value(value)?) {
        (Some(key), Some(value)) => Ok(Some((key, value))),
        _ => Ok(None),
    }
}

/// The record of a field `k=v`; None where it is out of bounds, Syntax where the field is no record.
pub fn parse_record_field(field: &[u8]) -> Result<Option<(Key, Value)>, LineFault>
    ensures { result ≡ (if is_record_text (record_text field.now)
        then Ok (record_for (record_text field.now)) else Err LineFault.Syntax) }
{
    let (key, value) = split_record(field);
    parse_record(key, value)
}

/// What stands before the first =, and what stands after it.
pub fn split_record(field: &[u8]) -> (&[u8], &[u8])
    ensures { (result.0.now, result.1.now) ≡ record_text field.now }
{
    match position_of(b'=', field) {
        Some(equals) => (&field[..equals], &field[equals + 1..]),
        None => (field, &[]),
    }
}
