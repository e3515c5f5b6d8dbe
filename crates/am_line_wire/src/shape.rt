//! What stands after the verb of a line. These functions get the fields after the verb.

ghost use Rattle.std.specs.Prelude.{◌≡◌};
ghost use Rattle.am_line_wire.specs.Shapes.{bare, one_key, one_record, one_number, range_and_number, mode_and_range};
ghost use Rattle.am_line_wire.specs.Shapes.{which_sessions};
ghost use Rattle.am_line_wire.specs.LineReadings.{values_in, map_ok};

use crate::request::{Request, WhichSessions};
use am_line_text::{
    Fields, LineFault, parse_key, parse_mode, parse_number, parse_range, parse_record,
};
use am_record::{Key, Lock, Range, Value};

/// Nothing: the verb alone asks for the request.
pub fn parse_bare(fields: Fields<'_>, request: Request) -> Result<Request, LineFault>
    ensures { result ≡ map_ok (λ _. request) (values_in bare fields.entry) }
{
    fields.end()?;
    Ok(request)
}

/// Nothing, or the word for all sessions.
pub fn parse_which_sessions(mut fields: Fields<'_>) -> Result<WhichSessions, LineFault>
    ensures { result ≡ values_in which_sessions fields.entry }
{
    if fields.end().is_ok() {
        return Ok(WhichSessions::Active);
    }
    let word = fields.next()?;
    fields.end()?;
    if word == b"ALL".as_slice() {
        Ok(WhichSessions::All)
    } else {
        Err(LineFault::Syntax)
    }
}

/// A key.
pub fn parse_one_key(mut fields: Fields<'_>) -> Result<Key, LineFault>
    ensures { result ≡ values_in one_key fields.entry }
{
    let key = fields.next()?;
    fields.end()?;
    parse_key(key)?.ok_or(LineFault::Range)
}

/// A key and a value.
pub fn parse_one_record(mut fields: Fields<'_>) -> Result<(Key, Value), LineFault>
    ensures { result ≡ values_in one_record fields.entry }
{
    let key = fields.next()?;
    let value = fields.next()?;
    fields.end()?;
    parse_record(key, value)?.ok_or(LineFault::Range)
}

/// A number.
pub fn parse_one_number(mut fields: Fields<'_>) -> Result<u64, LineFault>
    ensures { result ≡ values_in one_number fields.entry }
{
    let number = fields.next()?;
    fields.end()?;
    parse_number(number)?.ok_or(LineFault::Range)
}

/// The ends of a range, and a number.
pub fn parse_range_and_number(mut fields: Fields<'_>) -> Result<(Range, u64), LineFault>
    ensures { result ≡ values_in range_and_number fields.entry }
{
    let lo = fields.next()?;
    let hi = fields.next()?;
    let number = fields.next()?;
    fields.end()?;
    match (parse_range(lo, hi)?, parse_number(number)?) {
        (Some(range), Some(number)) => Ok((range, number)),
        _ => Err(LineFault::Range),
    }
}

/// A mode, and the ends of a range.
pub fn parse_mode_and_range(mut fields: Fields<'_>) -> Result<Lock, LineFault>
    ensures { result ≡ values_in mode_and_range fields.entry }
{
    let mode = fields.next()?;
    let lo = fields.next()?;
    let hi = fields.next()?;
    fields.end()?;
    let mode = parse_mode(mode).ok_or(LineFault::Syntax)?;
    let range = parse_range(lo, hi)?.ok_or(LineFault::Range)?;
    Ok(Lock { mode, range })
}
