//! From the bytes of a line to a request.

ghost use Rattle.std.specs.Prelude.{Some};
ghost use Rattle.am_line_wire.specs.Grammar.{Reads};
ghost use Rattle.am_line_wire.specs.LineReadings.{reading, fields_reading, verb_reading, MayRead};

use crate::load::parse_records;
use crate::request::Request;
use crate::shape::{
    parse_bare, parse_mode_and_range, parse_one_key, parse_one_number, parse_one_record,
    parse_range_and_number, parse_which_sessions,
};
use am_line_text::{Fields, LineFault, Verb};
use am_record::Op;
use std::alloc::Global;

/// Reads the bytes of a line, which its LF or CR LF isn't part of. Only records that it brings take memory.
#[inline(never)]
pub fn parse_line(alloc: Global, line: &[u8]) -> Result<Request, LineFault>
    ensures grammar { Reads line.now result }
    ensures reading { MayRead (reading line.now) result }
{
    parse_fields(alloc, Fields::new(line))
}

fn parse_fields(alloc: Global, mut fields: Fields<'_>) -> Result<Request, LineFault>
    ensures { MayRead (fields_reading fields.entry) result }
{
    let word = fields.next()?;
    match Verb::of_word(word) {
        Some(verb) => parse_with(alloc, verb, fields),
        None => Err(LineFault::Syntax),
    }
}

// What the verb asks for with the fields after it.
fn parse_with(alloc: Global, verb: Verb, fields: Fields<'_>) -> Result<Request, LineFault>
    ensures { MayRead (verb_reading (Some verb) fields.entry) result }
{
    match verb {
        Verb::Begin => parse_bare(fields, Request::Begin),
        Verb::Get => Ok(Request::Do(Op::Get(parse_one_key(fields)?))),
        Verb::Scan => {
            let (range, max) = parse_range_and_number(fields)?;
            Ok(Request::Do(Op::Scan(range, max)))
        }
        Verb::ScanBack => {
            let (range, max) = parse_range_and_number(fields)?;
            Ok(Request::Do(Op::ScanBack(range, max)))
        }
        Verb::Insert => {
            let (key, value) = parse_one_record(fields)?;
            Ok(Request::Do(Op::Insert(key, value)))
        }
        Verb::Replace => {
            let (key, value) = parse_one_record(fields)?;
            Ok(Request::Do(Op::Replace(key, value)))
        }
        Verb::Set => {
            let (key, value) = parse_one_record(fields)?;
            Ok(Request::Do(Op::Set(key, value)))
        }
        Verb::Delete => Ok(Request::Do(Op::Delete(parse_one_key(fields)?))),
        Verb::DeleteRange => {
            let (range, max) = parse_range_and_number(fields)?;
            Ok(Request::Do(Op::DeleteRange(range, max)))
        }
        Verb::Load => Ok(Request::Do(Op::Load(parse_records(alloc, fields)?))),
        Verb::Put => Ok(Request::Do(Op::Put(parse_records(alloc, fields)?))),
        Verb::Stage => Ok(Request::Stage(parse_records(alloc, fields)?)),
        Verb::Lock => Ok(Request::Do(Op::Lock(parse_mode_and_range(fields)?))),
        Verb::Mark => parse_bare(fields, Request::Do(Op::Mark)),
        Verb::Back => parse_bare(fields, Request::Do(Op::Back)),
        Verb::Commit => parse_bare(fields, Request::Commit),
        Verb::Abort => parse_bare(fields, Request::Abort),
        Verb::Merge => Ok(Request::Merge(parse_one_number(fields)?)),
        Verb::Clean => {
            let (range, limit) = parse_range_and_number(fields)?;
            Ok(Request::Clean(range, limit))
        }
        Verb::Seen => parse_bare(fields, Request::Seen),
        Verb::Hold => Ok(Request::Hold(parse_one_number(fields)?)),
        Verb::Who => Ok(Request::Who(parse_which_sessions(fields)?)),
        Verb::End => Ok(Request::End(parse_one_number(fields)?)),
        Verb::Quit => parse_bare(fields, Request::Quit),
    }
}
