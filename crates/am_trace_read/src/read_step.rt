//! A step as it is read.

ghost use Rattle.std.specs.Prelude.{◌≡◌};
ghost use Rattle.am_trace_text.specs.FieldReadings.{IsReadAs};
ghost use Rattle.am_trace_text.specs.Steps.{small_op_in, op_in, do_in, step_of, step_in};

use crate::shape::{
    next, number, of_three, read_key, read_key_and_value, read_lock, read_nothing, read_number,
    read_range_and_number, read_records, read_records_of_three, read_savepoint,
};
use am_line_text::{Fields, Verb};
use am_record::{Op, Step};
use am_trace_text::{ReadFault, Version};
use std::alloc::Global;

/// A step, by all its fields.
pub(crate) fn read_step(
    alloc: Global,
    version: Version,
    mut fields: Fields<'_>,
) -> Result<Step, ReadFault>
    ensures { IsReadAs (step_in version fields.entry) result }
{
    let word = next(&mut fields).ok_or(ReadFault::Bad)?;
    let verb = Verb::of_word(word).ok_or(ReadFault::Bad)?;
    read_step_of(alloc, version, verb, fields)
}

// A step of the verb, by the fields after it.
fn read_step_of(
    alloc: Global,
    version: Version,
    verb: Verb,
    fields: Fields<'_>,
) -> Result<Step, ReadFault>
    ensures { IsReadAs (step_of version verb fields.entry) result }
{
    match verb {
        Verb::Begin => {
            read_nothing(fields).ok_or(ReadFault::Bad)?;
            Ok(Step::Begin)
        }
        Verb::Commit => Ok(Step::Commit(read_number(fields).ok_or(ReadFault::Bad)?)),
        Verb::Abort => Ok(Step::Abort(read_number(fields).ok_or(ReadFault::Bad)?)),
        Verb::Merge => Ok(Step::Merge(read_number(fields).ok_or(ReadFault::Bad)?)),
        Verb::Clean => {
            let (range, limit) = read_range_and_number(version, fields).ok_or(ReadFault::Bad)?;
            Ok(Step::Clean(range, limit))
        }
        _ => read_do(alloc, version, verb, fields),
    }
}

// An operation of the verb with the number of its transaction before it.
fn read_do(
    alloc: Global,
    version: Version,
    verb: Verb,
    mut fields: Fields<'_>,
) -> Result<Step, ReadFault>
    ensures { IsReadAs (do_in version verb fields.entry) result }
{
    let field = next(&mut fields).ok_or(ReadFault::Bad)?;
    let tx = number(field).ok_or(ReadFault::Bad)?;
    let op = read_op(alloc, version, verb, fields)?;
    Ok(Step::Do(tx, op))
}

fn read_op(alloc: Global, version: Version, verb: Verb, fields: Fields<'_>) -> Result<Op, ReadFault>
    ensures { IsReadAs (op_in version verb fields.entry) result }
{
    match verb {
        Verb::Load => Ok(Op::Load(read_records(alloc, version, fields)?)),
        Verb::Put => Ok(Op::Put(read_records_of_three(alloc, version, fields)?)),
        _ => read_small_op(version, verb, fields).ok_or(ReadFault::Bad),
    }
}

// An operation that takes no memory.
fn read_small_op(version: Version, verb: Verb, fields: Fields<'_>) -> Option<Op>
    ensures { result ≡ small_op_in version verb fields.entry }
{
    match verb {
        Verb::Get => Some(Op::Get(read_key(version, fields)?)),
        Verb::Delete => Some(Op::Delete(read_key(version, fields)?)),
        Verb::Scan => {
            let (range, max) = read_range_and_number(version, fields)?;
            Some(Op::Scan(range, max))
        }
        Verb::ScanBack => {
            let (range, max) = of_three(version, read_range_and_number(version, fields))?;
            Some(Op::ScanBack(range, max))
        }
        Verb::Insert => {
            let (key, value) = read_key_and_value(version, fields)?;
            Some(Op::Insert(key, value))
        }
        Verb::Replace => {
            let (key, value) = read_key_and_value(version, fields)?;
            Some(Op::Replace(key, value))
        }
        Verb::Set => {
            let (key, value) = of_three(version, read_key_and_value(version, fields))?;
            Some(Op::Set(key, value))
        }
        Verb::DeleteRange => {
            let (range, max) = of_three(version, read_range_and_number(version, fields))?;
            Some(Op::DeleteRange(range, max))
        }
        Verb::Lock => Some(Op::Lock(read_lock(version, fields)?)),
        Verb::Mark => {
            read_savepoint(version, fields)?;
            Some(Op::Mark)
        }
        Verb::Back => {
            read_savepoint(version, fields)?;
            Some(Op::Back)
        }
        _ => None,
    }
}
