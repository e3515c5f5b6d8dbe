//! What stands in a field, and in all fields after a word.

ghost use Rattle.std.specs.Prelude.{◌≡◌, ◌∷◌, [], option_map, MatchOption};
ghost use Rattle.am_trace_text.specs.FieldReadings.{number_in, run_in};
ghost use Rattle.am_trace_text.specs.FieldReadings.{value_for_digits, key_in, value_in};
ghost use Rattle.am_trace_text.specs.FieldReadings.{record_in, range_in, nothing_in, savepoint_in, in_three};
ghost use Rattle.am_trace_text.specs.FieldReadings.{one_number_in, one_key_in, key_and_value_in};
ghost use Rattle.am_trace_text.specs.FieldReadings.{one_value_in, range_and_number_in};
ghost use Rattle.am_trace_text.specs.FieldReadings.{lock_fields_in, records_of_fields};
ghost use Rattle.am_trace_text.specs.FieldReadings.{key_and_number_in, number_and_run_in, counted_records_in};
ghost use Rattle.am_trace_text.specs.FieldReadings.{refusal_read, one_of, two_of, three_of, IsReadAs};

use crate::word::refusal_for;
use am_line_text::{Fields, parse_mode, parse_number, split_record};
use am_record::{Key, Lock, Range, Records, Refusal, Value};
use am_trace_text::{ReadFault, Version, byte_of};
use arrayvec::ArrayVec;
use std::alloc::Global;

/// The most bytes that a field may have the digits of: those of a value.
const MOST_BYTES: usize = 64;

pub(crate) fn next<'a>(fields: &mut Fields<'a>) -> Option<&'a [u8]>
    ensures { MatchOption result (fields.old ≡ []) (λ f. fields.old ≡ f.now ∷ fields.new) }
{
    fields.next().ok()
}

/// Nothing.
pub(crate) fn read_nothing(fields: Fields<'_>) -> Option<()>
    ensures { result ≡ nothing_in fields.entry }
{
    fields.end().ok()
}

/// Nothing, where the version knows savepoints.
pub(crate) fn read_savepoint(version: Version, fields: Fields<'_>) -> Option<()>
    ensures { result ≡ savepoint_in version fields.entry }
{
    match version {
        Version::One => None,
        Version::Two | Version::Three => read_nothing(fields),
    }
}

/// What was read, where the version is the third, which alone knows it.
pub(crate) fn of_three<T: Drop>(version: Version, read: Option<T>) -> Option<T>
    ensures { result ≡ in_three version read }
{
    match version {
        Version::One | Version::Two => None,
        Version::Three => read,
    }
}

pub(crate) fn number(field: &[u8]) -> Option<u64>
    ensures { result ≡ number_in field.now }
{
    parse_number(field).ok().flatten()
}

/// The number of a run, or of runs.
pub(crate) fn run(field: &[u8]) -> Option<u32>
    ensures { result ≡ run_in field.now }
{
    u32::try_from(number(field)?).ok()
}

// The bytes of digits, two each, where they are at most 64.
fn bytes_of(digits: &[u8]) -> Option<ArrayVec<u8, MOST_BYTES>>
    ensures { option_map (λ bytes. bytes.items) result ≡ value_for_digits digits.now }
{
    let mut bytes = ArrayVec::new();
    let mut rest = digits;
    'pairs: while let Some((high, more)) = rest.split_first() {
        let (low, further) = more.split_first()?;
        let byte = byte_of(*high, *low)?;
        if bytes.is_full() {
            return None;
        }
        bytes.push(byte);
        rest = further;
    }
    Some(bytes)
}

// The bytes of a field that begins with the letter h, where they are at most 64.
fn bytes(field: &[u8]) -> Option<ArrayVec<u8, MOST_BYTES>>
    ensures { option_map (λ bytes. bytes.items) result ≡ value_in field.now }
{
    let (letter, digits) = field.split_first()?;
    if *letter == b'h' {
        bytes_of(digits)
    } else {
        None
    }
}

fn value(field: &[u8]) -> Option<Value>
    ensures { result ≡ value_in field.now }
{
    Value::new(bytes(field)?.as_slice())
}

fn key(version: Version, field: &[u8]) -> Option<Key>
    ensures { result ≡ key_in version field.now }
{
    match version {
        Version::One => number(field).map(Key::of_u64),
        Version::Two | Version::Three => Key::new(bytes(field)?.as_slice()),
    }
}

fn record(version: Version, field: &[u8]) -> Option<(Key, Value)>
    ensures { result ≡ record_in version field.now }
{
    let (key_field, value_field) = split_record(field);
    let key = key(version, key_field)?;
    let value = value(value_field)?;
    Some((key, value))
}

fn range(version: Version, lo: &[u8], hi: &[u8]) -> Option<Range>
    ensures { result ≡ range_in version lo.now hi.now }
{
    let lo = key(version, lo)?;
    let hi = key(version, hi)?;
    Range::new(lo, hi)
}

// The field, where there is just one.
fn one<'a>(mut fields: Fields<'a>) -> Option<&'a [u8]>
    ensures { option_map (λ f. f.now) result ≡ one_of fields.entry }
{
    let field = next(&mut fields)?;
    read_nothing(fields)?;
    Some(field)
}

/// The two fields, where there are just two.
pub(crate) fn two<'a>(mut fields: Fields<'a>) -> Option<(&'a [u8], &'a [u8])>
    ensures { option_map (λ p. (p.0.now, p.1.now)) result ≡ two_of fields.entry }
{
    let first = next(&mut fields)?;
    let second = one(fields)?;
    Some((first, second))
}

// The three fields, where there are just three.
fn three<'a>(mut fields: Fields<'a>) -> Option<(&'a [u8], &'a [u8], &'a [u8])>
    ensures { option_map (λ p. (p.0.now, p.1.now, p.2.now)) result ≡ three_of fields.entry }
{
    let first = next(&mut fields)?;
    let (second, third) = two(fields)?;
    Some((first, second, third))
}

/// A number.
pub(crate) fn read_number(fields: Fields<'_>) -> Option<u64>
    ensures { result ≡ one_number_in fields.entry }
{
    number(one(fields)?)
}

/// A key.
pub(crate) fn read_key(version: Version, fields: Fields<'_>) -> Option<Key>
    ensures { result ≡ one_key_in version fields.entry }
{
    key(version, one(fields)?)
}

/// A value.
pub(crate) fn read_value(fields: Fields<'_>) -> Option<Value>
    ensures { result ≡ one_value_in fields.entry }
{
    value(one(fields)?)
}

/// A key and a value.
pub(crate) fn read_key_and_value(version: Version, fields: Fields<'_>) -> Option<(Key, Value)>
    ensures { result ≡ key_and_value_in version fields.entry }
{
    let (key_field, value_field) = two(fields)?;
    let key = key(version, key_field)?;
    let value = value(value_field)?;
    Some((key, value))
}

/// A key and a number.
pub(crate) fn read_key_and_number(version: Version, fields: Fields<'_>) -> Option<(Key, u64)>
    ensures { result ≡ key_and_number_in version fields.entry }
{
    let (key_field, number_field) = two(fields)?;
    let key = key(version, key_field)?;
    let number = number(number_field)?;
    Some((key, number))
}

/// A number, and the number of a run.
pub(crate) fn read_number_and_run(fields: Fields<'_>) -> Option<(u64, u32)>
    ensures { result ≡ number_and_run_in fields.entry }
{
    let (number_field, run_field) = two(fields)?;
    let number = number(number_field)?;
    let run = run(run_field)?;
    Some((number, run))
}

/// The ends of a range, and a number.
pub(crate) fn read_range_and_number(version: Version, fields: Fields<'_>) -> Option<(Range, u64)>
    ensures { result ≡ range_and_number_in version fields.entry }
{
    let (lo, hi, number_field) = three(fields)?;
    let range = range(version, lo, hi)?;
    let number = number(number_field)?;
    Some((range, number))
}

/// A mode, and the ends of a range.
pub(crate) fn read_lock(version: Version, fields: Fields<'_>) -> Option<Lock>
    ensures { result ≡ lock_fields_in version fields.entry }
{
    let (mode_field, lo, hi) = three(fields)?;
    let mode = parse_mode(mode_field)?;
    let range = range(version, lo, hi)?;
    Some(Lock { mode, range })
}

/// Why a step was refused, but for a lock that conflicts.
pub(crate) fn read_refusal(fields: Fields<'_>) -> Option<Refusal>
    ensures { result ≡ refusal_read fields.entry }
{
    refusal_for(one(fields)?)
}

/// Records, any number of them.
pub(crate) fn read_records(
    alloc: Global,
    version: Version,
    mut fields: Fields<'_>,
) -> Result<Records, ReadFault>
    ensures { IsReadAs (records_of_fields version fields.entry) result }
{
    let mut items = Vec::new(alloc);
    'fields: while let Some(field) = next(&mut fields) {
        let record = record(version, field).ok_or(ReadFault::Bad)?;
        if items.push(record).is_err() {
            return Err(ReadFault::NoMemory);
        }
    }
    Ok(Records::new(items))
}

/// Records, where the version is the third.
pub(crate) fn read_records_of_three(
    alloc: Global,
    version: Version,
    fields: Fields<'_>,
) -> Result<Records, ReadFault>
    ensures { IsReadAs (in_three version (records_of_fields version fields.entry)) result }
{
    match version {
        Version::One | Version::Two => Err(ReadFault::Bad),
        Version::Three => read_records(alloc, version, fields),
    }
}

/// Records, and before them their number.
pub(crate) fn read_counted_records(
    alloc: Global,
    version: Version,
    mut fields: Fields<'_>,
) -> Result<Records, ReadFault>
    ensures { IsReadAs (counted_records_in version fields.entry) result }
{
    let field = next(&mut fields).ok_or(ReadFault::Bad)?;
    let count = number(field).ok_or(ReadFault::Bad)?;
    let records = read_records(alloc, version, fields)?;
    if records.as_slice().len() as u64 == count {
        Ok(records)
    } else {
        Err(ReadFault::Bad)
    }
}
