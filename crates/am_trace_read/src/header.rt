//! The first line of a text.

ghost use Rattle.std.specs.Prelude.{◌≡◌, ◌≢◌, ◌++◌, IfSome, IfNone};
ghost use Rattle.am_trace_text.specs.Headers.{IsHeader, header_words, limits_in, limits_for, two_numbers_in};
ghost use Rattle.am_trace_text.specs.Lines.{header_line, BeginsNoHeader};
ghost use Rattle.am_trace_text.specs.declared.header.Header.{Header as HeaderSpec};

use crate::cut::cut;
use crate::shape::{next, number, run, two};
use am_line_text::{Fields, words_are_fields};
use am_trace_text::{Header, StoreLimits, Version};

/// What the first line says, and what stands after it.
pub fn read_header(text: &[u8]) -> Option<(Header, &[u8])>
    ensures some { IfSome result (λ p. IsHeader p.0 × (text.now ≡ header_line p.0 ++ p.1.now)) }
    ensures none { IfNone result (BeginsNoHeader text.now) }
{
    words_are_fields();
    let (line, further) = cut(text, b'\n')?;
    let header = header_of(line)?;
    Some((header, further))
}

// What a line says that is the first of a text. It has no LF.
fn header_of(line: &[u8]) -> Option<Header>
    ensures some { IfSome result (λ h. IsHeader h × (line.now ≡ header_words h)) }
    ensures none { IfNone result ((h : HeaderSpec) → IsHeader h → line.now ≢ header_words h) }
{
    words_are_fields();
    if line == b"TRACE 1".as_slice() {
        return Some(Header::Profile(Version::One));
    }
    if line == b"TRACE 2".as_slice() {
        return Some(Header::Profile(Version::Two));
    }
    if line == b"TRACE 3".as_slice() {
        return Some(Header::Profile(Version::Three));
    }
    let numbers = line.strip_prefix(b"TRACE 4 ")?;
    let limits = read_limits(Fields::new(numbers))?;
    Some(Header::Limits(limits))
}

// The limits of five numbers, where a store can be given them.
fn read_limits(mut fields: Fields<'_>) -> Option<StoreLimits>
    ensures { result ≡ limits_in fields.entry }
{
    let runs_field = next(&mut fields)?;
    let key_field = next(&mut fields)?;
    let value_field = next(&mut fields)?;
    let (locks_field, operations_field) = two(fields)?;
    let runs = run(runs_field)?;
    let bytes = two_numbers(key_field, value_field)?;
    let others = two_numbers(locks_field, operations_field)?;
    limits_for(runs, bytes, others)
}

fn two_numbers(first: &[u8], second: &[u8]) -> Option<(u64, u64)>
    ensures { result ≡ two_numbers_in first.now second.now }
{
    let first = number(first)?;
    let second = number(second)?;
    Some((first, second))
}

// These limits, of which the last are those of locks and operations, where a store can be given them.
fn limits_for(runs: u32, bytes: (u64, u64), others: (u64, u64)) -> Option<StoreLimits>
    ensures { result ≡ limits_for (runs, (bytes, others)) }
{
    let limits = StoreLimits {
        runs,
        key_bytes: bytes.0,
        value_bytes: bytes.1,
        locks: others.0,
        operations: others.1,
    };
    if limits.can_be_given() {
        Some(limits)
    } else {
        None
    }
}
