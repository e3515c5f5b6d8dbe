//! Answers as bytes.

ghost use Rattle.std.specs.Prelude.{◌≡◌, ◌^◌, ◌<◌, ◌++◌, codes, All};
ghost use Rattle.am_line_sink.specs.SinkWrites.{Wrote};
ghost use Rattle.am_resp_text.specs.Counts.{crlf, count_line, signed_numeral};
ghost use Rattle.am_resp_text.specs.Answers.{part_text, parts_text, IsPlainPart, IsOneAnswer};

use crate::part::Part;
use am_line_sink::{Failed, Sink, give_all};
use am_line_text::Text;

// A mark, a number and CR LF.
fn count_line(mark: u8, number: u64) -> Text
    ensures { result ≡ count_line mark number }
{
    Text::new(&[mark]).then_number(number).then(b"\r\n")
}

// The line of a number that may have a sign.
fn integer_line(number: i64) -> Text
    ensures { result ≡ codes ":" ++ (signed_numeral number ++ crlf) }
{
    let digits = number.unsigned_abs();
    if number < 0 {
        return Text::new(b":-").then_number(digits).then(b"\r\n");
    }
    count_line(b':', digits)
}

// Writes three pieces.
fn put_three<K: Sink>(sink: &mut K, first: &[u8], second: &[u8], third: &[u8]) -> Result<(), Failed>
    requires countable { K.failures sink.old < 2 ^ 63 }
    ensures { Wrote K.holds K.failures sink.old (first.now ++ (second.now ++ third.now)) result sink.new }
{
    give_all(sink, first)?;
    give_all(sink, second)?;
    give_all(sink, third)
}

/// Writes the text of a part. It takes no memory of its own. At a failure a beginning of the text went out.
pub fn put_part<K: Sink>(part: &Part<'_>, sink: &mut K) -> Result<(), Failed>
    requires countable { K.failures sink.old < 2 ^ 63 }
    requires plain { IsPlainPart part.now }
    ensures { Wrote K.holds K.failures sink.old (part_text part.now) result sink.new }
{
    match part {
        Part::Simple(text) => put_three(sink, b"+", text.as_slice(), b"\r\n"),
        Part::Error(text) => put_three(sink, b"-", text.as_slice(), b"\r\n"),
        Part::Integer(number) => give_all(sink, integer_line(*number).as_slice()),
        Part::Bulk(bytes) => put_three(
            sink,
            count_line(b'$', bytes.as_slice().len() as u64).as_slice(),
            bytes.as_slice(),
            b"\r\n",
        ),
        Part::Nil => give_all(sink, b"$-1\r\n"),
        Part::Array(count) => give_all(sink, count_line(b'*', *count).as_slice()),
        Part::NilArray => give_all(sink, b"*-1\r\n"),
    }
}

fn put_parts<K: Sink>(parts: &[Part<'_>], sink: &mut K) -> Result<(), Failed>
    requires countable { K.failures sink.old < 2 ^ 63 }
    requires plain { All IsPlainPart parts.now }
    ensures { Wrote K.holds K.failures sink.old (parts_text parts.now) result sink.new }
{
    for part in parts {
        put_part(part, sink)?;
    }
    Ok(())
}

/// Writes the text of an answer, part by part. It takes no memory of its own. At a failure a beginning of the text went
/// out.
pub fn put_answer<K: Sink>(parts: &[Part<'_>], sink: &mut K) -> Result<(), Failed>
    requires countable { K.failures sink.old < 2 ^ 63 }
    requires answer { IsOneAnswer parts.now }
    ensures { Wrote K.holds K.failures sink.old (parts_text parts.now) result sink.new }
{
    put_parts(parts, sink)
}
