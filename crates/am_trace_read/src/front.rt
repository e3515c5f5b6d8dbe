//! Lines of the shapes that come most often, read from their front: each byte is looked at once.

ghost use Rattle.std.specs.Prelude.{◌≡◌, ◌<◌, [], ◌∷◌, ◌++◌, codes, decimal, length, IfSome};
ghost use Rattle.am_trace_text.specs.Words.{hex, hex_digits, key_word};
ghost use Rattle.am_trace_text.specs.Bounds.{IsByteList, IsNumber, IsKey, IsValue, IsRecord};
ghost use Rattle.am_trace_text.specs.Replies.{IsReply};
ghost use Rattle.am_trace_text.specs.Lines.{IsEvent, reply_words, event_words, with_lf};

use crate::lanes::sixteen_bytes;
use am_line_text::words_are_fields;
use am_record::{Key, Op, Reply, Step, Value};
use am_trace_text::{Version, byte_of, digit_of};
use arrayvec::ArrayVec;

/// So many digits always fit 64 bits.
const SHORT: usize = 19;

/// The event of the first line, which is of version 2, and the lines after it. It knows the shapes that come most
/// often: any other line, right or wrong, is to be read by its fields.
#[inline(always)]
pub fn front_event(text: &[u8]) -> Option<((Step, Reply), &[u8])>
    ensures { IfSome result (λ p. IsEvent Version.Two p.0
        × (text.now ≡ with_lf (event_words Version.Two p.0) ++ p.1.now)) }
{
    match text {
        [b'G', b'E', b'T', b' ', rest @ ..] => front_get(rest),
        [b'I', b'N', b'S', b' ', rest @ ..] => front_insert(rest),
        [b'R', b'E', b'P', b' ', rest @ ..] => front_replace(rest),
        [b'D', b'E', b'L', b' ', rest @ ..] => front_delete(rest),
        [b'B', b'E', b'G', b'I', b'N', rest @ ..] => front_begin(rest),
        [b'C', b'O', b'M', b'M', b'I', b'T', b' ', rest @ ..] => front_commit(rest),
        _ => None,
    }
}

// What stands after the word of a Get, and the lines after it.
#[inline(always)]
fn front_get(text: &[u8]) -> Option<((Step, Reply), &[u8])>
    ensures { IfSome result (λ p. IsEvent Version.Two p.0
        × (codes "GET " ++ text.now ≡ with_lf (event_words Version.Two p.0) ++ p.1.now)) }
{
    let Some((tx, key, rest)) = front_key(text) else {
        return None;
    };
    let Some((reply, rest)) = front_end(rest) else {
        return None;
    };
    Some(((Step::Do(tx, Op::Get(key)), reply), rest))
}

// What stands after the word of an Insert, and the lines after it.
#[inline(always)]
fn front_insert(text: &[u8]) -> Option<((Step, Reply), &[u8])>
    ensures { IfSome result (λ p. IsEvent Version.Two p.0
        × (codes "INS " ++ text.now ≡ with_lf (event_words Version.Two p.0) ++ p.1.now)) }
{
    let Some((tx, key, value, rest)) = front_record(text) else {
        return None;
    };
    let Some((reply, rest)) = front_end(rest) else {
        return None;
    };
    Some(((Step::Do(tx, Op::Insert(key, value)), reply), rest))
}

// What stands after the word of a Replace, and the lines after it.
#[inline(always)]
fn front_replace(text: &[u8]) -> Option<((Step, Reply), &[u8])>
    ensures { IfSome result (λ p. IsEvent Version.Two p.0
        × (codes "REP " ++ text.now ≡ with_lf (event_words Version.Two p.0) ++ p.1.now)) }
{
    let Some((tx, key, value, rest)) = front_record(text) else {
        return None;
    };
    let Some((reply, rest)) = front_end(rest) else {
        return None;
    };
    Some(((Step::Do(tx, Op::Replace(key, value)), reply), rest))
}

// What stands after the word of a Delete, and the lines after it.
#[inline(always)]
fn front_delete(text: &[u8]) -> Option<((Step, Reply), &[u8])>
    ensures { IfSome result (λ p. IsEvent Version.Two p.0
        × (codes "DEL " ++ text.now ≡ with_lf (event_words Version.Two p.0) ++ p.1.now)) }
{
    let Some((tx, key, rest)) = front_key(text) else {
        return None;
    };
    let Some((reply, rest)) = front_end(rest) else {
        return None;
    };
    Some(((Step::Do(tx, Op::Delete(key)), reply), rest))
}

// What stands after the word of a Begin, and the lines after it.
#[inline(always)]
fn front_begin(text: &[u8]) -> Option<((Step, Reply), &[u8])>
    ensures { IfSome result (λ p. IsEvent Version.Two p.0
        × (codes "BEGIN" ++ text.now ≡ with_lf (event_words Version.Two p.0) ++ p.1.now)) }
{
    let Some((reply, rest)) = front_end(text) else {
        return None;
    };
    Some(((Step::Begin, reply), rest))
}

// What stands after the word of a Commit, and the lines after it.
#[inline(always)]
fn front_commit(text: &[u8]) -> Option<((Step, Reply), &[u8])>
    ensures { IfSome result (λ p. IsEvent Version.Two p.0
        × (codes "COMMIT " ++ text.now ≡ with_lf (event_words Version.Two p.0) ++ p.1.now)) }
{
    let Some((tx, rest)) = front_number(text) else {
        return None;
    };
    let Some((reply, rest)) = front_end(rest) else {
        return None;
    };
    Some(((Step::Commit(tx), reply), rest))
}

// A reply after a bar, and what stands after its line.
#[inline(always)]
fn front_end(text: &[u8]) -> Option<(Reply, &[u8])>
    ensures { IfSome result (λ p. IsReply Version.Two p.0
        × (text.now ≡ codes " | " ++ reply_words Version.Two p.0 ++ 10 ∷ p.1.now)) }
{
    let rest = after(b' ', after(b'|', after(b' ', text)?)?)?;
    let Some((reply, rest)) = front_reply(rest) else {
        return None;
    };
    let rest = after(b'\n', rest)?;
    Some((reply, rest))
}

// The reply that a text begins with, and what stands after it.
#[inline(always)]
fn front_reply(text: &[u8]) -> Option<(Reply, &[u8])>
    ensures { IfSome result (λ p. IsReply Version.Two p.0 × (text.now ≡ reply_words Version.Two p.0 ++ p.1.now)) }
{
    match text {
        [b'O', b'K', rest @ ..] => Some((Reply::Done, rest)),
        [b'V', b'A', b'L', b' ', rest @ ..] => {
            let Some((value, rest)) = front_value(rest) else {
                return None;
            };
            Some((Reply::Found(value), rest))
        }
        [b'N', b'O', b'N', b'E', rest @ ..] => Some((Reply::Absent, rest)),
        [b'B', b'E', b'G', b'U', b'N', b' ', rest @ ..] => {
            let Some((tx, rest)) = front_number(rest) else {
                return None;
            };
            Some((Reply::Begun(tx), rest))
        }
        [
            b'C',
            b'O',
            b'M',
            b'M',
            b'I',
            b'T',
            b'T',
            b'E',
            b'D',
            b' ',
            rest @ ..,
        ] => {
            let Some((commit, rest)) = front_number(rest) else {
                return None;
            };
            Some((Reply::Committed(commit), rest))
        }
        _ => None,
    }
}

// A number and a key, which a space parts.
#[inline(always)]
fn front_key(text: &[u8]) -> Option<(u64, Key, &[u8])>
    ensures number { IfSome result (λ p. IsNumber p.0) }
    ensures key { IfSome result (λ p. IsKey Version.Two p.1) }
    ensures text { IfSome result (λ p. text.now ≡ decimal p.0 ++ 32 ∷ key_word Version.Two p.1 ++ p.2.now) }
{
    let Some((tx, rest)) = front_number(text) else {
        return None;
    };
    let rest = after(b' ', rest)?;
    let Some((bytes, rest)) = front_bytes(rest) else {
        return None;
    };
    let key = Key::new(bytes.as_slice())?;
    Some((tx, key, rest))
}

// A number, a key and a value, which spaces part.
#[inline(always)]
fn front_record(text: &[u8]) -> Option<(u64, Key, Value, &[u8])>
    ensures number { IfSome result (λ p. IsNumber p.0) }
    ensures record { IfSome result (λ p. IsRecord Version.Two (p.1, p.2)) }
    ensures text { IfSome result (λ p.
        text.now ≡ decimal p.0 ++ 32 ∷ key_word Version.Two p.1 ++ 32 ∷ hex p.2 ++ p.3.now) }
{
    let Some((tx, key, rest)) = front_key(text) else {
        return None;
    };
    let rest = after(b' ', rest)?;
    let Some((value, rest)) = front_value(rest) else {
        return None;
    };
    Some((tx, key, value, rest))
}

#[inline(always)]
fn front_value(text: &[u8]) -> Option<(Value, &[u8])>
    ensures { IfSome result (λ p. IsValue p.0 × (text.now ≡ hex p.0 ++ p.1.now)) }
{
    let Some((bytes, rest)) = front_bytes(text) else {
        return None;
    };
    let value = Value::new(bytes.as_slice())?;
    Some((value, rest))
}

#[inline(always)]
fn front_number(text: &[u8]) -> Option<(u64, &[u8])>
    ensures { IfSome result (λ p. IsNumber p.0 × (text.now ≡ decimal p.0 ++ p.1.now)) }
{
    words_are_fields();
    let mut number = 0;
    let mut end = 0;
    'digits: while end < text.len() && end < SHORT && text[end].is_ascii_digit() {
        number = 10 * number + u64::from(text[end] - b'0');
        end += 1;
    }
    if end == 0 {
        return None;
    }
    if text[0] == b'0' && end > 1 {
        return None;
    }
    Some((number, &text[end..]))
}

// The bytes whose digits stand after the letter h, where they are at most 64.
#[inline(always)]
fn front_bytes(text: &[u8]) -> Option<(ArrayVec<u8, 64>, &[u8])>
    ensures bytes { IfSome result (λ p. IsByteList p.0.items) }
    ensures text { IfSome result (λ p. text.now ≡ hex p.0.items ++ p.1.now) }
{
    let mut rest = after(b'h', text)?;
    let mut bytes = ArrayVec::new();
    'sixteens: while let Some(found) = front_sixteen(rest) {
        let sixteen = found.0;
        let Ok(()) = bytes.try_extend_from_slice(&sixteen) else {
            return None;
        };
        rest = found.1;
    }
    'pairs: while let Some((byte, further)) = front_byte(rest) {
        let Ok(()) = bytes.try_push(byte) else {
            return None;
        };
        rest = further;
    }
    Some((bytes, rest))
}

// Sixteen bytes, where a text begins with their digits.
#[inline(always)]
fn front_sixteen(text: &[u8]) -> Option<([u8; 16], &[u8])>
    ensures bytes { IfSome result (λ p. IsByteList p.0) }
    ensures text { IfSome result (λ p. text.now ≡ hex_digits p.0 ++ p.1.now) }
    ensures shorter { IfSome result (λ p. length p.1.now < length text.now) }
{
    if text.len() < 32 || digit_of(text[0]).is_none() {
        return None;
    }
    let bytes = sixteen_bytes(&text[..32])?;
    Some((bytes, &text[32..]))
}

// A byte, where a text begins with its two digits.
#[inline(always)]
fn front_byte(text: &[u8]) -> Option<(u8, &[u8])>
    ensures bytes { IfSome result (λ p. IsByteList (p.0 ∷ [])) }
    ensures text { IfSome result (λ p. text.now ≡ hex_digits (p.0 ∷ []) ++ p.1.now) }
    ensures shorter { IfSome result (λ p. length p.1.now < length text.now) }
{
    let (high, more) = text.split_first()?;
    let (low, rest) = more.split_first()?;
    let byte = byte_of(*high, *low)?;
    Some((byte, rest))
}

// What stands after the byte, where a text begins with it.
#[inline(always)]
fn after(byte: u8, text: &[u8]) -> Option<&[u8]>
    ensures { IfSome result (λ rest. text.now ≡ byte ∷ rest.now) }
{
    match text.split_first() {
        Some((first, rest)) if *first == byte => Some(rest),
        _ => None,
    }
}
