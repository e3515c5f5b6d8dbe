//! Fields of a line, built in place.

ghost use Rattle.std.specs.Prelude.{◌≡◌, ◌+◌, ◌*◌, ◌≤◌, ◌<◌, ◌++◌, length, decimal};
ghost use Rattle.am_trace_text.specs.Words.{hex_digit, hex, key_word, record_word};
ghost use Rattle.am_trace_text.specs.Bounds.{IsByteList, IsNumber, IsKey, IsValue, IsRecord};

use am_record::{Key, Value};
use am_trace_text::Version;
use arrayvec::ArrayVec;
use itoa::Buffer;
use std::marker::Model;

/// A record has the longest field: two digits for each byte of its key and its value, two letters and a =.
const ROOM: usize = 195;

/// One field.
#[derive(Drop)]
pub(crate) struct Field {
    bytes: ArrayVec<u8, ROOM>,
}

impl Model for Field {
    ghost use Rattle.std.specs.Prelude.{ℕ, List};

    ghost Value = { List ℕ };

    ghost view = { λ f. f.bytes.items };
}

impl Field {
    /// A field of these bytes.
    pub(crate) fn new(bytes: &[u8]) -> Field
        requires { length bytes.now ≤ 195 }
        ensures { result ≡ bytes.now }
    {
        let empty = Field {
            bytes: ArrayVec::new(),
        };
        empty.then(bytes)
    }

    /// A number.
    pub(crate) fn number(number: u64) -> Field
        ensures text { result ≡ decimal number }
        ensures number { IsNumber number }
    {
        Field::new(Buffer::new().format(number).as_bytes())
    }

    /// A key.
    pub(crate) fn key(key: Key) -> Field
        ensures text { result ≡ key_word Version.Three key }
        ensures key { IsKey Version.Three key }
    {
        Field::new(b"").then_hex(key.bytes())
    }

    /// A value.
    pub(crate) fn value(value: Value) -> Field
        ensures text { result ≡ hex value }
        ensures value { IsValue value }
    {
        Field::new(b"").then_hex(value.bytes())
    }

    /// A record.
    pub(crate) fn record(pair: &(Key, Value)) -> Field
        ensures text { result ≡ record_word Version.Three pair.now }
        ensures pair { IsRecord Version.Three pair.now }
    {
        Field::new(b"")
            .then_hex(pair.0.bytes())
            .then(b"=")
            .then_hex(pair.1.bytes())
    }

    pub(crate) fn as_slice(&self) -> &[u8]
        ensures { result.now ≡ self.now }
    {
        self.bytes.as_slice()
    }

    // The field with these bytes after it.
    fn then(mut self, bytes: &[u8]) -> Field
        requires { length self + length bytes.now ≤ 195 }
        ensures { result ≡ self ++ bytes.now }
    {
        let Ok(()) = self.bytes.try_extend_from_slice(bytes) else {
            unreachable!()
        };
        self
    }

    // The field with the text of these bytes after it.
    fn then_hex(self, bytes: &[u8]) -> Field
        requires { length self + (2 * length bytes.now + 1) ≤ 195 }
        ensures text { result ≡ self ++ hex bytes.now }
        ensures len { length result ≡ length self + (2 * length bytes.now + 1) }
        ensures are_bytes { IsByteList bytes.now }
    {
        let mut field = self.then(b"h");
        for byte in bytes {
            field = field.then(&[digit(byte / 16), digit(byte % 16)]);
        }
        field
    }
}

// A digit of base 16.
fn digit(value: u8) -> u8
    requires { value < 16 }
    ensures { result ≡ hex_digit value }
{
    if value < 10 {
        b'0' + value
    } else {
        b'a' - 10 + value
    }
}
