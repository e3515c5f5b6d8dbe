//! Short texts, built in place.

ghost use Rattle.std.specs.Prelude.{◌≡◌, ◌+◌, ◌≤◌, ◌++◌, length, decimal};
ghost use Rattle.am_line_text.specs.Keys.{printed_key};

use am_record::Key;
use arrayvec::ArrayVec;
use itoa::Buffer;
use std::marker::Model;

/// The most bytes that a text may have.
const MAX_TEXT_LEN: usize = 128;

/// A text of at most 128 bytes.
#[derive(Drop)]
pub struct Text {
    bytes: ArrayVec<u8, MAX_TEXT_LEN>,
}

impl Model for Text {
    ghost use Rattle.std.specs.Prelude.{ℕ, List};

    ghost Value = { List ℕ };

    ghost view = { λ t. t.bytes.items };
}

impl Text {
    /// A text of these bytes.
    pub fn new(bytes: &[u8]) -> Self
        requires { length bytes.now ≤ 128 }
        ensures { result ≡ bytes.now }
    {
        let empty = Text {
            bytes: ArrayVec::new(),
        };
        empty.then(bytes)
    }

    /// The text with these bytes after it.
    pub fn then(mut self, bytes: &[u8]) -> Self
        requires { length self + length bytes.now ≤ 128 }
        ensures { result ≡ self ++ bytes.now }
    {
        let Ok(()) = self.bytes.try_extend_from_slice(bytes) else {
            unreachable!()
        };
        self
    }

    /// The text with a number after it.
    pub fn then_number(self, number: u64) -> Self
        requires { length self + 20 ≤ 128 }
        ensures text { result ≡ self ++ decimal number }
        ensures short { length result ≤ length self + 20 }
    {
        self.then(Buffer::new().format(number).as_bytes())
    }

    /// The text with a key after it.
    pub fn then_key(self, key: Key) -> Self
        requires { length self + 32 ≤ 128 }
        ensures text { result ≡ self ++ printed_key key }
        ensures short { length result ≤ length self + 32 }
    {
        self.then(key.bytes())
    }

    pub fn as_slice(&self) -> &[u8]
        ensures { result.now ≡ self.now }
    {
        self.bytes.as_slice()
    }
}
