//! One line of limited length.

ghost use Rattle.std.specs.Prelude.{◌≡◌, ℕ, ◌+◌, ◌-◌, ◌<◌, ◌≤◌, ◌↔◌, List, [], ◌∷◌, ◌++◌, length, take, IfOk, IsTrue};
ghost use Rattle.std.specs.Prelude.{vec_len};
ghost use Rattle.am_line_source.specs.Lines.{without_cr, line_of};
ghost use Rattle.am_line_source.specs.LineAnswers.{line_by};

use std::alloc::{AllocError, Global};
use std::marker::Model;

/// The most bytes that a line may have before its LF, a CR at its end counted.
pub const MAX_LINE_LEN: usize = 4096;

/// The bytes of a line that are kept: one more than it may have, to know that it has too many.
const KEPT_LEN: usize = MAX_LINE_LEN + 1;

/// The bytes of a line, as far as it was read. Of a line that is too long the first 4,097 are kept.
#[derive(Drop)]
pub struct LineBuffer {
    room: Vec<u8>,
    len: usize,
}

impl Model for LineBuffer {
    ghost use Rattle.std.specs.Prelude.{◌≡◌, ◌≤◌, ℕ, List, take, vec_len};

    ghost Value = { List ℕ };

    ghost view = { λ b. take b.len b.room.items };

    ghost invariant = { λ b. (vec_len b.room ≡ 4097) × (b.len ≤ 4097) };
}

// Writes bytes into the room from a place on.
fn write_at(room: &mut [u8], at: usize, bytes: &[u8])
    requires { at + length bytes.now ≤ length room.old }
    ensures len { length room.new ≡ length room.old }
    ensures front { take (at + length bytes.now) room.new ≡ take at room.old ++ bytes.now }
{
    room[at..at + bytes.len()].copy_from_slice(bytes);
}

impl LineBuffer {
    /// A buffer with no byte in it. It gets all the memory that it will ever use.
    ///
    /// # Errors
    /// Memory was refused.
    pub fn new(alloc: Global) -> Result<Self, AllocError>
        ensures { IfOk result (λ b. b ≡ []) }
    {
        Ok(LineBuffer {
            room: vec![in alloc; 0; KEPT_LEN]?,
            len: 0,
        })
    }

    /// The bytes.
    pub fn as_slice(&self) -> &[u8]
        ensures { result.now ≡ self.now }
    {
        &self.room[..self.len]
    }

    pub(crate) fn len(&self) -> usize
        ensures len { result ≡ length self.now }
        ensures most { result ≤ 4097 }
    {
        self.len
    }

    pub(crate) fn is_empty(&self) -> bool
        ensures { IsTrue result ↔ (self.now ≡ []) }
    {
        self.len() == 0
    }

    /// No byte is in it.
    pub fn clear(&mut self)
        ensures { self.new ≡ [] }
    {
        self.len = 0;
    }

    /// Takes these bytes in place of its own.
    pub(crate) fn set(&mut self, bytes: &[u8])
        requires { length bytes.now ≤ 4097 }
        ensures { self.new ≡ bytes.now }
    {
        write_at(self.room.as_mut_slice(), 0, bytes);
        self.len = bytes.len();
    }

    fn push(&mut self, bytes: &[u8])
        requires { length self.old + length bytes.now ≤ 4097 }
        ensures { self.new ≡ self.old ++ bytes.now }
    {
        write_at(self.room.as_mut_slice(), self.len, bytes);
        self.len += bytes.len();
    }

    /// Adds bytes at the end, as far as there is room for them.
    pub(crate) fn add(&mut self, bytes: &[u8])
        ensures { self.new ≡ take 4097 (self.old ++ bytes.now) }
    {
        let count = bytes.len().min(KEPT_LEN - self.len());
        self.push(&bytes[..count]);
    }

    /// Drops one CR at the end.
    fn drop_cr(&mut self)
        ensures { self.new ≡ without_cr self.old }
    {
        if self.len == 0 {
            return;
        }
        if self.room[self.len - 1] == b'\r' {
            self.len -= 1;
        }
    }

    /// Judges a line by its bytes before the end, and drops one CR of a text.
    pub(crate) fn finish(&mut self) -> LineKind
        ensures { line_by result self.new ≡ line_of self.old }
    {
        if self.len() > MAX_LINE_LEN {
            return LineKind::Long;
        }
        self.drop_cr();
        LineKind::Text
    }
}

/// What a line is.
#[derive(Clone, Copy, PartialEq, Eq)]
pub enum LineKind {
    /// Its bytes stand in the buffer, without one CR at the end.
    Text,
    /// It has more than 4,096 bytes.
    Long,
}

/// A line that was read.
#[derive(Clone, Copy, PartialEq, Eq)]
pub struct FoundLine {
    pub kind: LineKind,
    /// Whether an LF ended it. If not, the end of the input did: it was the last line, and one must not read again.
    pub is_ended: bool,
}

/// What came of waiting for a line.
#[derive(Clone, Copy, PartialEq, Eq)]
pub enum Coming {
    /// A line, whose bytes stand in the buffer.
    Line(FoundLine),
    /// The end: there is no further line.
    End,
    /// Nothing for too long. What came of a line so far stands in the buffer.
    Late,
}
