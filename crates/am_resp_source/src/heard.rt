//! What is heard of a request.

ghost use Rattle.std.specs.Prelude.{◌≡◌, [], ◌∷◌, ◌++◌, OnOk};

use std::alloc::{AllocError, Global};
use std::marker::Model;

/// Bytes of a word.
#[derive(Drop)]
pub struct OwnBytes {
    bytes: Vec<u8>,
}

impl Model for OwnBytes {
    ghost use Rattle.std.specs.Prelude.{ℕ, List};

    ghost Value = { List ℕ };

    ghost view = { λ b. b.bytes.items };
}

impl OwnBytes {
    /// No byte.
    pub(crate) fn new(alloc: Global) -> Self
        ensures { result ≡ [] }
    {
        OwnBytes {
            bytes: Vec::new(alloc),
        }
    }

    /// Adds bytes at the end.
    pub(crate) fn add(&mut self, bytes: &[u8]) -> Result<(), AllocError>
        ensures { OnOk result (self.new ≡ self.old ++ bytes.now) }
    {
        self.bytes.extend_from_slice(bytes)
    }

    pub fn as_slice(&self) -> &[u8]
        ensures { result.now ≡ self.now }
    {
        self.bytes.as_slice()
    }
}

/// A word of a request, as it is kept.
#[derive(Drop)]
pub enum HeardWord {
    Kept(OwnBytes),
    /// It had more bytes than are kept of one, so many.
    Long(u64),
}

/// Words in their order.
#[derive(Drop)]
pub struct HeardWords {
    items: Vec<HeardWord>,
}

impl Model for HeardWords {
    ghost use Rattle.std.specs.Prelude.{List};
    ghost use Rattle.am_resp_source.specs.declared.heard.HeardWord.{HeardWord};

    ghost Value = { List HeardWord };

    ghost view = { λ w. w.items.items };
}

impl HeardWords {
    /// No word.
    pub(crate) fn new(alloc: Global) -> Self
        ensures { result ≡ [] }
    {
        HeardWords {
            items: Vec::new(alloc),
        }
    }

    /// Adds a word at the end.
    pub(crate) fn push(&mut self, word: HeardWord) -> Result<(), AllocError>
        ensures { OnOk result (self.new ≡ self.old ++ word ∷ []) }
    {
        self.items.push(word)?;
        Ok(())
    }

    pub fn as_slice(&self) -> &[HeardWord]
        ensures { result.now ≡ self.now }
    {
        self.items.as_slice()
    }
}

/// What came of reading a piece.
#[derive(Drop)]
pub enum Heard {
    /// A whole request.
    Request(HeardWords),
    /// A whole request, for whose words memory was refused.
    NoMemory,
    /// The piece is used up, and the request isn't whole.
    Partial,
    /// No request begins so.
    Bad,
}
