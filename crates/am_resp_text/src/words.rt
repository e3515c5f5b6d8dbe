//! The words of a request.

ghost use Rattle.std.specs.Prelude.{◌≡◌, [], ◌∷◌, ◌++◌, OnOk};

use crate::bytes::Bytes;
use std::alloc::{AllocError, Global};
use std::marker::Model;

/// Words in their order.
#[derive(Drop)]
pub struct Words<'a> {
    items: Vec<Bytes<'a>>,
}

impl<'a> Model for Words<'a> {
    ghost use Rattle.std.specs.Prelude.{ℕ, List};

    ghost Value = { List (List ℕ) };

    ghost view = { λ w. w.items.items };
}

impl<'a> Words<'a> {
    /// No word.
    pub(crate) fn new(alloc: Global) -> Self
        ensures { result ≡ [] }
    {
        Words {
            items: Vec::new(alloc),
        }
    }

    /// Adds a word at the end.
    pub(crate) fn push(&mut self, word: &'a [u8]) -> Result<(), AllocError>
        ensures { OnOk result (self.new ≡ self.old ++ word.now ∷ []) }
    {
        self.items.push(Bytes::new(word))?;
        Ok(())
    }

    pub fn as_slice(&self) -> &[Bytes<'a>]
        ensures { result.now ≡ self.now }
    {
        self.items.as_slice()
    }
}
