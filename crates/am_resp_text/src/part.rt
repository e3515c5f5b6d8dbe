//! What answers are made of.

use crate::bytes::Bytes;

/// A part of an answer. An answer is one part, or an array's and behind it as many answers as it says.
#[derive(Drop)]
pub enum Part<'a> {
    /// A short text, with neither CR nor LF.
    Simple(Bytes<'a>),
    /// The text of an error, with neither CR nor LF.
    Error(Bytes<'a>),
    Integer(i64),
    /// Any bytes.
    Bulk(Bytes<'a>),
    Nil,
    /// An array of so many answers, which follow.
    Array(u64),
    NilArray,
}
