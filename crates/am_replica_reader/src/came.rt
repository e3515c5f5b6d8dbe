//! What a change came to.

/// What a change came to, for a reader.
#[derive(Clone, Copy, Debug, PartialEq, Eq)]
pub enum Came {
    /// It ends no entry that counts.
    Nothing,
    /// It ends an entry that counts, whose text stands in the reader.
    Whole,
    /// It ends an entry that counts, and not all pieces before its head came, each in its turn: the reader may have
    /// begun behind them.
    PartsMissing,
}
