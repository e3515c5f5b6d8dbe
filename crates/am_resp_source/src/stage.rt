//! What comes next of a request.

/// What comes next of a request.
#[derive(Clone, Copy, Debug, PartialEq, Eq)]
pub enum Stage {
    /// How many words it has.
    Count,
    /// The length of a word.
    Length,
    /// So many bytes of a word, and the CR behind it.
    Inside(u64),
    /// The LF behind a word.
    AfterCr,
    /// Nothing: no request began so.
    Failed,
}
