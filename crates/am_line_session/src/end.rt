//! How a session ended.

/// How a session ended. A transaction that was active is aborted at each of these.
#[derive(Clone, Copy, Debug, PartialEq, Eq)]
pub enum End {
    /// QUIT was answered. What came after it was not.
    Quit,
    /// END of the session's own number was answered. What came after it was not.
    EndedItself,
    /// Another session ended it. What came and wasn't answered by then was not taken.
    EndedByAnother,
    /// The source has no further bytes, and each line was answered.
    EndOfInput,
    /// The source failed. Each line that it had ended was answered.
    ReadFailed,
    /// The sink failed. The last step stands.
    WriteFailed,
    /// There was no memory for the buffers. Nothing was read.
    NoMemory,
}
