//! Why a call has no answer.

/// Why a call has no answer.
#[derive(Clone, Copy, Debug, PartialEq, Eq)]
pub enum Fault {
    /// The replica ended: memory was refused to this call, or to one before it.
    Ended,
    /// The text is no entry, or one of its lines is none of a block's. Nothing was done.
    NoEntry,
    /// The line is none that the call is for. Nothing was done.
    OtherLine,
    /// Records of the transaction wait for a load or a put. It is gone, and nothing else was done.
    Staged,
}
