//! What is found wrong of a trace.

/// What is wrong of a line.
#[derive(Clone, Copy, Debug, PartialEq, Eq)]
pub enum FaultKind {
    /// The reply isn't one that the step can have there.
    Form,
    /// Busy is answered where it isn't due, or isn't answered where it is, or names the wrong holder.
    Busy,
    /// The operation's transaction committed, and alone it would have got another answer.
    Answer,
}

/// Why a trace isn't found legal.
#[derive(Clone, Copy, Debug, PartialEq, Eq)]
pub enum Fault {
    /// The line, counted from 1 with the header as the first, has the first fault, which is of this kind.
    Wrong(u64, FaultKind),
    /// Memory was refused, which says nothing of the trace.
    NoMemory,
}
