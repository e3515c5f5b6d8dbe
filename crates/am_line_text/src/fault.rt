//! What may be wrong with a line.

use thiserror::Error;

/// Why a line asks for nothing. Where several are due, the first of them here is told.
#[derive(Clone, Copy, Debug, PartialEq, Eq, Error)]
pub enum LineFault {
    /// The line has none of the forms, whatever the size of its numbers, keys and values.
    #[error("not a line of a session")]
    Syntax,
    /// The form is right, and a number has more than 64 bits, a key more than 32 bytes or a value more than 64, or the
    /// ends of a range don't stand in order.
    #[error("a number, a key, a value or a range is out of bounds")]
    Range,
    /// Memory was refused for the records of the line.
    #[error("no memory")]
    NoMemory,
}
