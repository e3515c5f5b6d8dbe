//! Why the file of a trace can't be written.

use std::io;

/// Why the file of a trace can't be opened or written.
#[derive(Clone, Copy, Debug)]
pub enum TraceFileFault {
    /// The system refuses it, and says why.
    CannotWrite(io::Error),
    /// Memory was refused.
    NoMemory,
}
