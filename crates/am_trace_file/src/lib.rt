//! The file of a server's trace, and the way of the text into it.
//!
//! - [`TraceFile`]: the file by its name. One that is written whole stands beside it until the end.
//! - [`GrowingFile`]: what is written into, by whole pieces.
//! - [`Outbox`]: the pieces that wait for the thread that writes them, and [`Sending`], a sink that puts them there.
//! - [`TraceFileFault`]: why a file can't be opened or written.
#![tactic(auto)]

mod fault;
mod growing_file;
mod outbox;
mod trace_file;

pub use fault::TraceFileFault;
pub use growing_file::GrowingFile;
pub use outbox::{Outbox, Sending};
pub use trace_file::TraceFile;
