//! What the drain of a server is given.

use crate::counts::Watcher;
use am_trace_writer::PieceTaker;
use std::time::Duration;

/// Who takes the trace of a server, who looks at the server, and how long sessions may go on after a stop.
#[derive(Drop)]
pub struct DrainSetup<T: PieceTaker + Drop, V: Watcher + Drop> {
    pub pieces: T,
    pub watcher: V,
    pub grace: Option<Duration>,
}
