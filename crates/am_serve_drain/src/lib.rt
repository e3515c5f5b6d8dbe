//! The drain of a server: takes the latch's trace by pieces while sessions run, and has somebody look at the server.
//!
//! - [`Drain`]: takes what the latch hands out, passes it on to a [`am_trace_writer::PieceTaker`], and cuts sessions
//!   that are late.
//! - [`DrainSetup`]: who takes the trace and who looks at the server, and how long sessions may go on after a stop.
//! - [`Watcher`]: who looks at the server. It is told [`ServerCounts`], of which [`log_text`] makes a line.
#![tactic(auto)]

mod counts;
mod drain;
mod drain_setup;
mod log;

pub use counts::{ServerCounts, Watcher};
pub use drain::Drain;
pub use drain_setup::DrainSetup;
pub use log::log_text;
