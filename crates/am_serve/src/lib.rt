//! The server: connections at a port or a socket of the file system, each a session on a thread and a seat of its own,
//! and workers that merge beside them.
//!
//! - [`bind`], [`bind_socket`], [`Listener::serve`]: serves so many sessions, or stays until it is stopped
//!   ([`am_serve_connections::Lifetime`]), while a [`am_trace_writer::PieceTaker`] takes the trace of all their steps;
//!   answers a [`ServerTrace`].
//! - [`header_of`]: the first line of that trace, which says how many runs the store makes at most.
//! - [`serve_session`]: one session at its [`am_serve_seat::SessionSeat`], over any source and sink.
#![tactic(auto)]

mod header;
mod listener;
mod server;
mod server_trace;
mod sessions;
mod turns;

pub use header::header_of;
pub use listener::{BindFault, Listener, bind, bind_socket};
pub use server_trace::ServerTrace;
pub use sessions::serve_session;
