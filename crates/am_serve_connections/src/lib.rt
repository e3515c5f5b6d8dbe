//! Where connections come to a server, and what its threads share beside the store.
//!
//! - [`listen_at_port`], [`listen_at_socket`]: a port of this machine, a socket of its file system ([`Endpoint`]).
//! - [`SharedState`]: acceptors at which threads wait for connections, those that are open ([`Connections`]), what
//!   is counted, and workers' turns.
//! - [`Turnstile`]: where sessions wait that have nothing begun: while one of them holds, and where 64 have begun.
//! - [`Client`]: the connection of a session's client, what waits to be sent there, and how long one waits for it.
//! - [`ClientBytes`], [`AnswerWriter`]: what comes from a client, and what goes there.
//! - [`OwnLines`]: a connection whose bytes are passed on as far as they are lines of the protocol.
//! - [`Pacer`], [`Upkeep`]: when a worker may take its next turn, and what it does then; [`Outlook`]: what it sees of
//!   what is left to do; [`MergePacer`] gives turns for answers, and where none are asked for.
//! - [`CountingSink`]: a sink of a session, whose answers let workers have turns.
#![tactic(auto)]

mod acceptor;
mod answer_writer;
mod client;
mod client_bytes;
mod connections;
mod counting_sink;
mod endpoint;
mod http;
mod laws;
mod lifetime;
mod line;
mod own_lines;
mod pacer;
mod rounds;
mod session_counters;
mod shared_state;
mod tickets;
mod turns;
mod turnstile;
mod unended_line;
mod unsent;
mod waiting;

pub use answer_writer::AnswerWriter;
pub use client::Client;
pub use client_bytes::ClientBytes;
pub use connections::{Connections, ServedSession};
pub use counting_sink::CountingSink;
pub use endpoint::{Endpoint, listen_at_port, listen_at_socket};
pub use laws::{oldest_connections_go_first, oldest_sessions_go_on_first, requests_are_seen};
pub use lifetime::Lifetime;
pub use line::Standing;
pub use own_lines::OwnLines;
pub use pacer::MergePacer;
pub use session_counters::SessionCounts;
pub use shared_state::{Endpoints, Limits, SharedState};
pub use turns::{Outlook, Pacer, Upkeep};
pub use turnstile::{HoldReply, Turnstile};
pub use waiting::turn_away;
