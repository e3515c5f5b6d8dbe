//! What a server leaves.

/// The trace of a server, by who took it, and what was counted of it.
#[derive(Drop)]
pub struct ServerTrace<T: Drop> {
    /// How many events it has: the steps of all sessions and workers.
    pub events: u64,
    /// How many transactions committed.
    pub commits: u64,
    /// Whether each connection could be accepted.
    pub accepted_all: bool,
    /// Who took the trace.
    pub pieces: T,
}
