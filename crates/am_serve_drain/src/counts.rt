//! What is told of a server while it runs.

ghost use Rattle.std.specs.Prelude.{Bool};

use am_index::Figures;
use am_serve_connections::SessionCounts;
use am_trace_writer::TraceCounts;

/// How a server does.
#[derive(Clone, Copy, PartialEq, Eq)]
pub struct ServerCounts {
    /// What its sessions are.
    pub sessions: SessionCounts,
    /// What the trace is made of.
    pub trace: TraceCounts,
    /// How large the index is.
    pub index: Figures,
    /// Whether some of the trace is lost.
    pub is_cut: bool,
}

/// Looks at how a server does, ten times a second and more, and once when all its sessions have ended.
pub trait Watcher {
    ghost use Rattle.am_serve_drain.specs.declared.counts.ServerCounts.{ServerCounts};

    // From the one state to the other it saw these counts, and whether they were the last.
    ghost saw: { Self → ServerCounts → Bool → Self → Type 0 };

    /// Looks at the counts. The last time all sessions have ended.
    fn look(&mut self, counts: &ServerCounts, is_last: bool)
        ensures { saw self.old counts.now is_last self.new };
}
