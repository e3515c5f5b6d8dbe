//! What a line asks for.

use am_record::{Op, Range, Records};

/// The sessions that a WHO is about.
#[derive(Clone, Copy, PartialEq, Eq)]
pub enum WhichSessions {
    /// Those that have a transaction active.
    Active,
    /// All that are served.
    All,
}

/// What a line asks of its session.
#[derive(PartialEq, Eq, Drop)]
pub enum Request {
    Begin,
    /// An operation of the active transaction.
    Do(Op),
    /// Records that wait in the session for its next load.
    Stage(Records),
    Commit,
    Abort,
    /// Merge, at most so many entries.
    Merge(u64),
    /// Clean the range, at most so many ghosts.
    Clean(Range, u64),
    /// The number of the session, and the commits that it sees.
    Seen,
    /// Everybody else waits who has nothing begun, for at most so many milliseconds.
    Hold(u64),
    /// Which sessions there are, of these.
    Who(WhichSessions),
    /// The session of this number ends.
    End(u64),
    /// The session ends.
    Quit,
}
