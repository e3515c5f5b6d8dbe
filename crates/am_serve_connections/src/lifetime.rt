//! How long a server serves.

ghost use Rattle.std.specs.Prelude.{◌≡◌};
ghost use Rattle.am_serve_connections.specs.Lifetimes.{most_sessions, most_turns, stays, upkeep_of};

use crate::turns::Upkeep;

/// Whether a server serves so many connections and ends, or stays until it is stopped.
#[derive(Clone, Copy, PartialEq, Eq)]
pub enum Lifetime {
    /// Each seat serves one connection at most. After one that can't be accepted no further one is taken.
    Bounded,
    /// Each seat serves one connection after another. Where one can't be accepted the next one is waited for.
    Staying,
}

impl Lifetime {
    /// How many connections a seat serves at most.
    pub fn sessions_each(self) -> u64
        ensures { result ≡ most_sessions self }
    {
        match self {
            Lifetime::Bounded => 1,
            Lifetime::Staying => u64::MAX,
        }
    }

    /// How many turns a worker has at most.
    pub fn turns(self) -> u64
        ensures { result ≡ most_turns self }
    {
        match self {
            Lifetime::Bounded => 1_000_000,
            Lifetime::Staying => u64::MAX,
        }
    }

    /// What a worker does in its turns, where it leaves so many runs that nobody asks for, or all at 0.
    pub fn upkeep(self, runs: u64) -> Upkeep
        ensures { result ≡ upkeep_of self runs }
    {
        match self {
            Lifetime::Bounded => Upkeep::MergeOnly,
            Lifetime::Staying => Upkeep::MergeAndClean(runs),
        }
    }

    /// Whether it stays.
    pub fn stays(self) -> bool
        ensures { result ≡ stays self }
    {
        matches!(self, Lifetime::Staying)
    }
}
