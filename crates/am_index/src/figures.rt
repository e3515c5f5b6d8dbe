//! How large an index is.

/// How many entries an index has, and in how many runs.
#[derive(Clone, Copy, Debug, PartialEq, Eq)]
pub struct Figures {
    /// Entries in all.
    pub entries: u64,
    /// Those in the final partition.
    pub in_final: u64,
    /// Those in runs.
    pub in_runs: u64,
    /// Runs that have entries.
    pub runs: u64,
    /// Ghosts, in all partitions.
    pub ghosts: u64,
}
