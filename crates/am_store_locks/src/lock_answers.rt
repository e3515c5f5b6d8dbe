//! Answers to asking for a lock.

/// What comes of asking for a lock. Only `Granted` changes the table.
#[derive(Clone, Copy, Debug, PartialEq, Eq)]
pub enum Asked {
    /// The transaction holds the lock, or one that covers it.
    Granted,
    /// The lock conflicts with one of another transaction: the least number of those that hold such a lock.
    Busy(u64),
    /// The transaction holds as many locks as it may.
    TooManyLocks,
    /// Memory was refused.
    NoMemory,
}
