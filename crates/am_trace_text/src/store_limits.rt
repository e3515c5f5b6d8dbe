//! The limits of a store.

ghost use Rattle.std.specs.Prelude.{◌≡◌};
ghost use Rattle.am_trace_text.specs.Headers.{limits_with, can_be_given};

use am_record::{LAST_RUN, MAX_KEY_LEN, MAX_LOCKS, MAX_OPS, MAX_VALUE_LEN};

/// The limits of a store, which are given where it is opened. A store that is given none has the profile's: 65,535
/// runs, keys of 32 bytes and values of 64, and 256 locks and 4,096 operations of a transaction.
#[derive(Clone, Copy, Debug, PartialEq, Eq)]
pub struct StoreLimits {
    /// The most runs that it makes.
    pub runs: u32,
    /// The most bytes of a key.
    pub key_bytes: u64,
    /// The most bytes of a value.
    pub value_bytes: u64,
    /// The most locks of a transaction.
    pub locks: u64,
    /// The most operations of a transaction.
    pub operations: u64,
}

impl StoreLimits {
    /// So many runs, and all else as the profile has it.
    pub fn with_runs(runs: u32) -> StoreLimits
        ensures { result ≡ limits_with runs }
    {
        StoreLimits {
            runs,
            key_bytes: MAX_KEY_LEN as u64,
            value_bytes: MAX_VALUE_LEN as u64,
            locks: MAX_LOCKS as u64,
            operations: MAX_OPS,
        }
    }

    /// Whether a store can be given them: any number of runs from 1 to [`LAST_RUN`], and so far of all else the
    /// profile's alone.
    pub fn can_be_given(&self) -> bool
        ensures { result ≡ can_be_given self.now }
    {
        1 <= self.runs
            && self.runs <= LAST_RUN
            && self.key_bytes == MAX_KEY_LEN as u64
            && self.value_bytes == MAX_VALUE_LEN as u64
            && self.locks == MAX_LOCKS as u64
            && self.operations == MAX_OPS
    }
}
