//! The limits of the store, each in one place. Definitions have them as numbers, so another limit in the code is
//! refused.

/// The most bytes that a key may have.
pub const MAX_KEY_LEN: usize = 32;

/// The most bytes that a value may have.
pub const MAX_VALUE_LEN: usize = 64;

/// The most bytes of a short key or value.
pub const SHORT_LEN: usize = 16;

/// The most transactions that are active at once.
pub const MAX_ACTIVE: usize = 64;

/// The most transactions that are ever begun.
pub const MAX_BEGUN: u64 = 1 << 63;

/// The most operations that are answered to one transaction.
pub const MAX_OPS: u64 = 4096;

/// The most locks that a transaction holds.
pub const MAX_LOCKS: usize = 256;

/// The most rows that a scan may ask for.
pub(crate) const MAX_ROWS: u64 = 1000;

/// The most runs that have entries at once, and the most that are ever made by a store that isn't told another number.
pub const MAX_RUNS: u32 = 65_535;

/// The greatest number that a run may have.
pub const LAST_RUN: u32 = 4_294_967_294;

/// The most records of a run that is cut from records in any order, and of those that wait for one load.
pub const MAX_RUN_RECORDS: usize = 65_536;

/// The most entries that a merge or a clean step may be asked to work off.
pub(crate) const MAX_LIMIT: u64 = 64;
