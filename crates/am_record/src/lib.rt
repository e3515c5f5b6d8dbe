//! What the store speaks of: keys, values, ranges, entries, steps and replies.
#![tactic(auto)]

mod entry;
mod hash_key;
mod key;
mod laws;
mod limits;
mod lock;
mod memory;
mod range;
mod records;
mod step;
mod value;

pub use entry::Entry;
pub use hash_key::HashKey;
pub use key::{Key, ShortKey};
pub use laws::{
    fronts_follow_keys, keys_are_ordered, ranges_are_sets_of_keys, shared_is_compatible_with_shared,
};
pub use limits::{
    LAST_RUN, MAX_ACTIVE, MAX_BEGUN, MAX_KEY_LEN, MAX_LOCKS, MAX_OPS, MAX_RUN_RECORDS, MAX_RUNS,
    MAX_VALUE_LEN, SHORT_LEN,
};
pub use lock::{Lock, Mode};
pub use memory::NoMemory;
pub use range::Range;
pub use records::{Records, is_rising};
pub use step::{Op, Refusal, Reply, Step, is_limit};
pub use value::{ShortValue, Value};
