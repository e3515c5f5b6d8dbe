//! Entries of the index.

ghost use Rattle.std.specs.Prelude.{◌≡◌};

use crate::key::Key;
use crate::value::Value;
use std::cmp::Ordering;

/// A record as it stands in the index. Entries are ordered by partition, then by key.
#[derive(Clone, Copy, Debug, PartialEq, Eq)]
pub struct Entry {
    /// The partition: 0 is the final one, runs are numbered from 1.
    pub part: u32,
    pub key: Key,
    pub value: Value,
    /// Marked as deleted. A ghost keeps its value.
    pub is_ghost: bool,
}

impl Entry {
    ghost use Rattle.am_record.specs.EntryOrder.{place_cmp, place_of};

    /// Where the entry stands against the place of a partition and a key.
    #[tactic(auto, unfolding(crate::specs::EntryOrder::place_cmp))]
    pub fn cmp_place(&self, part: u32, key: Key) -> Ordering
        ensures { result ≡ place_cmp (place_of self.now) (part, key) }
    {
        self.part.cmp(&part).then(self.key.cmp(&key))
    }
}
