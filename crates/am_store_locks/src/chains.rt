//! The locks of an owner, chained by their keys.

ghost use Rattle.std.specs.Prelude.{◌≡◌, ◌≤◌, ◌<◌, ◌&&◌, ℕ, List, ◌∷◌, ◌++◌, [], length, slice_index_or, IsOk, OnOk};
ghost use Rattle.std.specs.List.{count_by};
ghost use Rattle.am_record.specs.Interval.{within};
ghost use Rattle.am_record.specs.Locks.{is_exclusive};
ghost use Rattle.am_record.specs.declared.lock.Lock.{Lock};
ghost use Rattle.am_store_locks.specs.KeyCounts.{bucket_of, key_bucket};
ghost use Rattle.am_store_locks.specs.Chains.{AreChainsOf, EndsAt, is_chained, IsCountAt};
ghost use Rattle.smallvec.specs.SmallVec.{HasRoomFor};

use crate::count::Count;
use crate::key_counts::bucket_of;
use am_record::{Key, Lock, MAX_LOCKS};
use smallvec::SmallVec;
use std::alloc::{AllocError, Global};

/// So many locks of a transaction take no memory.
pub(crate) const INLINE_LOCKS: usize = 8;

/// So many buckets that stand side by side have one chain. The locks of more keys have one after all others.
const CHAIN_BUCKETS: usize = 256;

const WIDE_CHAIN: usize = 128;

/// From each lock to the one before it in its chain. A lock that has a key is in the chain of the key's bucket, or in
/// that of the locks of more keys.
#[derive(Drop)]
pub(crate) struct Chains {
    // How many locks there are up to the last one of each chain, 0 where it has none.
    ends: [u16; 129],
    // The same of each lock's chain before the lock came.
    before: SmallVec<u16, INLINE_LOCKS>,
}

impl Chains {
    /// The chains of no locks.
    pub(crate) fn new(alloc: Global) -> Chains
        ensures chains { AreChainsOf [] result.ends result.before.items }
        ensures inline { result.before.capacity ≡ 8 }
    {
        Chains {
            ends: [0; 129],
            before: SmallVec::new(alloc),
        }
    }

    /// Makes room for one lock more.
    pub(crate) fn reserve_one(&mut self) -> Result<(), AllocError>
        ensures ends { self.new.ends ≡ self.old.ends }
        ensures before { self.new.before.items ≡ self.old.before.items }
        ensures room { OnOk result (HasRoomFor self.new.before 1) }
        ensures capacity { self.old.before.capacity ≤ self.new.before.capacity }
        ensures has_room { HasRoomFor self.old.before 1 → IsOk result }
    {
        self.before.reserve(1)
    }

    /// Adds a lock of this bucket, after all others.
    pub(crate) fn add(&mut self, bucket: usize)
        requires bucket { bucket ≤ 32768 }
        requires room { HasRoomFor self.old.before 1 }
        requires few { length self.old.before.items < 256 }
        ensures chains { (locks : List Lock) (lock : Lock) → bucket ≡ bucket_of lock
            → AreChainsOf locks self.old.ends self.old.before.items
            → AreChainsOf (locks ++ lock ∷ []) self.new.ends self.new.before.items }
        ensures capacity { self.new.before.capacity ≡ self.old.before.capacity }
    {
        let chain = bucket / CHAIN_BUCKETS;
        let end = self.before.len() as u16 + 1;
        self.before.push_reserved(self.ends[chain]);
        self.ends[chain] = end;
    }

    /// Keeps the chains of the first locks, which these are.
    pub(crate) fn cut(&mut self, locks: &[Lock])
        requires few { length locks.now ≤ 256 }
        requires chains { (more : List Lock) × AreChainsOf (locks.now ++ more) self.old.ends self.old.before.items }
        ensures chains { AreChainsOf locks.now self.new.ends self.new.before.items }
        ensures capacity { self.new.before.capacity ≡ self.old.before.capacity }
    {
        self.before.truncate(locks.len());
        self.ends = ends_of(locks);
    }

    /// How many of the locks have the key of this bucket.
    pub(crate) fn count_at(&self, locks: &[Lock], key: Key, bucket: usize) -> Count
        requires few { length locks.now ≤ 256 }
        requires bucket { bucket ≡ key_bucket key }
        requires chains { AreChainsOf locks.now self.now.ends self.now.before.items }
        ensures { IsCountAt locks.now key result }
    {
        let narrow = self.count_in(bucket / CHAIN_BUCKETS, locks, key);
        let wide = self.count_in(WIDE_CHAIN, locks, key);
        Count {
            all: narrow.all + wide.all,
            exclusive: narrow.exclusive + wide.exclusive,
        }
    }

    // How many locks of one chain have the key.
    fn count_in(&self, chain: usize, locks: &[Lock], key: Key) -> Count
        requires few { length locks.now ≤ 256 }
        requires chain { chain < 129 }
        requires chains { AreChainsOf locks.now self.now.ends self.now.before.items }
        ensures all { result.all ≡ count_by (is_chained chain (λ l. within l.range key)) locks.now }
        ensures exclusive { result.exclusive ≡
            count_by (is_chained chain (λ l. is_exclusive l.mode && within l.range key)) locks.now }
    {
        let mut count = Count {
            all: 0,
            exclusive: 0,
        };
        let mut upto = self.ends[chain] as usize;
        'walk: while upto > 0 {
            count.add_at(&locks[upto - 1], key);
            upto = self.before[upto - 1] as usize;
        }
        count
    }
}

// How many of the locks there are up to the last one of each chain.
fn ends_of(locks: &[Lock]) -> [u16; 129]
    requires { length locks.now ≤ 256 }
    ensures { (chain d : ℕ) → chain < 129 → EndsAt chain locks.now (length locks.now) (slice_index_or result chain d) }
{
    let mut ends = [0; 129];
    for at in 0..locks.len() {
        ends[bucket_of(&locks[at]) / CHAIN_BUCKETS] = at as u16 + 1;
    }
    ends
}
