//! How many locks there are at a key, over the locks of all owners.

ghost use Rattle.std.specs.Prelude.{◌≡◌, ◌<◌, ◌≤◌, List, [], ◌∷◌, ◌++◌, length, IfOk};
ghost use Rattle.std.specs.List.{count_by};
ghost use Rattle.am_record.specs.declared.lock.Lock.{Lock};
ghost use Rattle.am_store_locks.specs.KeyCounts.{key_bucket, bucket_of, AreCountsOf, may_clash};

use crate::count::Count;
use am_record::{Key, Lock, Mode, NoMemory};
use std::alloc::Global;

/// Locks that have one key alone are counted by the number of that key, in so many buckets.
const BUCKETS: usize = 32768;

/// All other locks are counted in one bucket after these.
pub(crate) const WIDE: usize = BUCKETS;

/// How many locks of any owner may have a key, as far as two looks tell. Most asked locks meet none, and then no owner
/// is looked at.
#[derive(Drop)]
pub(crate) struct KeyCounts {
    buckets: Vec<Count>,
}

impl KeyCounts {
    /// The counts of no locks.
    pub(crate) fn new(alloc: Global) -> Result<KeyCounts, NoMemory>
        ensures { IfOk result (λ counts. AreCountsOf [] counts.buckets.items) }
    {
        let none = Count {
            all: 0,
            exclusive: 0,
        };
        Ok(KeyCounts {
            buckets: vec![in alloc; none; BUCKETS + 1]?,
        })
    }

    /// How many locks may have a key of the bucket and don't go with the mode.
    pub(crate) fn near(&self, bucket: usize, mode: Mode) -> usize
        requires long { length self.now.buckets.items ≡ 32769 }
        requires one_key { bucket < 32768 }
        ensures { (locks : List Lock) → AreCountsOf locks self.now.buckets.items
            → result ≡ count_by (may_clash mode bucket) locks }
    {
        self.buckets[bucket].clashing(mode) + self.buckets[WIDE].clashing(mode)
    }

    /// Counts one lock more.
    pub(crate) fn add(&mut self, lock: &Lock, bucket: usize)
        requires bucket { bucket ≡ bucket_of lock.now }
        requires few { (locks : List Lock) × AreCountsOf locks self.old.buckets.items × (length locks < 65535) }
        ensures { (locks : List Lock) → AreCountsOf locks self.old.buckets.items
            → AreCountsOf (lock.now ∷ locks) self.new.buckets.items }
    {
        self.buckets[bucket].add(lock.mode);
    }

    /// Counts these locks no more.
    pub(crate) fn remove(&mut self, locks: &[Lock])
        requires { (left : List Lock) × AreCountsOf (locks.now ++ left) self.old.buckets.items }
        ensures { (left : List Lock) → AreCountsOf (locks.now ++ left) self.old.buckets.items
            → AreCountsOf left self.new.buckets.items }
    {
        for lock in locks {
            self.remove_one(lock);
        }
    }

    fn remove_one(&mut self, lock: &Lock)
        requires { (left : List Lock) × AreCountsOf (lock.now ∷ left) self.old.buckets.items }
        ensures { (left : List Lock) → AreCountsOf (lock.now ∷ left) self.old.buckets.items
            → AreCountsOf left self.new.buckets.items }
    {
        self.buckets[bucket_of(lock)].remove(lock.mode);
    }
}

/// The bucket that counts the lock.
pub(crate) fn bucket_of(lock: &Lock) -> usize
    ensures bucket { result ≡ bucket_of lock.now }
    ensures few { bucket_of lock.now ≤ 32768 }
{
    let key = lock.range.lo();
    if key != lock.range.hi() {
        return WIDE;
    }
    key_bucket(key)
}

/// The bucket that counts the locks which have this key alone.
pub(crate) fn key_bucket(key: Key) -> usize
    ensures bucket { result ≡ key_bucket key }
    ensures few { key_bucket key < 32768 }
{
    (key.mixed() % BUCKETS as u64) as usize
}
