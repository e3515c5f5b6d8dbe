//! What holds of every table of locks.

ghost use Rattle.std.specs.Prelude.{◌≡◌, ◌≢◌, ℕ, List, false, slice_index_or};
ghost use Rattle.std.specs.List.{Contains};
ghost use Rattle.am_record.specs.Locks.{conflicts};
ghost use Rattle.am_record.specs.OrderedKey.{OrderedKey};
ghost use Rattle.am_record.specs.declared.lock.Lock.{Lock};
ghost use Rattle.am_store_locks.specs.OwnerLocks.{OwnerLocks};
ghost use Rattle.am_store_locks.specs.Table.{locks_owned, AreAllApart};
ghost use Rattle.am_store_locks.specs.KeyCounts.{key_bucket, all_locks, any_within, AreCountsOf};
ghost use Rattle.am_store_locks.specs.declared.count.Count.{Count};

/// No lock of an owner conflicts with a lock of another. Every table keeps its owners apart.
pub fn owners_never_conflict()
    ensures { (table : List OwnerLocks) → AreAllApart table → (t u : ℕ) → t ≢ u → (l m : Lock) →
        Contains (locks_owned table t) l → Contains (locks_owned table u) m → conflicts l m ≡ false }
{}

/// Where the bucket of a key counts no lock, nor the one of the locks of more keys, no owner's lock has the key in its
/// range. Every table keeps the counts of its locks.
pub fn uncounted_keys_are_free()
    ensures { (table : List OwnerLocks) (buckets : List Count) → AreCountsOf (all_locks table) buckets →
        (key : OrderedKey) (d : Count) → (slice_index_or buckets (key_bucket key) d).all ≡ 0 →
        (slice_index_or buckets 32768 d).all ≡ 0 → any_within (all_locks table) key ≡ false }
{}
