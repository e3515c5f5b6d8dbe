//! One owner of locks.

ghost use Rattle.std.specs.Prelude.{◌≡◌, ◌≢◌, ◌<◌, ◌≤◌, ◌↔◌, ℕ, ◌++◌, ◌∷◌, [], length, take, IsOk, OnOk};
ghost use Rattle.std.specs.List.{list_any};
ghost use Rattle.am_record.specs.Limits.{max_locks};
ghost use Rattle.am_record.specs.Locks.{conflicts, is_covered};
ghost use Rattle.am_store_locks.specs.OwnerLocks.{has_conflict, blocks, is_exclusive_at};
ghost use Rattle.am_store_locks.specs.Chains.{any_exclusive, IsCountAt};
ghost use Rattle.am_store_locks.specs.KeyCounts.{key_bucket, bucket_of};
ghost use Rattle.smallvec.specs.SmallVec.{HasRoomFor};

use crate::chains::{Chains, INLINE_LOCKS};
use crate::count::Count;
use crate::key_counts::WIDE;
use crate::lock_answers::Asked;
use am_record::{Key, Lock, MAX_LOCKS, Mode};
use smallvec::SmallVec;
use std::alloc::{AllocError, Global};
use std::marker::Model;

/// A transaction and its locks, the oldest first.
#[derive(Drop)]
pub(crate) struct Owner {
    number: u64,
    has_exclusive: bool,
    chains: Chains,
    locks: SmallVec<Lock, INLINE_LOCKS>,
}

impl Model for Owner {
    ghost use Rattle.std.specs.Prelude.{◌≡◌, ◌≤◌, length};
    ghost use Rattle.am_store_locks.specs.OwnerLocks.{OwnerLocks, held_code};
    ghost use Rattle.am_store_locks.specs.Chains.{any_exclusive, AreChainsOf};
    ghost use Rattle.am_record.specs.Limits.{max_locks};

    ghost Value = { OwnerLocks };

    ghost coded = { held_code };

    ghost view = { λ o. record { owner = o.number; locks = o.locks.items } };

    ghost invariant = { λ o. (8 ≤ o.locks.capacity) × (8 ≤ o.chains.before.capacity)
        × (length o.locks.items ≤ max_locks)
        × (o.has_exclusive ≡ any_exclusive o.locks.items)
        × AreChainsOf o.locks.items o.chains.ends o.chains.before.items };
}

impl Owner {
    pub(crate) fn new(alloc: Global, number: u64) -> Owner
        ensures { result ≡ record { owner = number; locks = [] } }
    {
        Owner {
            number,
            has_exclusive: false,
            chains: Chains::new(alloc),
            locks: SmallVec::new(alloc),
        }
    }

    pub(crate) fn number(&self) -> u64
        ensures { result ≡ self.now.owner }
    {
        self.number
    }

    pub(crate) fn held(&self) -> usize
        ensures count { result ≡ length self.now.locks }
        ensures few { result ≤ max_locks }
    {
        self.locks.len()
    }

    /// Its locks.
    pub(crate) fn locks(&self) -> &[Lock]
        ensures { result.now ≡ self.now.locks }
    {
        &self.locks
    }

    /// Whether one of its locks keeps the transaction from the asked lock. Its own never do. The bucket is that of the
    /// asked lock, so that it is made once for many owners.
    pub(crate) fn blocks(&self, tx: u64, asked: &Lock, bucket: usize) -> bool
        requires { bucket ≡ bucket_of asked.now }
        ensures { result ≡ blocks tx asked.now self.now }
    {
        self.number != tx && self.has_conflict(asked, bucket)
    }

    fn has_conflict(&self, asked: &Lock, bucket: usize) -> bool
        requires { bucket ≡ bucket_of asked.now }
        ensures { result ≡ has_conflict asked.now self.now }
    {
        if !self.has_exclusive && !asked.mode.is_exclusive() {
            return false;
        }
        if bucket == WIDE {
            return conflict_among(&self.locks, asked);
        }
        self.count_at(asked.range.lo(), bucket).clashing(asked.mode) > 0
    }

    /// Whether one of its locks is exclusive, on the key of this bucket.
    pub(crate) fn is_exclusive_at(&self, key: Key, bucket: usize) -> bool
        requires { bucket ≡ key_bucket key }
        ensures { result ≡ is_exclusive_at key self.now }
    {
        self.has_exclusive && self.count_at(key, bucket).clashing(Mode::Shared) > 0
    }

    /// How many of its locks have the key of this bucket.
    pub(crate) fn count_at(&self, key: Key, bucket: usize) -> Count
        requires { bucket ≡ key_bucket key }
        ensures { IsCountAt self.now.locks key result }
    {
        self.chains.count_at(&self.locks, key, bucket)
    }

    /// Whether one of its locks makes the asked one needless, whose bucket this is.
    pub(crate) fn covers(&self, asked: &Lock, bucket: usize) -> bool
        requires { bucket ≡ bucket_of asked.now }
        ensures { result ≡ is_covered self.now.locks asked.now }
    {
        if bucket == WIDE {
            return covered_among(&self.locks, asked);
        }
        self.count_at(asked.range.lo(), bucket).covering(asked.mode) > 0
    }

    /// Adds the lock, of this bucket. It doesn't look at own locks, nor at other owners.
    pub(crate) fn add(&mut self, asked: Lock, bucket: usize) -> Asked
        requires { bucket ≡ bucket_of asked }
        ensures owner { self.new.owner ≡ self.old.owner }
        ensures granted { result ≡ Asked.Granted → self.new.locks ≡ self.old.locks ++ asked ∷ [] }
        ensures refused { result ≢ Asked.Granted → self.new ≡ self.old }
        ensures too_many_locks { (result ≡ Asked.TooManyLocks) ↔ (length self.old.locks ≡ max_locks) }
        ensures no_memory { result ≡ Asked.NoMemory → 8 ≤ length self.old.locks }
        ensures busy { (h : ℕ) → result ≢ Asked.Busy h }
        ensures few { length self.new.locks ≤ max_locks }
    {
        if self.locks.len() == MAX_LOCKS {
            return Asked::TooManyLocks;
        }
        if make_room(&mut self.locks, &mut self.chains).is_err() {
            return Asked::NoMemory;
        }
        self.has_exclusive |= asked.mode.is_exclusive();
        self.chains.add(bucket);
        self.locks.push_reserved(asked);
        Asked::Granted
    }

    /// Keeps the first `n` locks.
    pub(crate) fn cut(&mut self, n: usize)
        ensures { self.new ≡ record self.old { locks = take n self.old.locks } }
    {
        self.locks.truncate(n);
        self.has_exclusive = has_exclusive(&self.locks);
        self.chains.cut(&self.locks);
    }
}

// Makes room for one lock more. The first eight need none.
fn make_room(
    locks: &mut SmallVec<Lock, INLINE_LOCKS>,
    chains: &mut Chains,
) -> Result<(), AllocError>
    requires capacity { 8 ≤ locks.old.capacity }
    requires chain_capacity { 8 ≤ chains.old.before.capacity }
    requires long { length chains.old.before.items ≡ length locks.old.items }
    ensures locks { locks.new.items ≡ locks.old.items }
    ensures inline { 8 ≤ locks.new.capacity }
    ensures ends { chains.new.ends ≡ chains.old.ends }
    ensures before { chains.new.before.items ≡ chains.old.before.items }
    ensures chains_inline { 8 ≤ chains.new.before.capacity }
    ensures room { OnOk result (HasRoomFor locks.new 1) }
    ensures chain_room { OnOk result (HasRoomFor chains.new.before 1) }
    ensures memory { length locks.old.items < 8 → IsOk result }
{
    locks.reserve(1)?;
    chains.reserve_one()
}

fn has_exclusive(locks: &[Lock]) -> bool
    ensures { result ≡ any_exclusive locks.now }
{
    locks.iter().any(|held| held.mode.is_exclusive())
}

fn conflict_among(locks: &[Lock], asked: &Lock) -> bool
    ensures { result ≡ list_any (conflicts asked.now) locks.now }
{
    locks.iter().any(|held| asked.conflicts(held))
}

fn covered_among(locks: &[Lock], asked: &Lock) -> bool
    ensures { result ≡ is_covered locks.now asked.now }
{
    locks.iter().any(|own| own.covers(asked))
}
