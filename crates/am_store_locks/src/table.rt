//! The table of locks.

ghost use Rattle.std.specs.Prelude.{◌≡◌, ◌≢◌, ◌<◌, ◌≤◌, ◌↔◌, [], false, true, length, take, slice_index_or};
ghost use Rattle.std.specs.Prelude.{◌==◌, slice_set, List, MatchOption, IfOk};
ghost use Rattle.std.specs.List.{position};
ghost use Rattle.std.specs.Option.{option_to_list};
ghost use Rattle.am_record.specs.Limits.{max_active, max_locks};
ghost use Rattle.am_record.specs.Locks.{is_covered, with_lock};
ghost use Rattle.am_store_locks.specs.OwnerLocks.{OwnerLocks, blocks};
ghost use Rattle.am_store_locks.specs.KeyCounts.{bucket_of, key_bucket};
ghost use Rattle.am_store_locks.specs.Table.{is_owner, locks_owned, owner_numbers, entered, with_locks, without_owner};
ghost use Rattle.am_store_locks.specs.Table.{blockers};
ghost use Rattle.am_store_locks.specs.Table.{exclusive_holders};
ghost use Rattle.am_store_locks.specs.Table.{AreAllApart};
ghost use Rattle.am_store_locks.specs.Answers.{IsLeastOf, MatchBusy};

use crate::key_counts::{KeyCounts, WIDE, bucket_of, key_bucket};
use crate::lock_answers::Asked;
use crate::owner::Owner;
use am_record::{Key, Lock, MAX_ACTIVE, Mode, NoMemory};
use std::alloc::Global;
use std::marker::Model;

/// Who holds which locks. Owners are named by the numbers of their transactions.
///
/// No lock of one owner conflicts with a lock of another. An asked lock of one key is looked up in the counts first.
/// Only where these leave a doubt are the owners looked at, one after another.
pub struct LockTable {
    // It has room for as many as there may be.
    owners: Vec<Owner>,
    // Their numbers, side by side, so that the place of an owner is found without a look at each.
    numbers: Vec<u64>,
    // Where the owner stood that was sought last.
    recent: usize,
    // Of the locks of all owners.
    counts: KeyCounts,
}

// By hand: a crate above then need not prove once more how a table of locks is dropped.
impl Drop for LockTable {
    fn drop(self) {
        let LockTable {
            owners,
            numbers,
            recent: _,
            counts,
        } = self;
        drop(owners);
        drop(numbers);
        drop(counts);
    }
}

impl Model for LockTable {
    ghost use Rattle.std.specs.Prelude.{◌≡◌, ◌≤◌, List, length, vec_capacity};
    ghost use Rattle.std.specs.List.{All};
    ghost use Rattle.std.specs.Coded.{coded_list};
    ghost use Rattle.am_store_locks.specs.OwnerLocks.{OwnerLocks, held_code, HasFew};
    ghost use Rattle.am_store_locks.specs.Table.{owner_numbers, AreAllApart};
    ghost use Rattle.am_store_locks.specs.KeyCounts.{AreCountsOf, all_locks};
    ghost use Rattle.am_record.specs.Limits.{max_active};

    ghost Value = { List OwnerLocks };

    ghost coded = { coded_list held_code };

    ghost view = { λ t. t.owners.items };

    ghost invariant = { λ t. AreAllApart t.owners.items × (length t.owners.items ≤ max_active)
        × (max_active ≤ vec_capacity t.owners)
        × All HasFew t.owners.items
        × AreCountsOf (all_locks t.owners.items) t.counts.buckets.items
        × (max_active ≤ vec_capacity t.numbers)
        × (t.numbers.items ≡ owner_numbers t.owners.items) };
}

impl LockTable {
    /// A table with no owners, and with room for all that there may be. An owner's locks take memory from the ninth on.
    ///
    /// # Errors
    /// NoMemory, where memory was refused for the room.
    pub fn new(alloc: Global) -> Result<LockTable, NoMemory>
        ensures { IfOk result (λ table. table ≡ []) }
    {
        Ok(LockTable {
            owners: Vec::with_capacity(alloc, MAX_ACTIVE)?,
            numbers: Vec::with_capacity(alloc, MAX_ACTIVE)?,
            recent: 0,
            counts: KeyCounts::new(alloc)?,
        })
    }

    /// How many owners there are.
    pub fn owners(&self) -> usize
        ensures count { result ≡ length self.now }
        ensures few { result ≤ max_active }
    {
        self.owners.len()
    }

    /// Whether the transaction is an owner.
    pub fn is_owner(&self, tx: u64) -> bool
        ensures { result ≡ is_owner self.now tx }
    {
        self.place_of(tx).is_some()
    }

    /// Looks for an owner, so that the calls that follow find it at once. Nothing else comes of it.
    pub fn seek(&mut self, tx: u64)
        ensures same { self.new ≡ self.old }
    {
        if let Some(place) = self.place_of(tx) {
            self.recent = place;
        }
    }

    /// The place of the transaction among the owners, which stand in the order in which they entered.
    pub fn place_of(&self, tx: u64) -> Option<usize>
        ensures place { result ≡ position (λ n. n == tx) (owner_numbers self.now) }
        ensures apart { AreAllApart self.now }
    {
        if let Some(number) = self.numbers.get(self.recent)
            && *number == tx
        {
            return Some(self.recent);
        }
        position_in(&self.numbers, tx)
    }

    /// Makes the transaction an owner, the last one, which holds nothing yet. It takes no memory.
    pub fn enter(&mut self, tx: u64)
        requires room { length self.old < max_active }
        requires new { is_owner self.old tx ≡ false }
        ensures { self.new ≡ entered self.old tx }
    {
        let owner = Owner::new(*self.owners.allocator(), tx);
        let Ok(()) = self.owners.push(owner) else {
            unreachable!()
        };
        self.numbers.push_reserved(tx);
    }

    /// Asks for a lock for an owner, at once and without waiting. A transaction's own locks are never in its way.
    pub fn ask(&mut self, tx: u64, asked: Lock) -> Asked
        requires { is_owner self.old tx ≡ true }

        // Busy comes first, and names the least of the other owners with a conflicting lock.
        ensures busy { MatchBusy result (IsLeastOf (blockers self.old tx asked)) (blockers self.old tx asked ≡ []) }

        // Then the lock is granted, unless it would be added to 256, or memory is refused for it.
        ensures too_many_locks { (result ≡ Asked.TooManyLocks)
            ↔ ((blockers self.old tx asked ≡ [])
            × (is_covered (locks_owned self.old tx) asked ≡ false)
            × (length (locks_owned self.old tx) ≡ max_locks)) }
        ensures no_memory { result ≡ Asked.NoMemory
            → (is_covered (locks_owned self.old tx) asked ≡ false)
            × (8 ≤ length (locks_owned self.old tx)) }

        ensures granted { result ≡ Asked.Granted → self.new ≡
            with_locks self.old tx (with_lock (locks_owned self.old tx) asked) }
        ensures refused { result ≢ Asked.Granted → self.new ≡ self.old }
    {
        let slot = self.slot_of(tx);
        let own = &self.owners[slot];
        let bucket = bucket_of(&asked);
        if self.covers(own, &asked, bucket) {
            return Asked::Granted;
        }
        if let Some(holder) = self.least_blocker(own, &asked, bucket) {
            return Asked::Busy(holder);
        }
        let answer = self.owners[slot].add(asked, bucket);
        if let Asked::Granted = answer {
            self.counts.add(&asked, bucket);
        }
        answer
    }

    /// Lets all locks of an owner go. The transaction is no owner any more.
    pub fn release(&mut self, tx: u64)
        requires { is_owner self.old tx ≡ true }
        ensures { self.new ≡ without_owner self.old tx }
    {
        let slot = self.slot_of(tx);
        let released = self.owners.remove(slot);
        self.counts.remove(released.locks());
        self.numbers.remove(slot);
    }

    /// How many locks an owner holds.
    pub fn held(&self, tx: u64) -> usize
        requires { is_owner self.now tx ≡ true }
        ensures count { result ≡ length (locks_owned self.now tx) }
        ensures few { result ≤ max_locks }
    {
        self.owners[self.slot_of(tx)].held()
    }

    /// Keeps the first `n` locks of an owner, and lets the later ones go.
    pub fn cut(&mut self, tx: u64, n: usize)
        requires owner { is_owner self.old tx ≡ true }
        requires held { n ≤ length (locks_owned self.old tx) }
        ensures { self.new ≡ with_locks self.old tx (take n (locks_owned self.old tx)) }
    {
        let slot = self.slot_of(tx);
        self.counts.remove(&self.owners[slot].locks()[n..]);
        self.owners[slot].cut(n);
    }

    /// The owner that holds an exclusive lock on the key. There is one at most.
    pub fn exclusive_at(&self, key: Key) -> Option<u64>
        ensures holder { exclusive_holders self.now key ≡ option_to_list result }
        ensures apart { AreAllApart self.now }
    {
        let bucket = key_bucket(key);
        if self.counts.near(bucket, Mode::Shared) == 0 {
            return None;
        }
        let owner = self
            .owners
            .iter()
            .find(|owner| owner.is_exclusive_at(key, bucket))?;
        Some(owner.number())
    }

    // Whether an own lock makes the asked one needless. Where the counts know of no lock near it, none of its owner is
    // looked at.
    fn covers(&self, own: &Owner, asked: &Lock, bucket: usize) -> bool
        requires own { own.now.locks ≡ locks_owned self.now own.now.owner }
        requires bucket { bucket ≡ bucket_of asked.now }
        ensures { result ≡ is_covered own.now.locks asked.now }
    {
        if bucket != WIDE && self.counts.near(bucket, Mode::Exclusive) == 0 {
            return false;
        }
        own.covers(asked, bucket)
    }

    fn least_blocker(&self, own: &Owner, asked: &Lock, bucket: usize) -> Option<u64>
        requires own { own.now.locks ≡ locks_owned self.now own.now.owner }
        requires bucket { bucket ≡ bucket_of asked.now }
        ensures { MatchOption result (blockers self.now own.now.owner asked.now ≡ [])
            (IsLeastOf (blockers self.now own.now.owner asked.now)) }
    {
        if self.meets_nobody(own, asked, bucket) {
            return None;
        }
        let tx = own.number();
        self.owners
            .iter()
            .filter(|owner| owner.blocks(tx, asked, bucket))
            .map(|owner| owner.number())
            .min()
    }

    // Whether the counts tell that no other owner blocks the lock: no more locks are near it than the
    // owner has at its key.
    fn meets_nobody(&self, own: &Owner, asked: &Lock, bucket: usize) -> bool
        requires own { own.now.locks ≡ locks_owned self.now own.now.owner }
        requires bucket { bucket ≡ bucket_of asked.now }
        ensures { result ≡ true → blockers self.now own.now.owner asked.now ≡ [] }
    {
        if bucket == WIDE {
            return false;
        }
        let near = self.counts.near(bucket, asked.mode);
        near == 0 || near <= own.count_at(asked.range.lo(), bucket).clashing(asked.mode)
    }

    fn slot_of(&self, tx: u64) -> usize
        requires { is_owner self.now tx ≡ true }
        ensures in_bounds { result < length self.now }
        ensures held { (d : OwnerLocks) → slice_index_or self.now result d ≡
            record { owner = tx; locks = locks_owned self.now tx } }
        ensures write { (locks : List Lock)
            → slice_set self.now result (record { owner = tx; locks = locks }) ≡ with_locks self.now tx locks }
    {
        let slot = self.place_of(tx);
        slot.unwrap()
    }
}

fn position_in(numbers: &[u64], tx: u64) -> Option<usize>
    ensures { result ≡ position (λ n. n == tx) numbers.now }
{
    numbers.iter().position(|number| *number == tx)
}
