//! The table of active transactions.

ghost use Rattle.std.specs.Prelude.{◌≡◌, ◌≢◌, ◌+◌, ◌<◌, ◌≤◌, ◌↔◌, [], Some, None, true, false, length, take};
ghost use Rattle.std.specs.Prelude.{slice_index_or, slice_set, if◌then◌else◌, IfOk};
ghost use Rattle.std.specs.Borrow.{sem};
ghost use Rattle.am_record.specs.Limits.{max_ops, max_locks};
ghost use Rattle.am_record.specs.Locks.{is_covered, with_lock};
ghost use Rattle.am_record.specs.ByNumber.{with_changed};
ghost use Rattle.am_store_locks.specs.Table.{locks_owned, with_locks, blockers};
ghost use Rattle.am_store_locks.specs.Answers.{IsLeastOf, MatchBusy};

use crate::transaction::Transaction;
use am_record::{Lock, MAX_ACTIVE, MAX_BEGUN, NoMemory};
use am_store_locks::{Asked, LockTable};
use am_store_undo::UndoLog;
use std::alloc::Global;
use std::marker::Model;

/// The active transactions, each with its number, its count of operations and its undo log, and
/// the locks of each.
///
/// Transactions are numbered 1, 2, 3 in the order in which they begin.
pub struct TxTable {
    begun: u64,
    // It has room for as many as there may be.
    active: Vec<Transaction>,
    locks: LockTable,
}

// By hand: a crate above then need not prove once more how a table of transactions is dropped.
impl Drop for TxTable {
    fn drop(self) {
        let TxTable {
            begun: _,
            active,
            locks,
        } = self;
        drop(active);
        drop(locks);
    }
}

impl Model for TxTable {
    ghost use Rattle.std.specs.Prelude.{◌≤◌, vec_capacity};
    ghost use Rattle.am_store_tx.specs.Txs.{Txs, txs_code, IsConsistent};
    ghost use Rattle.am_record.specs.Limits.{max_active};

    ghost Value = { Txs };

    ghost coded = { txs_code };

    ghost view = { λ t. record { begun = t.begun; active = t.active.items; locks = t.locks } };

    ghost invariant = { λ t. IsConsistent (record { begun = t.begun; active = t.active.items; locks = t.locks })
        × (max_active ≤ vec_capacity t.active) };
}

impl TxTable {
    ghost use Rattle.am_store_tx.specs.declared.transaction.Transaction.{Transaction};
    ghost use Rattle.am_store_tx.specs.Active.{is_active_in, ops_in, undo_log_of};
    ghost use Rattle.am_store_tx.specs.Txs.{IsConsistent, can_begin, txs_after_begin, txs_after_op, txs_after_end};
    ghost use Rattle.am_store_tx.specs.LentLogs.{LendsLog};

    /// A table of no transactions, and with room for all that there may be.
    ///
    /// # Errors
    /// NoMemory, where memory was refused for the room.
    pub fn new(alloc: Global) -> Result<TxTable, NoMemory>
        ensures { IfOk result (λ table. table ≡ record { begun = 0; active = []; locks = [] }) }
    {
        Ok(TxTable {
            begun: 0,
            active: Vec::with_capacity(alloc, MAX_ACTIVE)?,
            locks: LockTable::new(alloc)?,
        })
    }

    /// Begins a transaction, with no operations, no notes and no locks, and answers its number.
    /// None, where 64 transactions are active or 2^63 were begun. It takes no memory.
    pub fn begin(&mut self) -> Option<u64>
        ensures number { result ≡ (if can_begin self.old then Some (self.old.begun + 1) else None) }
        ensures after { self.new ≡ (if can_begin self.old then txs_after_begin self.old else self.old) }
    {
        if self.active.len() == MAX_ACTIVE || self.begun == MAX_BEGUN {
            return None;
        }
        let number = self.begun + 1;
        let transaction = Transaction::new(*self.active.allocator(), number);
        let Ok(()) = self.active.push(transaction) else {
            unreachable!()
        };
        self.locks.enter(number);
        self.begun = number;
        Some(number)
    }

    /// Whether the transaction is active.
    pub fn is_active(&self, tx: u64) -> bool
        ensures active { result ≡ is_active_in self.now.active tx }
        ensures consistent { IsConsistent self.now }
    {
        self.locks.is_owner(tx)
    }

    /// Looks for a transaction, so that the calls that follow find it at once. Nothing else comes of it.
    pub fn seek(&mut self, tx: u64)
        ensures same { self.new ≡ self.old }
        ensures consistent { IsConsistent self.old }
    {
        self.locks.seek(tx);
    }

    /// How many transactions are active.
    pub fn active(&self) -> usize
        ensures count { result ≡ length self.now.active }
        ensures consistent { IsConsistent self.now }
    {
        self.active.len()
    }

    /// How many operations of the transaction were counted.
    pub fn ops(&self, tx: u64) -> u64
        requires { is_active_in self.now.active tx ≡ true }
        ensures count { result ≡ ops_in self.now.active tx }
        ensures few { result ≤ max_ops }
    {
        self.active[self.place_of(tx)].ops
    }

    /// Counts one operation of the transaction.
    pub fn count_op(&mut self, tx: u64)
        requires active { is_active_in self.old.active tx ≡ true }
        requires few { ops_in self.old.active tx < max_ops }
        ensures { self.new ≡ txs_after_op self.old tx }
    {
        let place = self.place_of(tx);
        let transaction = &mut self.active[place];
        transaction.ops += 1;
    }

    /// The undo log of the transaction.
    pub fn undo(&mut self, tx: u64) -> &mut UndoLog
        requires { is_active_in self.old.active tx ≡ true }
        ensures* writes_back { sem 𝓛 (LendsLog self.entry tx result) }
        ensures log { result.now ≡ undo_log_of self.old.active tx }
    {
        let place = self.place_of(tx);
        let Some(transaction) = self.active.get_mut(place) else {
            unreachable!()
        };
        &mut transaction.log
    }

    /// Asks for a lock for the transaction, as `LockTable::ask` does.
    pub fn ask(&mut self, tx: u64, asked: Lock) -> Asked
        requires { is_active_in self.old.active tx ≡ true }

        // Busy comes first, and names the least of the other transactions with a conflicting lock.
        ensures busy { MatchBusy result (IsLeastOf (blockers self.old.locks tx asked))
            (blockers self.old.locks tx asked ≡ []) }

        // Then the lock is granted, unless it would be added to 256, or memory is refused for it.
        ensures too_many_locks { (result ≡ Asked.TooManyLocks)
            ↔ ((blockers self.old.locks tx asked ≡ [])
            × (is_covered (locks_owned self.old.locks tx) asked ≡ false)
            × (length (locks_owned self.old.locks tx) ≡ max_locks)) }
        ensures no_memory { result ≡ Asked.NoMemory
            → (is_covered (locks_owned self.old.locks tx) asked ≡ false)
            × (8 ≤ length (locks_owned self.old.locks tx)) }

        ensures granted { result ≡ Asked.Granted
            → self.new ≡ record self.old {
              locks = with_locks self.old.locks tx
                  (with_lock (locks_owned self.old.locks tx) asked);
            } }
        ensures refused { result ≢ Asked.Granted → self.new ≡ self.old }
    {
        self.locks.ask(tx, asked)
    }

    /// How many locks the transaction holds.
    pub fn held(&self, tx: u64) -> usize
        requires { is_active_in self.now.active tx ≡ true }
        ensures count { result ≡ length (locks_owned self.now.locks tx) }
        ensures few { result ≤ max_locks }
    {
        self.locks.held(tx)
    }

    /// Keeps the first `n` locks of the transaction, and lets the later ones go.
    pub fn cut(&mut self, tx: u64, n: usize)
        requires active { is_active_in self.old.active tx ≡ true }
        requires held { n ≤ length (locks_owned self.old.locks tx) }
        ensures { self.new ≡ record self.old {
          locks = with_locks self.old.locks tx
              (take n (locks_owned self.old.locks tx));
        } }
    {
        self.locks.cut(tx, n);
    }

    /// Ends the transaction: it is not active any more, its locks and its notes are gone. It takes no memory.
    pub fn end(&mut self, tx: u64)
        requires { is_active_in self.old.active tx ≡ true }
        ensures { self.new ≡ txs_after_end self.old tx }
    {
        self.locks.release(tx);
        self.active.retain(|active| active.number != tx);
    }

    /// The locks of all active transactions.
    pub fn locks(&self) -> &LockTable
        ensures locks { result.now ≡ self.now.locks }
        ensures consistent { IsConsistent self.now }
    {
        &self.locks
    }

    fn place_of(&self, tx: u64) -> usize
        requires { is_active_in self.now.active tx ≡ true }
        ensures in_bounds { result < length self.now.active }
        ensures found { (d : Transaction) → let x = slice_index_or self.now.active result d in
            (x.number ≡ tx) × (x.ops ≡ ops_in self.now.active tx) × (x.log ≡ undo_log_of self.now.active tx) }
        ensures write { (f : Transaction → Transaction) (d : Transaction)
            → slice_set self.now.active result (f (slice_index_or self.now.active result d)) ≡
            with_changed (λ (x : Transaction). x.number) f tx self.now.active }
    {
        // The owners of locks are the active transactions, in the same order.
        let place = self.locks.place_of(tx);
        place.unwrap()
    }
}
