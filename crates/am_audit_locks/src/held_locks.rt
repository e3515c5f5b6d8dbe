//! The locks of the active transactions.

ghost use Rattle.std.specs.Prelude.{◌≡◌, ◌≢◌, ◌<◌, ◌≤◌, ◌∷◌, ◌++◌, [], List, length, map, true, false, IfOk, OnOk};
ghost use Rattle.std.specs.Prelude.{OnErr, vec_capacity, option_to_list};
ghost use Rattle.am_record.specs.Limits.{max_active, max_locks};
ghost use Rattle.am_record.specs.Asks.{lock_of, with_asked};
ghost use Rattle.am_record.specs.Plain.{is_orderly};
ghost use Rattle.am_store_locks.specs.Table.{is_owner, entered, with_locks, without_owner};
ghost use Rattle.am_law_serial.specs.Machine.{Transaction, is_open, locks_in};
ghost use Rattle.am_audit_locks.specs.OnlyOwnerLocks.{only_owner, listed_locks};
ghost use Rattle.am_audit_locks.specs.HeldLocks.{owner_of, RiseByNumber, IsAnswerTo};

use crate::asked_locks::Listed;
use crate::lock_requests::{ask, look};
use am_record::{Lock, MAX_LOCKS, NoMemory, Op};
use am_store_locks::{Asked, LockTable};
use std::alloc::Global;
use std::marker::Model;

/// Who holds which locks, as a table of locks has them. The locks of an only owner meet nobody's: what it asks for is
/// listed, and comes into the table with the next owner, where the list is full, and where a refusal is looked at.
pub struct HeldLocks {
    table: LockTable,
    // Whether an owner is there and not in the table, which is empty then.
    is_listed: bool,
    number: u64,
    // What it asked for. It has room for as many as may be listed.
    listed: Vec<Listed>,
}

// By hand: a crate above then need not prove once more how held locks are dropped.
impl Drop for HeldLocks {
    fn drop(self) {
        let HeldLocks {
            table,
            is_listed: _,
            number: _,
            listed,
        } = self;
        drop(table);
        drop(listed);
    }
}

impl Model for HeldLocks {
    ghost use Rattle.std.specs.Prelude.{◌≡◌, ◌≤◌, ◌∷◌, [], List, length, cond, true, vec_capacity};
    ghost use Rattle.std.specs.Coded.{coded_list};
    ghost use Rattle.am_store_locks.specs.OwnerLocks.{OwnerLocks, held_code};
    ghost use Rattle.am_audit_locks.specs.OnlyOwnerLocks.{only_owner, listed_locks};
    ghost use Rattle.am_record.specs.Limits.{max_locks};

    ghost Value = { List OwnerLocks };

    ghost coded = { coded_list held_code };

    ghost view = { λ l. cond l.is_listed (only_owner l.number (listed_locks l.listed.items) ∷ []) l.table };

    ghost invariant = { λ l. (l.is_listed ≡ true → l.table ≡ []) × (length l.listed.items ≤ max_locks)
        × (max_locks ≤ vec_capacity l.listed) };
}

impl HeldLocks {
    /// No owners, and room for all that there may be.
    ///
    /// # Errors
    /// NoMemory, where memory was refused for the room.
    pub fn new(alloc: Global) -> Result<HeldLocks, NoMemory>
        ensures { IfOk result (λ locks. locks ≡ []) }
    {
        Ok(HeldLocks {
            table: LockTable::new(alloc)?,
            is_listed: false,
            number: 0,
            listed: Vec::with_capacity(alloc, MAX_LOCKS)?,
        })
    }

    /// Makes the transaction an owner, the last one, which holds nothing yet.
    ///
    /// # Errors
    /// NoMemory, where memory was refused for the locks of a listed owner.
    pub fn enter(&mut self, tx: u64) -> Result<(), NoMemory>
        requires room { length self.old < max_active }
        requires new { is_owner self.old tx ≡ false }
        ensures { OnOk result (self.new ≡ entered self.old tx) }
    {
        if self.is_listed {
            enter_all(&mut self.table, self.number, &self.listed)?;
            self.is_listed = false;
        }
        if self.table.owners() == 0 {
            self.is_listed = true;
            self.number = tx;
            self.listed.clear();
        } else {
            self.table.enter(tx);
        }
        Ok(())
    }

    /// Asks for the lock that the operation asks for, if it asks for one.
    pub fn ask(&mut self, tx: u64, op: &Op) -> Asked
        ghost txs: { List Transaction }
        requires table { self.old ≡ map owner_of txs }
        requires rising { RiseByNumber txs }
        requires active { is_open txs tx ≡ true }
        requires orderly { is_orderly op.now ≡ true }
        ensures answer { IsAnswerTo txs tx (lock_of op.now) result }
        ensures granted { result ≡ Asked.Granted → self.new ≡
            with_locks self.old tx (with_asked (locks_in txs tx) (lock_of op.now)) }
        ensures refused { result ≢ Asked.Granted → self.new ≡ self.old }
    {
        if self.is_listed {
            if list(&mut self.listed, op) {
                return Asked::Granted;
            }
            if enter_all(&mut self.table, self.number, &self.listed).is_err() {
                return Asked::NoMemory;
            }
        }
        self.is_listed = false;
        ask(&mut self.table, tx, op.asked_lock())
    }

    /// What asking for the lock answers, if there is one. Nothing is granted.
    pub fn look(&mut self, tx: u64, asked: Option<Lock>) -> Asked
        ghost txs: { List Transaction }
        requires table { self.old ≡ map owner_of txs }
        requires rising { RiseByNumber txs }
        requires active { is_open txs tx ≡ true }
        ensures answer { IsAnswerTo txs tx asked result }
        ensures same { self.new ≡ self.old }
    {
        if self.is_listed {
            if enter_all(&mut self.table, self.number, &self.listed).is_err() {
                return Asked::NoMemory;
            }
            self.is_listed = false;
        }
        look(&mut self.table, tx, asked)
    }

    /// Lets all locks of an owner go. The transaction is no owner any more.
    pub fn release(&mut self, tx: u64)
        requires { is_owner self.old tx ≡ true }
        ensures { self.new ≡ without_owner self.old tx }
    {
        if self.is_listed {
            self.is_listed = false;
        } else {
            self.table.release(tx);
        }
    }
}

// Lists what the operation asks for, where there is room for one more.
fn list(listed: &mut Vec<Listed>, op: &Op) -> bool
    requires room { max_locks ≤ vec_capacity listed.old }
    requires orderly { is_orderly op.now ≡ true }
    ensures listed { result ≡ true → listed_locks listed.new.items ≡
        listed_locks listed.old.items ++ option_to_list (lock_of op.now) }
    ensures few { result ≡ true → length listed.old.items < max_locks }
    ensures most { length listed.old.items ≤ max_locks → length listed.new.items ≤ max_locks }
    ensures full { result ≡ false → listed.new.items ≡ listed.old.items }
    ensures capacity { vec_capacity listed.new ≡ vec_capacity listed.old }
{
    if listed.len() >= MAX_LOCKS {
        return false;
    }
    match op {
        Op::Get(key) => listed.push_reserved(Listed::Read(*key)),
        Op::Insert(key, _) | Op::Replace(key, _) | Op::Set(key, _) | Op::Delete(key) => {
            listed.push_reserved(Listed::Write(*key));
        }
        _ => {
            if let Some(lock) = op.asked_lock() {
                listed.push_reserved(Listed::Other(lock));
            }
        }
    }
    true
}

// Enters a listed owner with the locks that it asked for.
fn enter_all(table: &mut LockTable, number: u64, listed: &[Listed]) -> Result<(), NoMemory>
    requires empty { table.old ≡ [] }
    requires few { length listed.now ≤ max_locks }
    ensures ok { OnOk result (table.new ≡ only_owner number (listed_locks listed.now) ∷ []) }
    ensures err { OnErr result (table.new ≡ []) }
{
    table.enter(number);
    for asked in listed {
        match table.ask(number, asked.lock()) {
            Asked::Granted => {}
            Asked::NoMemory => {
                table.release(number);
                return Err(NoMemory);
            }
            Asked::Busy(_) | Asked::TooManyLocks => unreachable!(),
        }
    }
    Ok(())
}
