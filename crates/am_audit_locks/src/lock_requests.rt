//! Locks asked for as the lines before ask for them.

ghost use Rattle.std.specs.Prelude.{◌≡◌, ◌≢◌, List, map, true};
ghost use Rattle.am_record.specs.Asks.{with_asked};
ghost use Rattle.am_store_locks.specs.Table.{with_locks};
ghost use Rattle.am_law_serial.specs.Machine.{Transaction, is_open, locks_in};
ghost use Rattle.am_audit_locks.specs.HeldLocks.{owner_of, RiseByNumber, IsAnswerTo};

use am_record::Lock;
use am_store_locks::{Asked, LockTable};

/// Asks for the lock, if there is one.
pub(crate) fn ask(locks: &mut LockTable, tx: u64, asked: Option<Lock>) -> Asked
    ghost txs: { List Transaction }
    requires table { locks.old ≡ map owner_of txs }
    requires rising { RiseByNumber txs }
    requires active { is_open txs tx ≡ true }
    ensures answer { IsAnswerTo txs tx asked result }
    ensures granted { result ≡ Asked.Granted → locks.new ≡
        with_locks locks.old tx (with_asked (locks_in txs tx) asked) }
    ensures refused { result ≢ Asked.Granted → locks.new ≡ locks.old }
{
    let Some(lock) = asked else {
        return Asked::Granted;
    };
    let _few = locks.held(tx);
    locks.ask(tx, lock)
}

/// What asking for the lock answers, if there is one. Nothing is granted.
pub(crate) fn look(locks: &mut LockTable, tx: u64, asked: Option<Lock>) -> Asked
    ghost txs: { List Transaction }
    requires table { locks.old ≡ map owner_of txs }
    requires rising { RiseByNumber txs }
    requires active { is_open txs tx ≡ true }
    ensures answer { IsAnswerTo txs tx asked result }
    ensures same { locks.new ≡ locks.old }
{
    let held = locks.held(tx);
    let answer = ask(locks, tx, asked);
    if let Asked::Granted = answer {
        locks.cut(tx, held);
    }
    answer
}
