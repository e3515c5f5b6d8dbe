//! What comes before an operation: the refusal that is due, and its lock.

ghost use Rattle.std.specs.Prelude.{◌≡◌, ◌||◌, nat_le, true, length, IfOk, IfErr, OnOk, OnErr};
ghost use Rattle.am_index_parts.specs.Catalogs.{runs_in};
ghost use Rattle.am_store_locks.specs.Table.{locks_owned};
ghost use Rattle.am_store_tx.specs.Active.{is_active_in, ops_in};
ghost use Rattle.am_record.specs.Limits.{max_runs};
ghost use Rattle.am_record.specs.Refusals.{refusal_before_lock};
ghost use Rattle.am_store.specs.Admission.{IsLockRefusal, IsLockGranted, wish_of};

use crate::asked_operation::AskedOperation;
use am_index::PartIndex;
use am_index_parts::Parts;
use am_record::{Lock, MAX_RUNS, Op, Range, Refusal};
use am_store_locks::Asked;
use am_store_tx::TxTable;

/// The refusal that is due before a lock is asked for, where so many runs may be made in all.
#[inline(never)]
pub(crate) fn refusal<I: PartIndex + Drop, A: AskedOperation>(
    parts: &Parts<I>,
    most_runs: u32,
    txs: &TxTable,
    tx: u64,
    asked: &A,
) -> Option<Refusal>
    ensures { result ≡ refusal_before_lock (is_active_in txs.now.active tx) (ops_in txs.now.active tx)
        (nat_le most_runs parts.now.runs || nat_le max_runs (runs_in parts.now.entries)) (A.op asked.now) }
{
    let is_active = txs.is_active(tx);
    let ops = if is_active { txs.ops(tx) } else { 0 };
    asked.refusal(is_active, ops, has_all_runs(parts, most_runs))
}

// Whether no further run may be made: as many were made as may be, or 65,535 have entries.
fn has_all_runs<I: PartIndex + Drop>(parts: &Parts<I>, most_runs: u32) -> bool
    ensures { result ≡ (nat_le most_runs parts.now.runs || nat_le max_runs (runs_in parts.now.entries)) }
{
    parts.runs() >= most_runs || parts.open_runs() >= MAX_RUNS as usize
}

/// Asks for the lock, if there is one, and answers how many locks the transaction held before.
///
/// # Errors
/// The refusal that is due, or NoMemory; nothing is changed.
#[inline(never)]
pub(crate) fn ask(txs: &mut TxTable, tx: u64, asked: Option<Lock>) -> Result<usize, Refusal>
    requires { is_active_in txs.old.active tx ≡ true }
    ensures granted { OnOk result (IsLockGranted txs.old tx asked txs.new) }
    ensures held { IfOk result (λ held. held ≡ length (locks_owned txs.old.locks tx)) }
    ensures refused { IfErr result (IsLockRefusal txs.old tx asked) }
    ensures unchanged { OnErr result (txs.new ≡ txs.old) }
{
    am_law_sound::tables_follow();
    // Read here, the owners of locks are known to be the active transactions.
    let _active = txs.active();
    let held = txs.held(tx);
    let Some(lock) = asked else {
        return Ok(held);
    };
    match txs.ask(tx, lock) {
        Asked::Granted => Ok(held),
        Asked::Busy(holder) => Err(Refusal::Busy(holder)),
        Asked::TooManyLocks => Err(Refusal::TooManyLocks),
        Asked::NoMemory => Err(Refusal::NoMemory),
    }
}

/// The wish that the operation leaves, once it is answered.
pub(crate) fn wish_of(op: &Op) -> Option<Range>
    ensures { result ≡ wish_of op.now }
{
    match op {
        Op::Get(key) => Some(Range::point(*key)),
        Op::Scan(range, _) | Op::ScanBack(range, _) => Some(*range),
        _ => None,
    }
}
