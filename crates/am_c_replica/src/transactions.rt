//! The calls of a transaction: it is begun, its lines are tried on a replica, and it is made a block or given up.

ghost use Rattle.std.specs.Prelude.{◌≡◌, None, IfOk};
ghost use Rattle.am_c_steps.specs.Statuses.{status_code};
ghost use Rattle.am_replica_desk.specs.Calls.{TakesTrialLine, TakesTrialLines};
ghost use Rattle.am_c_replica.specs.ReplicaCalls.{answer_len};
ghost use Rattle.am_c_replica.specs.TransactionCalls.{BeginsTransaction, HasNoLines, transaction_status, TriesLines};
ghost use Rattle.am_c_replica.specs.TransactionCalls.{MakesBlock, going_on};

use crate::ends::{end_status, no_replica, put_back};
use crate::replica_handle::ReplicaHandle;
use crate::transaction_handle::TransactionHandle;
use am_c_steps::Status;
use am_record::NoMemory;
use am_replica_desk::Fault;
use am_replica_digest::AnswerDigest;
use am_replica_trials::LineTransaction;
use std::alloc::Global;

/// Begins a transaction that has no lines behind a handle that has none.
#[unsafe(no_mangle)]
pub extern "C" fn tiuvrokk_replica_begin(alloc: Global, transaction: &mut TransactionHandle) -> u32
    ensures { BeginsTransaction transaction.old.held result transaction.new.held }
{
    if let Some(taken) = transaction.take(alloc) {
        transaction.put(taken);
        return Status::IsOpen.code();
    }
    match new_transaction(alloc) {
        Ok(new) => {
            transaction.put(new);
            Status::Fine.code()
        }
        Err(NoMemory) => Status::NoMemory.code(),
    }
}

fn new_transaction(alloc: Global) -> Result<Box<LineTransaction>, NoMemory>
    ensures { IfOk result (λ b. HasNoLines b.value) }
{
    let digest = AnswerDigest::new(alloc);
    let transaction = LineTransaction::new(alloc, &digest)?;
    Ok(Box::new(alloc, transaction)?)
}

/// Tries a line of the transaction, without its LF: the answer is the line's, and its length goes out. That is 0 where
/// the session answers the line. Where the replica ended, the transaction is gone.
#[unsafe(no_mangle)]
pub extern "C" fn tiuvrokk_replica_try(
    alloc: Global,
    replica: &mut ReplicaHandle,
    transaction: &mut TransactionHandle,
    line: &[u8],
    told: &mut u64,
) -> u32
    ensures call { TriesLines (TakesTrialLine line.now) replica.old.held transaction.old.held result
        replica.new.held transaction.new.held }
    ensures len { told.new ≡ answer_len replica.new.held }
{
    let Some(mut desk) = replica.take(alloc) else {
        return no_replica(told);
    };
    let Some(mut taken) = transaction.take(alloc) else {
        return put_back(replica, desk, Status::NoTx, told);
    };
    let ended = desk.take_line(&mut taken, line);
    keep(transaction, taken, ended);
    put_back(replica, desk, end_status(ended), told)
}

/// Tries the lines of a text, one after another: the answer has a line for each, which is empty where the session
/// answers it, and its length goes out. Where the replica ended, the transaction is gone.
#[unsafe(no_mangle)]
pub extern "C" fn tiuvrokk_replica_try_lines(
    alloc: Global,
    replica: &mut ReplicaHandle,
    transaction: &mut TransactionHandle,
    text: &[u8],
    told: &mut u64,
) -> u32
    ensures call { TriesLines (TakesTrialLines text.now) replica.old.held transaction.old.held result
        replica.new.held transaction.new.held }
    ensures len { told.new ≡ answer_len replica.new.held }
{
    let Some(mut desk) = replica.take(alloc) else {
        return no_replica(told);
    };
    let Some(mut taken) = transaction.take(alloc) else {
        return put_back(replica, desk, Status::NoTx, told);
    };
    let ended = desk.take_lines(&mut taken, text);
    keep(transaction, taken, ended);
    put_back(replica, desk, end_status(ended), told)
}

// Puts the transaction back behind its handle, unless the replica ended: then it is dropped.
fn keep(transaction: &mut TransactionHandle, taken: Box<LineTransaction>, ended: Result<(), Fault>)
    requires { transaction.old.held ≡ None }
    ensures { transaction.new.held ≡ going_on ended taken.value }
{
    if let Err(Fault::Ended) = ended {
        drop(taken);
    } else {
        transaction.put(taken);
    }
}

/// Makes the transaction a block, and leaves its handle without one: the answer is the text of an entry that has the
/// block alone, and its length goes out.
#[unsafe(no_mangle)]
pub extern "C" fn tiuvrokk_replica_block(
    alloc: Global,
    replica: &mut ReplicaHandle,
    transaction: &mut TransactionHandle,
    told: &mut u64,
) -> u32
    ensures call { MakesBlock replica.old.held transaction.old.held result replica.new.held
        transaction.new.held }
    ensures len { told.new ≡ answer_len replica.new.held }
{
    let Some(mut desk) = replica.take(alloc) else {
        return no_replica(told);
    };
    let Some(taken) = transaction.take(alloc) else {
        return put_back(replica, desk, Status::NoTx, told);
    };
    let ended = desk.put_block(Box::into_inner(taken));
    put_back(replica, desk, end_status(ended), told)
}

/// Gives the transaction up, and leaves its handle without one.
#[unsafe(no_mangle)]
pub extern "C" fn tiuvrokk_replica_end(alloc: Global, transaction: &mut TransactionHandle) -> u32
    ensures told { result ≡ status_code (transaction_status transaction.old.held) }
    ensures closed { transaction.new.held ≡ None }
{
    match transaction.take(alloc) {
        Some(taken) => {
            drop(taken);
            Status::Fine.code()
        }
        None => Status::NoTx.code(),
    }
}
