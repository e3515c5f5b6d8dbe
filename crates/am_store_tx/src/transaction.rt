//! One active transaction.

ghost use Rattle.std.specs.Prelude.{◌≡◌};

use am_store_undo::UndoLog;
use std::alloc::Global;

/// What the table keeps of a transaction, beside its locks.
#[derive(Drop)]
pub(crate) struct Transaction {
    pub(crate) number: u64,
    /// How many operations were answered and not refused.
    pub(crate) ops: u64,
    pub(crate) log: UndoLog,
}

impl Transaction {
    ghost use Rattle.am_store_tx.specs.Active.{new_transaction};

    pub(crate) fn new(alloc: Global, number: u64) -> Transaction
        ensures { result ≡ new_transaction number }
    {
        Transaction {
            number,
            ops: 0,
            log: UndoLog::new(alloc),
        }
    }
}
