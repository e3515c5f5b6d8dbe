//! What C holds of a transaction that is tried: a pointer, null where there is none. The two functions here that make a
//! handle or reach its pointer are proved by hand (`proofs/transaction_handle`), and no other code sees it.

ghost use Rattle.std.specs.Prelude.{◌≡◌, Option as Maybe, None as Nothing, Some as Just};
ghost use Rattle.std.specs.Coded.{coded_option};
ghost use Rattle.am_c_handle.specs.Ownership.{IsSame};
ghost use Rattle.am_replica_trials.specs.Trials.{TrialState, trial_code};

use am_c_handle::Held;
use am_replica_trials::LineTransaction;
use std::alloc::Global;
use std::marker::Model;
use std::mem::replace;

/// A transaction as C holds it: `tvk_transaction` of the header. What it owns is known by `held`.
#[repr(C)]
pub struct TransactionHandle {
    at: *mut u8,
    alloc: Global,
    pub ghost held: { Maybe TrialState } by { coded_option trial_code },
}

impl Model for TransactionHandle {
    ghost use Rattle.am_c_handle.specs.Ownership.{held_owns};
    ghost use Rattle.am_c_replica.specs.Rows.{transaction_row};

    ghost also_owns = { λ h. held_owns transaction_row h.alloc h.at h.held };
}

impl TransactionHandle {
    fn of(held: Held<LineTransaction>) -> TransactionHandle
        ensures { result.held ≡ held.value }
    {
        let Held { at, alloc } = held;
        TransactionHandle {
            at: at as *mut u8,
            alloc,
        }
    }

    fn into_held(self) -> Held<LineTransaction>
        ensures { result.value ≡ self.held }
    {
        let TransactionHandle { at, alloc } = self;
        Held {
            at: at as *mut LineTransaction,
            alloc,
        }
    }

    /// Takes the transaction out, and leaves the handle without one.
    pub(crate) fn take(&mut self, alloc: Global) -> Option<Box<LineTransaction>>
        ensures transaction { IsSame (λ b. b.value) result self.old.held }
        ensures closed { self.new.held ≡ Nothing }
    {
        replace(self, TransactionHandle::of(Held::none(alloc)))
            .into_held()
            .into_box()
    }

    /// Puts a transaction after the handle. What was there before is dropped.
    pub(crate) fn put(&mut self, transaction: Box<LineTransaction>)
        ensures { self.new.held ≡ Just transaction.value }
    {
        let old = replace(self, TransactionHandle::of(Held::of(transaction)));
        drop(old.into_held().into_box());
    }
}
