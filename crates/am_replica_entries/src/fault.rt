//! Why a text is no entry.

ghost use Rattle.std.specs.Prelude.{◌≡◌};
ghost use Rattle.am_replica_entries.specs.declared.fault.ReadError.TheVariants.{NoMemory as OutOfMemory};

use std::alloc::{AllocError, AllocFailed};

/// What is wrong with a text: the first fault from left to right.
#[derive(Clone, Copy, Debug, PartialEq, Eq)]
pub enum Fault {
    /// A field passes the end, as where a piece is missing.
    Short,
    /// It is an entry of before there were forms.
    OldForm,
    /// It is of a form that isn't known.
    OtherForm,
    /// The byte that says whether lines were answered is neither 0 nor 1.
    Flag,
    /// A digest is told of no answers.
    NothingTold,
    /// Bytes stand after the last block.
    Trailing,
}

#[derive(Debug, Drop)]
pub enum ReadError {
    /// Memory was refused: the replica ends.
    NoMemory,
    /// The text is no entry.
    NoEntry(Fault),
}

impl From<AllocError> for ReadError {
    ghost from_gives = { λ _ e. e ≡ OutOfMemory };

    fn from(_error: AllocError) -> ReadError {
        ReadError::NoMemory
    }
}

impl<T: Drop> From<AllocFailed<T>> for ReadError {
    ghost from_gives = { λ _ e. e ≡ OutOfMemory };

    fn from(_error: AllocFailed<T>) -> ReadError {
        ReadError::NoMemory
    }
}
