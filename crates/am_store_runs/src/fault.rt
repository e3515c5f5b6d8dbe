//! What keeps records from being runs.

ghost use Rattle.std.specs.Prelude.{◌≡◌};
ghost use Rattle.am_store_runs.specs.declared.fault.LoadFault.TheVariants.{NoMemory as OutOfMemory};

use am_record::{Key, NoMemory};
use std::alloc::{AllocError, AllocFailed};
use thiserror::Error;

/// Why records can't be runs.
#[derive(Clone, Copy, Debug, PartialEq, Eq, Error)]
pub enum LoadFault {
    /// The keys don't rise strictly, or there are none.
    #[error("the keys don't rise strictly, or there are none")]
    NotRising,
    /// The size of a run isn't one from 1 to 65,536.
    #[error("the size of a run isn't one from 1 to 65,536")]
    BadSize,
    /// The least of the keys that stand twice.
    #[error("{0:?} stands twice")]
    Twice(Key),
    /// Memory was refused.
    #[error("no memory")]
    NoMemory,
}

impl From<NoMemory> for LoadFault {
    ghost from_gives = { λ _ fault. fault ≡ OutOfMemory };

    fn from(_error: NoMemory) -> LoadFault {
        LoadFault::NoMemory
    }
}

impl From<AllocError> for LoadFault {
    ghost from_gives = { λ _ fault. fault ≡ OutOfMemory };

    fn from(_error: AllocError) -> LoadFault {
        LoadFault::NoMemory
    }
}

impl<T: Drop> From<AllocFailed<T>> for LoadFault {
    ghost from_gives = { λ _ fault. fault ≡ OutOfMemory };

    fn from(_error: AllocFailed<T>) -> LoadFault {
        LoadFault::NoMemory
    }
}
