//! Why records don't become a run.

ghost use Rattle.std.specs.Prelude.{◌≡◌};
ghost use Rattle.am_index_parts.specs.declared.fault.RunFault.TheVariants.{NoMemory as OutOfMemory};

use am_record::NoMemory;

/// Why records don't become a run.
#[derive(Clone, Copy, Debug, PartialEq, Eq)]
pub enum RunFault {
    /// A key of theirs is live in a run.
    Taken,
    /// Memory was refused.
    NoMemory,
}

impl From<NoMemory> for RunFault {
    ghost from_gives = { λ _ fault. fault ≡ OutOfMemory };

    fn from(_error: NoMemory) -> RunFault {
        RunFault::NoMemory
    }
}
