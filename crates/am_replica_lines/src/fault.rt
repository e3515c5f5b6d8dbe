//! Why lines are no block.

ghost use Rattle.std.specs.Prelude.{◌≡◌};
ghost use Rattle.am_replica_lines.specs.declared.fault.BlockFault.TheVariants.{NoMemory as OutOfMemory};

use am_record::NoMemory;
use std::alloc::{AllocError, AllocFailed};

/// What is wrong with a block's lines.
#[derive(Clone, Copy, Debug, PartialEq, Eq)]
pub enum BlockFault {
    /// Memory was refused: the replica ends.
    NoMemory,
    /// A line asks for no operation, and has no records wait.
    OtherLine,
    /// Records wait at the end, so that no COMMIT is taken.
    StillStaged,
}

impl From<NoMemory> for BlockFault {
    ghost from_gives = { λ _ fault. fault ≡ OutOfMemory };

    fn from(_error: NoMemory) -> BlockFault {
        BlockFault::NoMemory
    }
}

impl From<AllocError> for BlockFault {
    ghost from_gives = { λ _ fault. fault ≡ OutOfMemory };

    fn from(_error: AllocError) -> BlockFault {
        BlockFault::NoMemory
    }
}

impl<T: Drop> From<AllocFailed<T>> for BlockFault {
    ghost from_gives = { λ _ fault. fault ≡ OutOfMemory };

    fn from(_error: AllocFailed<T>) -> BlockFault {
        BlockFault::NoMemory
    }
}
