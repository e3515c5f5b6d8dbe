//! The blocks of an entry.

ghost use Rattle.std.specs.Prelude.{◌≡◌, ◌<◌, ◌^◌, List, length, IfOk};
ghost use Rattle.am_replica_entries.specs.Texts.{the_block, the_blocks};
ghost use Rattle.am_replica_lines.specs.Lines.{IsBlockOf};
ghost use Rattle.am_replica.specs.declared.block.Block.{Block as TheBlock};
ghost use Rattle.am_replica_texts.specs.Entries.{AreBlocksOf};

use am_replica::{Block, Digest};
use am_replica_lines::{BlockFault, read_block};
use std::alloc::{AllocError, AllocFailed, Global};

/// Why an entry has none.
#[derive(Clone, Copy, Debug, PartialEq, Eq)]
pub(crate) enum EntryFault {
    /// Memory was refused: the replica ends.
    NoMemory,
    /// One of its lines is none of a block's.
    NoEntry,
}

impl From<AllocError> for EntryFault {
    ghost use Rattle.am_replica_texts.specs.declared.blocks.EntryFault.TheVariants.{NoMemory as OutOfMemory};

    ghost from_gives = { λ _ fault. fault ≡ OutOfMemory };

    fn from(_error: AllocError) -> EntryFault {
        EntryFault::NoMemory
    }
}

impl<T: Drop> From<AllocFailed<T>> for EntryFault {
    ghost use Rattle.am_replica_texts.specs.declared.blocks.EntryFault.TheVariants.{NoMemory as OutOfMemory};

    ghost from_gives = { λ _ fault. fault ≡ OutOfMemory };

    fn from(_error: AllocFailed<T>) -> EntryFault {
        EntryFault::NoMemory
    }
}

/// The blocks of an entry, as a replica takes them.
///
/// # Errors
/// NoEntry, where one of its lines is none of a block's; NoMemory, where memory was refused.
pub(crate) fn read_blocks<D: Digest>(
    alloc: Global,
    digest: &D,
    entry: &[am_replica_entries::Block],
) -> Result<Vec<Block>, EntryFault>
    requires { length entry.now < 2 ^ 32 }
    ensures read { IfOk result (λ blocks. AreBlocksOf D.digest_of (the_blocks entry.now) blocks.items) }
    ensures few { IfOk result (λ blocks. length blocks.items < 2 ^ 32) }
    ensures none { result ≡ Err EntryFault.NoEntry → (blocks : List TheBlock) →
        AreBlocksOf D.digest_of (the_blocks entry.now) blocks → ⊥ }
{
    let mut blocks = Vec::with_capacity(alloc, entry.len())?;
    for block in entry {
        blocks.push(one_block(alloc, digest, block)?)?;
    }
    Ok(blocks)
}

fn one_block<D: Digest>(
    alloc: Global,
    digest: &D,
    block: &am_replica_entries::Block,
) -> Result<Block, EntryFault>
    ensures read { IfOk result (λ b. IsBlockOf D.digest_of (the_block block.now) b) }
    ensures none { result ≡ Err EntryFault.NoEntry →
        (b : TheBlock) → IsBlockOf D.digest_of (the_block block.now) b → ⊥ }
{
    match read_block(alloc, digest, block) {
        Ok(read) => Ok(read),
        Err(BlockFault::NoMemory) => Err(EntryFault::NoMemory),
        Err(BlockFault::OtherLine) => Err(EntryFault::NoEntry),
        Err(BlockFault::StillStaged) => Err(EntryFault::NoEntry),
    }
}
