//! An entry into a replica.

ghost use Rattle.std.specs.Prelude.{◌≡◌, ◌<◌, ◌^◌, length, IfOk, OnOk};
ghost use Rattle.am_replica_entries.specs.Texts.{the_blocks};
ghost use Rattle.am_replica_texts.specs.Entries.{IsEntryApplied, IsApplied};

use crate::blocks::{EntryFault, read_blocks};
use am_record::NoMemory;
use am_replica::{Digest, Machine, Outcome, Replica};
use am_replica_entries::{Block, ReadError, read_entry};
use std::alloc::Global;

/// What became of an entry.
#[derive(Drop)]
pub enum EntryOutcome {
    /// Its blocks were taken in their order, and came to these.
    Applied(Vec<Outcome>),
    /// It is none, and nothing was done.
    Nothing,
}

/// Takes an entry in its turn.
///
/// # Errors
/// NoMemory, where memory was refused: the replica ends.
pub fn apply_entry<M: Machine + Drop, D: Digest + Drop>(
    replica: &mut Replica<M, D>,
    alloc: Global,
    entry: &[Block],
) -> Result<EntryOutcome, NoMemory>
    requires idle { M.idle replica.old.machine }
    requires countable { replica.old.commits < 2 ^ 63 }
    requires few { length entry.now < 2 ^ 32 }
    ensures applied { IfOk result (λ told. IsEntryApplied D.digest_of (the_blocks entry.now)
        (record { map = M.map replica.old.machine; commits = replica.old.commits }) told
        (record { map = M.map replica.new.machine; commits = replica.new.commits })) }
    ensures idle { OnOk result (M.idle replica.new.machine) }
{
    let blocks = match read_blocks(alloc, &replica.digest, entry) {
        Ok(blocks) => blocks,
        Err(EntryFault::NoMemory) => return Err(NoMemory),
        Err(EntryFault::NoEntry) => return Ok(EntryOutcome::Nothing),
    };
    Ok(EntryOutcome::Applied(replica.apply_all(alloc, &blocks)?))
}

/// Takes the text of an entry in its turn.
///
/// # Errors
/// NoMemory, where memory was refused: the replica ends.
pub fn apply_text<M: Machine + Drop, D: Digest + Drop>(
    replica: &mut Replica<M, D>,
    alloc: Global,
    text: &[u8],
) -> Result<EntryOutcome, NoMemory>
    requires idle { M.idle replica.old.machine }
    requires countable { replica.old.commits < 2 ^ 63 }
    ensures applied { IfOk result (λ told. IsApplied D.digest_of text.now
        (record { map = M.map replica.old.machine; commits = replica.old.commits }) told
        (record { map = M.map replica.new.machine; commits = replica.new.commits })) }
    ensures idle { OnOk result (M.idle replica.new.machine) }
{
    let entry = match read_entry(alloc, text) {
        Ok(entry) => entry,
        Err(ReadError::NoMemory) => return Err(NoMemory),
        Err(ReadError::NoEntry(_)) => return Ok(EntryOutcome::Nothing),
    };
    apply_entry(replica, alloc, &entry)
}
