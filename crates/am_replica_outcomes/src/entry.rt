//! The text of an entry, and what the clients of its blocks are told.

ghost use Rattle.std.specs.Prelude.{◌≡◌, ◌<◌, ◌^◌, List, IfOk, OnOk, option_map};
ghost use Rattle.am_replica.specs.Ordered.{verdicts};
ghost use Rattle.am_replica_blocks.specs.Blocks.{BlockLine};
ghost use Rattle.am_replica_entries.specs.Texts.{the_blocks};
ghost use Rattle.am_replica_outcomes.specs.Entries.{AreLinesOf, told_to_all, IsTextTold};

use crate::outcome::outcome_text;
use am_record::NoMemory;
use am_replica::{Digest, Machine, Outcome, Replica};
use am_replica_entries::{Block, ReadError, read_entry};
use am_replica_texts::{EntryOutcome, apply_entry};
use std::alloc::Global;

/// Takes the text of an entry in its turn: what the clients of its blocks are told, one after another. None, where it
/// is no entry, or one of its lines is none of a block's: then nothing was done.
///
/// # Errors
/// NoMemory, where memory was refused: the replica ends.
pub fn take_text<M: Machine + Drop, D: Digest + Drop>(
    replica: &mut Replica<M, D>,
    alloc: Global,
    text: &[u8],
) -> Result<Option<Vec<u8>>, NoMemory>
    requires idle { M.idle replica.old.machine }
    requires countable { replica.old.commits < 2 ^ 63 }
    ensures told { IfOk result (λ told. IsTextTold D.digest_of text.now
        (record { map = M.map replica.old.machine; commits = replica.old.commits }) (option_map (λ v. v.items) told)
        (record { map = M.map replica.new.machine; commits = replica.new.commits })) }
    ensures idle { OnOk result (M.idle replica.new.machine) }
{
    let entry = match read_entry(alloc, text) {
        Ok(entry) => entry,
        Err(ReadError::NoMemory) => return Err(NoMemory),
        Err(ReadError::NoEntry(_)) => return Ok(None),
    };
    match apply_entry(replica, alloc, &entry)? {
        EntryOutcome::Applied(outcomes) => Ok(Some(outcome_texts(alloc, &entry, &outcomes)?)),
        EntryOutcome::Nothing => Ok(None),
    }
}

// What the clients of the blocks are told, by their outcomes.
fn outcome_texts(alloc: Global, entry: &[Block], outcomes: &[Outcome]) -> Result<Vec<u8>, NoMemory>
    ensures { (lines : List (List BlockLine)) → AreLinesOf (the_blocks entry.now) lines → IfOk result (λ text.
        text.items ≡ told_to_all (the_blocks entry.now) lines (verdicts outcomes.now)) }
{
    let mut text = Vec::new(alloc);
    let mut blocks = entry;
    let mut left = outcomes;
    loop {
        let Some((block, others)) = blocks.split_first() else {
            return Ok(text);
        };
        let Some((outcome, rest)) = left.split_first() else {
            return Ok(text);
        };
        text.extend_from_slice(&outcome_text(alloc, block, outcome)?)?;
        blocks = others;
        left = rest;
    }
}
