//! What the client of a block is told in the end.

use crate::fault::{Fault, expect};
use am_record::{NoMemory, Reply};
use am_replica::Outcome;
use am_replica_entries::{Block, Told};
use am_replica_outcomes::outcome_text;
use std::alloc::Global;

// Three lines, of which the first was answered before.
fn block(alloc: Global) -> Result<Block, Fault> {
    let Ok(lines) = Vec::from_slice(alloc, b"GET ant\nSTAGE ant=2\nLOAD bee=3\n") else {
        return Err(Fault::NoMemory);
    };
    let told = Some(Told {
        lines: 1,
        digest: [0; 32],
    });
    Ok(Block { lines, told })
}

fn committed(alloc: Global) -> Result<Outcome, Fault> {
    let mut replies = Vec::new(alloc);
    for reply in [Reply::Absent, Reply::Done] {
        if replies.push(reply).is_err() {
            return Err(Fault::NoMemory);
        }
    }
    Ok(Outcome::Committed(7, replies))
}

/// A block that commits, and one that doesn't stand.
pub(crate) fn outcomes_of_a_block(alloc: Global) -> Result<(), Fault> {
    let block = block(alloc)?;
    let outcome = committed(alloc)?;
    let text = match outcome_text(alloc, &block, &outcome) {
        Err(NoMemory) => outcome_text(alloc, &block, &outcome)?,
        Ok(text) => text,
    };
    expect(text.as_slice() == b"OK\nOK\nCOMMITTED 7\n".as_slice())?;
    let text = outcome_text(alloc, &block, &Outcome::Conflict)?;
    let conflicts = b"ERR CONFLICT\nERR CONFLICT\nERR CONFLICT\n".as_slice();
    expect(text.as_slice() == conflicts)
}
