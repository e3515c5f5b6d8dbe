//! Entries of the replicas' log: read, written again, put in parts, and joined.

use crate::fault::{Fault, expect};
use am_replica_entries::{ReadError, entry_text, read_entry};
use am_replica_log::{Entry, Event, Log, LogFault, Name};
use am_replica_pieces::{part_at, pieces_before_head};
use std::alloc::Global;

// One block that was told nothing, and one of whose lines one was answered.
const TEXT: &[u8] =
    b"\x01\0\0\0\x02\0\0\0\x06INS 1\n\0\0\0\0\x0cGET 1\nDEL 1\n\x01\0\0\0\x01abcdefghijklmnopqrstuvwxyz012345";

// Whether a reader joins the parts of the text, of sixteen bytes each.
fn is_joined(alloc: Global, text: &[u8]) -> Result<bool, Fault> {
    let mut log = Log::new(alloc);
    let name = Name {
        writer: 7,
        number: 1,
    };
    for number in 0..=pieces_before_head(16, text) {
        let (part, bytes) = part_at(16, text, number);
        match log.take(alloc, number, Event::Put(0, name, part, true), bytes) {
            Ok(None) => {}
            Ok(
                Some(
                    Entry {
                        name: _,
                        text: told,
                    },
                ),
            ) => {
                return Ok(match &told {
                    Some(told) => told.as_slice() == text,
                    None => false,
                });
            }
            Err(LogFault::NoMemory) => return Err(Fault::NoMemory),
            Err(LogFault::WentBack) => return Err(Fault::Differs),
        }
    }
    Ok(false)
}

/// An entry of two blocks.
pub(crate) fn entry_of_two(alloc: Global) -> Result<(), Fault> {
    let blocks = match read_entry(alloc, TEXT) {
        Ok(blocks) => blocks,
        Err(ReadError::NoMemory) => return Err(Fault::NoMemory),
        Err(ReadError::NoEntry(_)) => return Err(Fault::Differs),
    };
    let Ok(text) = entry_text(alloc, &blocks) else {
        return Err(Fault::NoMemory);
    };
    expect(text.as_slice() == TEXT)?;
    expect(is_joined(alloc, &text)?)
}
