//! DeleteRange.

ghost use Rattle.std.specs.Prelude.{◌≡◌, ◌<◌, ◌≤◌, ◌+◌, ◌++◌, length, IfOk, OnErr};
ghost use Rattle.am_index.specs.Rooms.{HaveRoom, KeepRoom};
ghost use Rattle.am_law_effect.specs.Operations.{find_live, with_ghost, with_ghosts, note_of_entry, notes_of_ghosts};
ghost use Rattle.am_store_operations.specs.OperationSteps.{IsDone, LeavesAlone};
ghost use Rattle.am_record.specs.declared.step.Op.TheVariants.{DeleteRange};

use crate::reads::find_live;
use crate::writes::bury;
use am_index::{Hint, PLACES_AT_ONCE, PartIndex};
use am_index_parts::Parts;
use am_record::{Key, NoMemory, Range, Reply, Value};
use am_store_scan::scan;
use am_store_undo::UndoLog;
use std::alloc::Global;

/// Marks the live entries of the first records of the range as ghosts, which keep their values. The room for all notes
/// is got before the first.
#[inline(never)]
pub(crate) fn delete_range<I: PartIndex + Drop>(
    alloc: Global,
    parts: &mut Parts<I>,
    log: &mut UndoLog,
    range: Range,
    max: u64,
) -> Result<Reply, NoMemory>
    requires { HaveRoom parts.old.entries parts.old.roomy }
    ensures done { IfOk result (λ reply. IsDone (DeleteRange range max) reply parts.old log.old parts.new log.new) }
    ensures err { OnErr result (LeavesAlone parts.old log.old parts.new log.new) }
    ensures rooms { KeepRoom parts.old.roomy parts.new.roomy parts.new.entries }
{
    let rows = scan(alloc, parts, range, max)?;
    log.reserve(rows.len())?;
    bury_all(parts, log, rows.as_slice());
    Ok(Reply::Deleted(rows.len() as u64))
}

// Marks the live entry of each record as a ghost, one after another.
fn bury_all<I: PartIndex + Drop>(parts: &mut Parts<I>, log: &mut UndoLog, rows: &[(Key, Value)])
    requires values { HaveRoom parts.old.entries parts.old.roomy }
    requires room { length rows.now ≤ log.old.room }
    ensures entries { parts.new.entries ≡ with_ghosts rows.now parts.old.entries }
    ensures notes { log.new.notes ≡ notes_of_ghosts rows.now parts.old.entries ++ log.old.notes }
    ensures runs { parts.new.runs ≡ parts.old.runs }
    ensures marks { log.new.marks ≡ log.old.marks }
    ensures rooms { KeepRoom parts.old.roomy parts.new.roomy parts.new.entries }
{
    let mut hints = [Hint::none(); PLACES_AT_ONCE];
    for (at, row) in rows.iter().enumerate() {
        if at % PLACES_AT_ONCE == 0 {
            hints = parts.hints(&rows[at..]);
        }
        bury_record(parts, log, row.0, hints[at % PLACES_AT_ONCE]);
    }
}

// Marks the live entry of a key as a ghost, where it has one.
fn bury_record<I: PartIndex + Drop>(parts: &mut Parts<I>, log: &mut UndoLog, key: Key, hint: Hint)
    requires values { HaveRoom parts.old.entries parts.old.roomy }
    requires room { 0 < log.old.room }
    ensures entries { parts.new.entries ≡ with_ghost (find_live parts.old.entries key) parts.old.entries }
    ensures notes { log.new.notes ≡ note_of_entry (find_live parts.old.entries key) ++ log.old.notes }
    ensures runs { parts.new.runs ≡ parts.old.runs }
    ensures marks { log.new.marks ≡ log.old.marks }
    ensures room { log.old.room ≤ log.new.room + 1 }
    ensures rooms { KeepRoom parts.old.roomy parts.new.roomy parts.new.entries }
{
    let (found, hint) = find_live(parts, key, hint);
    if let Some(live) = found {
        bury(parts, log, &live, hint);
    }
}
