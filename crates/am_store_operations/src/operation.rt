//! Any operation.

ghost use Rattle.std.specs.Prelude.{◌≡◌, true, false, ◌&&◌, nat_le, IfOk, OnErr};
ghost use Rattle.am_record.specs.Limits.{last_run};
ghost use Rattle.am_record.specs.Plain.{is_orderly};
ghost use Rattle.am_record.specs.Marks.{since_mark};
ghost use Rattle.am_record.specs.Refusals.{may_make_run};
ghost use Rattle.am_index.specs.Entries.{find};
ghost use Rattle.am_index.specs.Rooms.{HaveRoom, KeepRoom};
ghost use Rattle.am_index.specs.Runs.{NothingAbove};
ghost use Rattle.am_store_undo.specs.Notes.{CanTakeBack, NotesFit};
ghost use Rattle.am_store_operations.specs.OperationSteps.{IsDone, LeavesAlone, MayWantRoom};

use crate::delete_range::delete_range;
use crate::loads::load_records;
use crate::puts::put_records;
use crate::reads::get;
use crate::savepoints::go_back;
use crate::writes::{delete, insert, replace, set};
use am_index::PartIndex;
use am_index_parts::Parts;
use am_record::{NoMemory, Op, Records, Reply};
use am_store_scan::{scan, scan_back};
use am_store_undo::UndoLog;
use std::alloc::Global;

/// Does the operation, and notes in the transaction's log how it is taken back.
///
/// # Errors
/// NoMemory, where memory was refused; nothing was done then, though the log may have got room for a note.
pub fn carry_out<I: PartIndex + Drop>(
    alloc: Global,
    parts: &mut Parts<I>,
    log: &mut UndoLog,
    op: Op,
) -> Result<Reply, NoMemory>
    requires orderly { is_orderly op ≡ true }
    requires room { (may_make_run op && nat_le last_run parts.old.runs) ≡ false }
    requires above { NothingAbove parts.old.runs parts.old.entries }
    requires back { CanTakeBack (since_mark log.old.marks log.old.notes) (find parts.old.entries) }
    requires noted { NotesFit parts.old.roomy log.old.notes }
    requires values { HaveRoom parts.old.entries parts.old.roomy }
    ensures done { IfOk result (λ reply. IsDone op reply parts.old log.old parts.new log.new) }
    ensures err { OnErr result (LeavesAlone parts.old log.old parts.new log.new) }
    ensures memory { OnErr result (MayWantRoom op parts.old.entries log.old) }
    ensures rooms { KeepRoom parts.old.roomy parts.new.roomy parts.new.entries }
{
    match op {
        Op::Get(key) => Ok(get(parts, key)),
        Op::Scan(range, max) => {
            let rows = scan(alloc, parts, range, max)?;
            Ok(Reply::Rows(Records::new(rows)))
        }
        Op::ScanBack(range, max) => {
            let rows = scan_back(alloc, parts, range, max)?;
            Ok(Reply::Rows(Records::new(rows)))
        }
        Op::Insert(key, value) => insert(parts, log, key, value),
        Op::Replace(key, value) => replace(parts, log, key, value),
        Op::Set(key, value) => set(parts, log, key, value),
        Op::Delete(key) => delete(parts, log, key),
        Op::DeleteRange(range, max) => delete_range(alloc, parts, log, range, max),
        Op::Load(records) => load_records(parts, log, &records),
        Op::Put(records) => put_records(alloc, parts, log, &records),
        Op::Lock(_) => Ok(Reply::Done),
        Op::Mark => {
            log.mark()?;
            Ok(Reply::Done)
        }
        Op::Back => Ok(go_back(parts, log)),
    }
}
