//! Load.

ghost use Rattle.std.specs.Prelude.{◌≡◌, ◌<◌, true, IfOk, OnErr};
ghost use Rattle.am_record.specs.Limits.{last_run};
ghost use Rattle.am_record.specs.Plain.{is_rising};
ghost use Rattle.am_index.specs.Rooms.{HaveRoom, KeepRoom};
ghost use Rattle.am_index.specs.Runs.{NothingAbove};
ghost use Rattle.am_store_operations.specs.OperationSteps.{IsDone, LeavesAlone};
ghost use Rattle.am_record.specs.declared.step.Op.TheVariants.{Load};

use am_index::{PartIndex, RecordSource};
use am_index_parts::Parts;
use am_record::{NoMemory, Reply};
use am_store_loads::load;
use am_store_undo::{Note, UndoLog};

/// Makes the records a new run, where none of them is live, and notes it in the transaction's log.
///
/// # Errors
/// NoMemory, where memory was refused; nothing was done then, though the log may have got room for a note.
#[inline(never)]
pub fn load_records<I: PartIndex + Drop, S: RecordSource>(
    parts: &mut Parts<I>,
    log: &mut UndoLog,
    records: &S,
) -> Result<Reply, NoMemory>
    requires rising { is_rising (S.records records.now) ≡ true }
    requires room { parts.old.runs < last_run }
    requires above { NothingAbove parts.old.runs parts.old.entries }
    requires values { HaveRoom parts.old.entries parts.old.roomy }
    ensures done { IfOk result (λ reply.
        IsDone (Load (S.records records.now)) reply parts.old log.old parts.new log.new) }
    ensures err { OnErr result (LeavesAlone parts.old log.old parts.new log.new) }
    ensures rooms { KeepRoom parts.old.roomy parts.new.roomy parts.new.entries }
{
    log.reserve_one()?;
    match load(parts, records) {
        Reply::Done => {
            log.note(Note::RunMade(parts.runs()));
            Ok(Reply::Done)
        }
        Reply::Exists(key) => Ok(Reply::Exists(key)),
        _ => Err(NoMemory),
    }
}
