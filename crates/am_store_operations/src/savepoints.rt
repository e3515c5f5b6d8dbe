//! Mark and Back.

ghost use Rattle.am_index.specs.Entries.{find};
ghost use Rattle.am_index.specs.Rooms.{KeepRoom};
ghost use Rattle.am_record.specs.Marks.{since_mark};
ghost use Rattle.am_store_undo.specs.Notes.{CanTakeBack, NotesFit};
ghost use Rattle.am_store_operations.specs.OperationSteps.{IsDone};
ghost use Rattle.am_record.specs.declared.step.Op.TheVariants.{Back};

use am_index::PartIndex;
use am_index_parts::Parts;
use am_record::Reply;
use am_store_undo::UndoLog;

/// Back to the newest mark, which goes. Takes no memory.
#[inline(never)]
pub(crate) fn go_back<I: PartIndex + Drop>(parts: &mut Parts<I>, log: &mut UndoLog) -> Reply
    requires can { CanTakeBack (since_mark log.old.marks log.old.notes) (find parts.old.entries) }
    requires room { NotesFit parts.old.roomy (since_mark log.old.marks log.old.notes) }
    ensures done { IsDone Back result parts.old log.old parts.new log.new }
    ensures rooms { KeepRoom parts.old.roomy parts.new.roomy parts.new.entries }
{
    am_law_effect::taking_back_is_known();
    // Read here, the entries are known to rise.
    let _runs = parts.runs();
    if log.back(parts) {
        Reply::Done
    } else {
        Reply::NoMark
    }
}
