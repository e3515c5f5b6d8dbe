//! What a transaction is asked to do.

ghost use Rattle.std.specs.Prelude.{◌≡◌, true, false, ◌&&◌, nat_le, IfOk, OnErr};
ghost use Rattle.am_record.specs.Asks.{lock_of, span};
ghost use Rattle.am_record.specs.Limits.{last_run};
ghost use Rattle.am_record.specs.Marks.{since_mark};
ghost use Rattle.am_record.specs.Plain.{is_orderly, is_rising};
ghost use Rattle.am_record.specs.Refusals.{may_make_run, refusal_before_lock};
ghost use Rattle.am_record.specs.declared.step.Op.{Op as TheOp};
ghost use Rattle.am_record.specs.declared.step.Op.TheVariants.{Load};
ghost use Rattle.am_index.specs.Entries.{find};
ghost use Rattle.am_index.specs.Rooms.{HaveRoom, KeepRoom};
ghost use Rattle.am_index.specs.Runs.{NothingAbove};
ghost use Rattle.am_store_undo.specs.Notes.{CanTakeBack, NotesFit};
ghost use Rattle.am_store_operations.specs.OperationSteps.{IsDone, LeavesAlone, MayWantRoom};
ghost use Rattle.am_store.specs.Admission.{wish_of};

use crate::admission::wish_of;
use am_index::{PartIndex, RecordSource};
use am_index_parts::Parts;
use am_record::{Lock, NoMemory, Op, Range, Refusal, Reply};
use am_store_operations::{carry_out, load_records};
use am_store_undo::UndoLog;
use std::alloc::Global;
use std::marker::Model;

/// What a transaction is asked to do: an operation that owns its records, or a load that reads them where they lie.
pub(crate) trait AskedOperation {
    /// The operation.
    ghost op: { Self → TheOp };

    /// The refusal that is due before its lock is asked for.
    fn refusal(&self, is_active: bool, ops: u64, is_full: bool) -> Option<Refusal>
        ensures { result ≡ refusal_before_lock is_active ops is_full (op self.now) };

    /// The lock that it asks for.
    fn asked_lock(&self) -> Option<Lock>
        requires { is_orderly (op self.now) ≡ true }
        ensures { result ≡ lock_of (op self.now) };

    /// The wish that it leaves, once it is answered.
    fn wish(&self) -> Option<Range>
        ensures { result ≡ wish_of (op self.now) };

    /// Does it, once its lock is granted, and notes in the transaction's log how it is taken back.
    ///
    /// # Errors
    /// NoMemory, where memory was refused; nothing was done then, though the log may have got room for a note.
    fn carry_out<I: PartIndex + Drop>(
        self,
        alloc: Global,
        parts: &mut Parts<I>,
        log: &mut UndoLog,
    ) -> Result<Reply, NoMemory>
        requires orderly { is_orderly (op self) ≡ true }
        requires room { (may_make_run (op self) && nat_le last_run parts.old.runs) ≡ false }
        requires above { NothingAbove parts.old.runs parts.old.entries }
        requires back { CanTakeBack (since_mark log.old.marks log.old.notes) (find parts.old.entries) }
        requires noted { NotesFit parts.old.roomy log.old.notes }
        requires values { HaveRoom parts.old.entries parts.old.roomy }
        ensures done { IfOk result (λ reply. IsDone (op self) reply parts.old log.old parts.new log.new) }
        ensures err { OnErr result (LeavesAlone parts.old log.old parts.new log.new) }
        ensures memory { OnErr result (MayWantRoom (op self) parts.old.entries log.old) }
        ensures rooms { KeepRoom parts.old.roomy parts.new.roomy parts.new.entries };
}

impl AskedOperation for Op {
    ghost op = { λ op. op };

    fn refusal(&self, is_active: bool, ops: u64, is_full: bool) -> Option<Refusal> {
        Op::refusal(self, is_active, ops, is_full)
    }

    fn asked_lock(&self) -> Option<Lock> {
        Op::asked_lock(self)
    }

    fn wish(&self) -> Option<Range> {
        wish_of(self)
    }

    fn carry_out<I: PartIndex + Drop>(
        self,
        alloc: Global,
        parts: &mut Parts<I>,
        log: &mut UndoLog,
    ) -> Result<Reply, NoMemory> {
        carry_out(alloc, parts, log, self)
    }
}

/// A load of a source's records, which rise, one or more. None of them is copied before it stands in the index.
#[derive(Drop)]
pub(crate) struct SourceLoad<'a, S: RecordSource> {
    source: &'a S,
}

impl<'a, S: RecordSource> Model for SourceLoad<'a, S> {
    ghost use Rattle.std.specs.Prelude.{◌≡◌, true};
    ghost use Rattle.am_record.specs.Plain.{Records, is_rising};
    ghost use Rattle.am_record.specs.Records.{records_code};

    ghost Value = { Records };

    ghost coded = { records_code };

    ghost view = { λ l. S.records l.source.now };

    ghost invariant = { λ l. is_rising (S.records l.source.now) ≡ true };
}

impl<'a, S: RecordSource> SourceLoad<'a, S> {
    /// A load of these records.
    pub(crate) fn new(source: &'a S) -> SourceLoad<'a, S>
        requires { is_rising (S.records source.now) ≡ true }
        ensures { result ≡ S.records source.entry.now }
    {
        SourceLoad { source }
    }
}

impl<'a, S: RecordSource> AskedOperation for SourceLoad<'a, S> {
    ghost op = { λ records. Load records };

    fn refusal(&self, is_active: bool, ops: u64, is_full: bool) -> Option<Refusal> {
        // Read here, the records are known to rise.
        let _ = &self.source;
        if let Some(why) = Op::Mark.refusal(is_active, ops, is_full) {
            return Some(why);
        }
        if is_full {
            return Some(Refusal::TooManyRuns);
        }
        None
    }

    fn asked_lock(&self) -> Option<Lock> {
        Some(Lock::exclusive(span(self.source)))
    }

    fn wish(&self) -> Option<Range> {
        None
    }

    fn carry_out<I: PartIndex + Drop>(
        self,
        _alloc: Global,
        parts: &mut Parts<I>,
        log: &mut UndoLog,
    ) -> Result<Reply, NoMemory> {
        load_records(parts, log, self.source)
    }
}

// From the first key of the records, which rise, to the last.
fn span<S: RecordSource>(records: &S) -> Range
    requires { is_rising (S.records records.now) ≡ true }
    ensures { result ≡ span (S.records records.now) }
{
    let Some(range) = Range::new(records.key(0), records.key(records.len() - 1)) else {
        unreachable!()
    };
    range
}
