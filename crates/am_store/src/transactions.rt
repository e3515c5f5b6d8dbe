//! Begin, Commit and Abort. They take no memory.

ghost use Rattle.std.specs.Prelude.{◌≡◌, ◌+◌, ◌≤◌, ◌<◌, ◌^◌, length, true};
ghost use Rattle.am_record.specs.declared.step.Step.TheVariants.{Begin, Commit, Abort};
ghost use Rattle.am_law_sound.specs.StoreState.{MayAnswer, state_after, IsFit};
ghost use Rattle.am_index.specs.Entries.{find};
ghost use Rattle.am_index.specs.Rooms.{KeepRoom};
ghost use Rattle.am_store_undo.specs.Notes.{TakesBack, CanTakeBack, NotesFit};
ghost use Rattle.am_store_tx.specs.Active.{is_active_in, undo_log_of};
ghost use Rattle.am_store.specs.OperationSteps.{HasNewLog};
ghost use Rattle.am_store.specs.InnerState.{inner_state, HasRooms};

use crate::inner::Inner;
use am_index::PartIndex;
use am_index_parts::Parts;
use am_record::{Refusal, Reply};
use am_store_tx::TxTable;

impl<I: PartIndex + Drop> Inner<I> {
    pub(crate) fn begin(&mut self) -> Reply
        ensures says { MayAnswer (inner_state self.old) Begin result }
        ensures after { inner_state self.new ≡ state_after (inner_state self.old) Begin result }
        ensures parts { self.new.parts ≡ self.old.parts }
    {
        // Read here, the table's numbers are known to rise.
        let _active = self.txs.active();
        match self.txs.begin() {
            Some(tx) => Reply::Begun(tx),
            None => Reply::Refused(Refusal::TooManyTx),
        }
    }

    #[inline(never)]
    pub(crate) fn commit(&mut self, tx: u64) -> Reply
        requires { self.old.commits + length self.old.txs.active ≤ 2 ^ 63 }
        ensures says { MayAnswer (inner_state self.old) (Commit tx) result }
        ensures after { inner_state self.new ≡ state_after (inner_state self.old) (Commit tx) result }
        ensures parts { self.new.parts ≡ self.old.parts }
    {
        self.txs.seek(tx);
        if !self.txs.is_active(tx) {
            return Reply::Refused(Refusal::NoSuchTx);
        }
        self.txs.end(tx);
        self.commits += 1;
        Reply::Committed(self.commits)
    }

    #[inline(never)]
    pub(crate) fn abort(&mut self, tx: u64) -> Reply
        requires fit { IsFit (inner_state self.old) }
        requires room { HasRooms self.old }
        ensures says { MayAnswer (inner_state self.old) (Abort tx) result }
        ensures after { inner_state self.new ≡ state_after (inner_state self.old) (Abort tx) result }
        ensures rooms { KeepRoom self.old.parts.roomy self.new.parts.roomy self.new.parts.entries }
    {
        am_law_effect::taking_back_is_known();
        self.txs.seek(tx);
        if !self.txs.is_active(tx) {
            return Reply::Refused(Refusal::NoSuchTx);
        }
        let txs = &mut self.txs;
        take_back(txs, tx, &mut self.parts);
        txs.end(tx);
        Reply::Aborted
    }
}

// Takes all that the transaction did back.
fn take_back<I: PartIndex + Drop>(txs: &mut TxTable, tx: u64, parts: &mut Parts<I>)
    requires active { is_active_in txs.old.active tx ≡ true }
    requires can { CanTakeBack (undo_log_of txs.old.active tx).notes (find parts.old.entries) }
    requires room { NotesFit parts.old.roomy (undo_log_of txs.old.active tx).notes }
    ensures entries { TakesBack (undo_log_of txs.old.active tx).notes parts.old.entries parts.new.entries }
    ensures runs { parts.new.runs ≡ parts.old.runs }
    ensures rooms { KeepRoom parts.old.roomy parts.new.roomy parts.new.entries }
    ensures log { HasNewLog txs.old tx txs.new }
{
    txs.undo(tx).take_back(parts);
}
