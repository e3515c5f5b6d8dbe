//! One operation of a transaction.

ghost use Rattle.std.specs.Prelude.{◌≡◌, ◌≤◌, true, false, ◌&&◌, nat_le, IfOk, OnErr};
ghost use Rattle.am_record.specs.Limits.{last_run};
ghost use Rattle.am_record.specs.Plain.{is_orderly};
ghost use Rattle.am_record.specs.declared.step.Step.TheVariants.{Do};
ghost use Rattle.am_record.specs.declared.step.Refusal.TheVariants.{NoMemory as OutOfMemory};
ghost use Rattle.am_index.specs.Entries.{find};
ghost use Rattle.am_index.specs.Rooms.{HaveRoom, KeepRoom};
ghost use Rattle.am_record.specs.Marks.{since_mark};
ghost use Rattle.am_store_undo.specs.Notes.{CanTakeBack, NotesFit};
ghost use Rattle.am_index.specs.Runs.{NothingAbove};
ghost use Rattle.am_store_tx.specs.Active.{is_active_in, undo_log_of};
ghost use Rattle.am_record.specs.Refusals.{may_make_run};
ghost use Rattle.am_law_sound.specs.StoreState.{MayAnswer, state_after, IsFit};
ghost use Rattle.am_law_effect.specs.Store.{with_wish};
ghost use Rattle.am_store_operations.specs.OperationSteps.{MayWantRoom};
ghost use Rattle.am_store.specs.OperationSteps.{Works, LeavesAllAlone};
ghost use Rattle.am_store.specs.Memory.{may_want_memory};
ghost use Rattle.am_store.specs.InnerState.{inner_state, HasRooms};

use crate::admission::{ask, refusal};
use crate::asked_operation::AskedOperation;
use crate::inner::Inner;
use am_index::PartIndex;
use am_index_parts::Parts;
use am_record::{NoMemory, Range, Refusal, Reply};
use am_store_merge::Wishes;
use am_store_tx::TxTable;
use std::alloc::Global;

impl<I: PartIndex + Drop> Inner<I> {
    /// Asks for the operation's lock first, then does it, then counts it. A lock that was granted is
    /// cut again where memory is refused later.
    #[inline(never)]
    pub(crate) fn operate<A: AskedOperation + Drop>(&mut self, tx: u64, asked: A) -> Reply
        requires fit { IsFit (inner_state self.old) }
        requires room { HasRooms self.old }
        requires runs { self.old.most_runs ≤ last_run }
        ensures says { MayAnswer (inner_state self.old) (Do tx (A.op asked)) result }
        ensures after { inner_state self.new ≡ state_after (inner_state self.old) (Do tx (A.op asked)) result }
        ensures memory { result ≡ Reply.Refused OutOfMemory →
            may_want_memory (inner_state self.old) (Do tx (A.op asked)) ≡ true }
        ensures rooms { KeepRoom self.old.parts.roomy self.new.parts.roomy self.new.parts.entries }
    {
        am_index::runs_follow();
        // Each call below then finds it without a search.
        self.txs.seek(tx);
        if let Some(why) = refusal(&self.parts, self.most_runs, &self.txs, tx, &asked) {
            return Reply::Refused(why);
        }
        let held = match ask(&mut self.txs, tx, asked.asked_lock()) {
            Ok(held) => held,
            Err(why) => return Reply::Refused(why),
        };
        let wish = asked.wish();
        let Ok(reply) = work(self.alloc, &mut self.parts, &mut self.txs, tx, asked) else {
            self.txs.cut(tx, held);
            return Reply::Refused(Refusal::NoMemory);
        };
        self.txs.count_op(tx);
        wish_for(&mut self.wishes, wish);
        reply
    }
}

fn wish_for(wishes: &mut Wishes, wish: Option<Range>)
    ensures { wishes.new ≡ with_wish wishes.old wish }
{
    if let Some(range) = wish {
        wishes.wish(range);
    }
}

// Does the operation of the transaction, whose lock is granted.
#[inline(never)]
fn work<I: PartIndex + Drop, A: AskedOperation + Drop>(
    alloc: Global,
    parts: &mut Parts<I>,
    txs: &mut TxTable,
    tx: u64,
    asked: A,
) -> Result<Reply, NoMemory>
    requires active { is_active_in txs.old.active tx ≡ true }
    requires orderly { is_orderly (A.op asked) ≡ true }
    requires room { (may_make_run (A.op asked) && nat_le last_run parts.old.runs) ≡ false }
    requires above { NothingAbove parts.old.runs parts.old.entries }
    requires back { CanTakeBack (since_mark (undo_log_of txs.old.active tx).marks (undo_log_of txs.old.active tx).notes)
        (find parts.old.entries) }
    requires noted { NotesFit parts.old.roomy (undo_log_of txs.old.active tx).notes }
    requires values { HaveRoom parts.old.entries parts.old.roomy }
    ensures done { IfOk result (λ reply. Works (A.op asked) reply parts.old txs.old tx parts.new txs.new) }
    ensures err { OnErr result (LeavesAllAlone parts.old txs.old tx parts.new txs.new) }
    ensures memory { OnErr result (MayWantRoom (A.op asked) parts.old.entries (undo_log_of txs.old.active tx)) }
    ensures rooms { KeepRoom parts.old.roomy parts.new.roomy parts.new.entries }
{
    asked.carry_out(alloc, parts, txs.undo(tx))
}
