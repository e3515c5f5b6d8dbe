//! What a store keeps, and its steps.

ghost use Rattle.std.specs.Prelude.{◌≡◌, ◌+◌, ◌≤◌, ◌^◌, length, true};
ghost use Rattle.am_record.specs.Limits.{last_run};
ghost use Rattle.am_record.specs.declared.step.Refusal.TheVariants.{NoMemory};
ghost use Rattle.am_index.specs.Rooms.{KeepRoom};
ghost use Rattle.am_law_sound.specs.StoreState.{MayAnswer, state_after, IsFit};
ghost use Rattle.am_store.specs.Memory.{may_want_memory};
ghost use Rattle.am_store.specs.StoreSteps.{KeepsContent};
ghost use Rattle.am_store.specs.InnerState.{inner_state, HasRooms};

use am_index::PartIndex;
use am_index_parts::Parts;
use am_record::{Reply, Step};
use am_store_merge::Wishes;
use am_store_tx::TxTable;
use std::alloc::Global;

/// The partitions, the active transactions, the wishes, the number of commits, and how many runs may be made in all.
#[derive(Drop)]
pub(crate) struct Inner<I: PartIndex + Drop> {
    pub(crate) alloc: Global,
    pub(crate) parts: Parts<I>,
    pub(crate) txs: TxTable,
    pub(crate) wishes: Wishes,
    pub(crate) commits: u64,
    pub(crate) most_runs: u32,
}

impl<I: PartIndex + Drop> Inner<I> {
    #[inline(never)]
    pub(crate) fn step(&mut self, step: Step) -> Reply
        requires fit { IsFit (inner_state self.old) }
        requires few { self.old.commits + length self.old.txs.active ≤ 2 ^ 63 }
        requires room { HasRooms self.old }
        requires runs { self.old.most_runs ≤ last_run }
        ensures says { MayAnswer (inner_state self.old) step result }
        ensures after { inner_state self.new ≡ state_after (inner_state self.old) step result }
        ensures memory { result ≡ Reply.Refused NoMemory → may_want_memory (inner_state self.old) step ≡ true }
        ensures rooms { KeepRoom self.old.parts.roomy self.new.parts.roomy self.new.parts.entries }
        ensures content { KeepsContent (inner_state self.old) step (inner_state self.new) }
    {
        match step {
            Step::Begin => self.begin(),
            Step::Do(tx, op) => self.operate(tx, op),
            Step::Commit(tx) => self.commit(tx),
            Step::Abort(tx) => self.abort(tx),
            Step::Merge(limit) => self.merge(limit),
            Step::Clean(range, limit) => self.clean(range, limit),
        }
    }
}
