//! Merge and Clean.

ghost use Rattle.std.specs.Prelude.{◌≡◌};
ghost use Rattle.am_record.specs.declared.step.Step.TheVariants.{Merge, Clean};
ghost use Rattle.am_index.specs.Content.{content};
ghost use Rattle.am_index.specs.Rooms.{KeepRoom};
ghost use Rattle.am_law_sound.specs.StoreState.{MayAnswer, state_after};
ghost use Rattle.am_store.specs.InnerState.{inner_state, HasRooms};

use crate::inner::Inner;
use am_index::PartIndex;
use am_record::{Range, Refusal, Reply, is_limit};
use am_store_merge::{clean_step, merge_step};

impl<I: PartIndex + Drop> Inner<I> {
    #[inline(never)]
    pub(crate) fn merge(&mut self, limit: u64) -> Reply
        requires { HasRooms self.old }
        ensures says { MayAnswer (inner_state self.old) (Merge limit) result }
        ensures after { inner_state self.new ≡ state_after (inner_state self.old) (Merge limit) result }
        ensures content { content self.new.parts.entries ≡ content self.old.parts.entries }
        ensures rooms { KeepRoom self.old.parts.roomy self.new.parts.roomy self.new.parts.entries }
    {
        if !is_limit(limit) {
            return Reply::Refused(Refusal::BadLimit);
        }
        merge_step(&mut self.parts, &mut self.wishes, self.txs.locks(), limit)
    }

    #[inline(never)]
    pub(crate) fn clean(&mut self, range: Range, limit: u64) -> Reply
        requires { HasRooms self.old }
        ensures says { MayAnswer (inner_state self.old) (Clean range limit) result }
        ensures after { inner_state self.new ≡ state_after (inner_state self.old) (Clean range limit) result }
        ensures content { content self.new.parts.entries ≡ content self.old.parts.entries }
        ensures rooms { KeepRoom self.old.parts.roomy self.new.parts.roomy self.new.parts.entries }
    {
        if !is_limit(limit) {
            return Reply::Refused(Refusal::BadLimit);
        }
        clean_step(&mut self.parts, self.txs.locks(), range, limit)
    }
}
