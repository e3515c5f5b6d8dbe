//! A step of a store that has a trace.

ghost use Rattle.std.specs.Prelude.{◌≡◌, ◌≢◌, true};
ghost use Rattle.am_record.specs.declared.step.Reply.TheVariants.{Refused};
ghost use Rattle.am_record.specs.declared.step.Refusal.TheVariants.{NoMemory, SeatFull};
ghost use Rattle.am_law_serial.specs.Trace.{Trace};
ghost use Rattle.am_store.specs.Memory.{may_want_memory};
ghost use Rattle.am_latch_engine.specs.Changes.{HasTrace, GoesOnWith, IsBoundedReply};

use am_index::PartIndex;
use am_record::{Reply, Step};
use am_store::Store;

/// Takes a step of the store, wherever it stands.
pub(crate) fn take_step<I: PartIndex + Drop>(store: &mut Store<I>, step: Step) -> Reply
    ensures goes { (trace : Trace) → HasTrace trace store.old → GoesOnWith trace step result store.new }
    ensures bounded { (trace : Trace) → HasTrace trace store.old → IsBoundedReply step result }
    ensures own { (trace : Trace) → HasTrace trace store.old → result ≢ Refused SeatFull }
    ensures memory { result ≡ Refused NoMemory → may_want_memory store.old step ≡ true }
    ensures most { store.new.most_runs ≡ store.old.most_runs }
{
    am_law_sound::steps_lift();
    store.step(step)
}
