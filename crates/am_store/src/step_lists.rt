//! Lists of steps.

ghost use Rattle.std.specs.Prelude.{◌≡◌, ◌<◌, ◌≤◌, ◌+◌, ◌++◌, ◌∷◌, [], IfOk, OnOk, OnErr, vec_len, vec_capacity};
ghost use Rattle.am_store.specs.StoreSteps.{HasRun};

use crate::store::Store;
use am_index::PartIndex;
use am_record::{NoMemory, Reply, Step};
use std::alloc::Global;

/// Takes the steps in order, and puts their replies after those that are there. Copies of all steps
/// and the room for all replies are got first. Wherever the store stood, it then stands there with
/// these steps and replies added: so, from an opened store on, the trace of all steps is sound at each
/// moment, whatever the steps were. Each reply is one that is due of what the store keeps before it,
/// NoMemory only where that step may want memory, and no Merge or Clean changes the content.
///
/// # Errors
/// NoMemory, where memory was refused for the copies or the room: no step was taken.
pub fn run<I: PartIndex + Drop>(
    alloc: Global,
    store: &mut Store<I>,
    steps: &[Step],
    replies: &mut Vec<Reply>,
) -> Result<(), NoMemory>
    ensures run { OnOk result (HasRun store.old steps.now replies.old.items store.new replies.new.items) }
    ensures err { OnErr result ((store.new ≡ store.old) × (replies.new.items ≡ replies.old.items)) }
{
    am_law_sound::steps_lift();
    let copies = copies_of(alloc, steps)?;
    replies.reserve(copies.len())?;
    for step in copies {
        let reply = store.step(step);
        push_within(replies, reply);
    }
    Ok(())
}

fn copies_of(alloc: Global, steps: &[Step]) -> Result<Vec<Step>, NoMemory>
    ensures { IfOk result (λ copies. copies.items ≡ steps.now) }
{
    let mut copies = Vec::with_capacity(alloc, steps.len())?;
    for step in steps {
        copies.push(step.copy(alloc)?)?;
    }
    Ok(copies)
}

// Appends where there is room.
fn push_within(replies: &mut Vec<Reply>, reply: Reply)
    requires { vec_len replies.old < vec_capacity replies.old }
    ensures items { replies.new.items ≡ replies.old.items ++ reply ∷ [] }
    ensures len { vec_len replies.new ≡ vec_len replies.old + 1 }
    ensures capacity { vec_capacity replies.old ≤ vec_capacity replies.new }
{
    if replies.push(reply).is_err() {
        unreachable!();
    }
}
