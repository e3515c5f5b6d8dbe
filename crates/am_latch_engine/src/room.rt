//! Copies of steps and replies, for which room is got before the step.

ghost use Rattle.std.specs.Prelude.{◌≡◌, ◌≤◌, IfOk, IsOk, IfSome, IsSome, [], length, false};
ghost use Rattle.am_latch_engine.specs.Changes.{end_of, room_of, count_rows};
ghost use Rattle.am_latch_engine.specs.Copies.{IsCopyOf};
ghost use Rattle.am_latch_engine.specs.Wants.{takes_lists};

use am_record::{Key, NoMemory, Op, Records, Reply, Step, Value};
use std::alloc::Global;
use std::marker::Model;

/// Room for so many pairs. Contracts see it as their number.
#[derive(Drop)]
pub struct Room {
    items: Vec<(Key, Value)>,
}

impl Model for Room {
    ghost use Rattle.std.specs.Prelude.{◌≡◌, ℕ, vec_capacity, []};

    ghost Value = { ℕ };

    ghost view = { λ r. vec_capacity r.items };

    ghost invariant = { λ r. r.items.items ≡ [] };
}

impl Room {
    pub(crate) fn new(alloc: Global, pairs: usize) -> Result<Room, NoMemory>
        ensures room { IfOk result (λ r. r ≡ pairs) }
        ensures none { pairs ≡ 0 → IsOk result }
    {
        let Ok(items) = Vec::with_capacity(alloc, pairs) else {
            return Err(NoMemory);
        };
        Ok(Room { items })
    }

    /// A copy of these pairs, which is kept as long as the trace is: so where it leaves room, and memory is found, it
    /// has memory of its own, and the room is given back whole.
    fn fill(self, alloc: Global, pairs: &Records) -> Records
        requires { length pairs.now ≤ self }
        ensures { result ≡ pairs.now }
    {
        if pairs.as_slice().len() < self.items.capacity()
            && let Ok(copy) = pairs.copy(alloc)
        {
            return copy;
        }
        let mut items = self.items;
        let Ok(()) = items.extend_from_slice(pairs.as_slice()) else {
            unreachable!();
        };
        Records::new(items)
    }
}

/// What the trace is to keep of a step: a copy, and room for a copy of its reply's rows.
#[derive(Drop)]
pub struct StepCopy {
    pub step: Step,
    pub rows: Room,
}

impl StepCopy {
    /// The copy, where memory was found. The end of a transaction takes none.
    pub fn of(alloc: Global, step: &Step) -> Option<StepCopy>
        ensures copies { IfSome result (IsCopyOf step.now) }
        ensures ends { IsSome (end_of step.now) → IsSome result }
        ensures memory { takes_lists step.now ≡ false → IsSome result }
    {
        let Ok(rows) = Room::new(alloc, rows_of(step)) else {
            return None;
        };
        let Ok(step) = copy_step(alloc, step) else {
            return None;
        };
        Some(StepCopy { step, rows })
    }
}

// How many rows the step's reply may have.
fn rows_of(step: &Step) -> usize
    ensures { result ≡ room_of step.now }
{
    match step {
        Step::Do(_, Op::Scan(_, max) | Op::ScanBack(_, max)) => {
            let max = *max;
            if max <= 1000 { max as usize } else { 0 }
        }
        _ => 0,
    }
}

// The same step. Only a load's pairs take memory.
fn copy_step(alloc: Global, step: &Step) -> Result<Step, NoMemory>
    ensures copy { IfOk result (λ s. s ≡ step.now) }
    ensures ends { IsSome (end_of step.now) → IsOk result }
    ensures memory { takes_lists step.now ≡ false → IsOk result }
{
    match step {
        Step::Commit(tx) => Ok(Step::Commit(*tx)),
        Step::Abort(tx) => Ok(Step::Abort(*tx)),
        _ => step.copy(alloc),
    }
}

/// The same reply, its rows in that room, or in less where memory is found for them: it is never refused.
pub(crate) fn copy_reply(alloc: Global, reply: &Reply, room: Room) -> Reply
    requires { count_rows reply.now ≤ room }
    ensures { result ≡ reply.now }
{
    if let Reply::Rows(rows) = reply {
        return Reply::Rows(room.fill(alloc, rows));
    }
    let Ok(copy) = reply.copy(alloc) else {
        unreachable!()
    };
    copy
}
