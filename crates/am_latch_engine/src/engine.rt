//! The store with its trace.

ghost use Rattle.std.specs.Prelude.{◌≡◌, ◌≢◌, ◌≤◌, ◌+◌, ◌<◌, ◌^◌, ◌++◌, ◌∷◌, [], ℕ, IfOk, OnErr, IfSome, IsSome, None};
ghost use Rattle.std.specs.Prelude.{length, true, false, vec_len, vec_capacity};
ghost use Rattle.am_record.specs.Limits.{last_run};
ghost use Rattle.am_record.specs.declared.step.Step.{Step};
ghost use Rattle.am_record.specs.declared.step.Reply.{Reply};
ghost use Rattle.am_record.specs.declared.step.Reply.TheVariants.{Refused};
ghost use Rattle.am_record.specs.declared.step.Refusal.TheVariants.{NoMemory as OutOfMemory, SeatFull};
ghost use Rattle.am_law_serial.specs.Trace.{Trace};
ghost use Rattle.am_store.specs.StoreSteps.{IsSoundAt};
ghost use Rattle.am_law_sound.specs.Right.{IsSoundStore};
ghost use Rattle.am_latch_engine.specs.Changes.{active_in_trace, numbers_active, end_of, is_refused, is_stored};
ghost use Rattle.am_latch_engine.specs.Changes.{MayFollow, IsBoundedReply};
ghost use Rattle.am_latch_engine.specs.Copies.{IsCopyOf};
ghost use Rattle.am_latch_ties.specs.CallLogs.{empty_log};
ghost use Rattle.am_latch_engine.specs.Traces.{EngineState, log_of, StoresCall, stored_at, HandsOn, IsNextOf};
ghost use Rattle.am_latch_engine.specs.Traces.{ends_after};
ghost use Rattle.am_latch_engine.specs.Sizes.{AreFiguresAt};
ghost use Rattle.am_latch_engine.specs.Wants.{MayWantMemory, pairs_needed};

use crate::change::{
    Change, Outcome, Stored, change_by, starts_tx, tx_to_end, was_refused, was_stored,
};
use crate::hand_outs::Handed;
use crate::room::{StepCopy, copy_reply};
use crate::step::take_step;
use am_index::Figures;
use am_index_btree::BTree;
use am_latch_ties::CallId;
use am_record::{HashKey, NoMemory, Refusal, Reply, Step};
use am_store::Store;
use std::alloc::Global;
use std::marker::Model;
use std::mem;

/// For so many pairs there is room at once, where pairs were handed out before.
const PAIRS_AT_WORK: usize = 4096;

/// Calls that stand in the trace side by side, in their order, and whose they are.
#[derive(Drop)]
pub struct Piece {
    /// How many calls stand in the trace before these.
    pub first: u64,
    pub trace: Vec<(Step, Reply)>,
    pub calls: Vec<CallId>,
    /// How large the store is after them.
    pub figures: Figures,
}

/// A store and its stored trace, with room in it for the end of each active transaction. The trace begins with what was
/// handed out, and what is kept follows.
pub struct Engine {
    store: Store<BTree>,
    handed: Handed,
    /// How many pairs were handed out.
    count: u64,
    trace: Vec<(Step, Reply)>,
    calls: Vec<CallId>,
    /// For how many ends room is kept.
    ends: usize,
    alloc: Global,
}

// By hand: a crate above then need not prove once more how each part of an engine is dropped.
impl Drop for Engine {
    fn drop(self) {
        let Engine {
            store,
            handed,
            count: _,
            trace,
            calls,
            ends: _,
            alloc: _,
        } = self;
        drop((store, handed, trace, calls));
    }
}

impl Model for Engine {
    ghost use Rattle.std.specs.Prelude.{◌++◌};
    ghost use Rattle.am_latch_engine.specs.Traces.{engine_code, EngineState};
    ghost use Rattle.am_latch_engine.specs.EngineFields.{IsEngine, room_left};

    ghost Value = { EngineState };

    ghost coded = { engine_code };

    ghost view = { λ e. record {
      most_runs = e.store.most_runs;
      trace = e.handed.trace ++ e.trace.items;
      calls = e.handed.calls ++ e.calls.items;
      handed = e.handed;
      room = room_left e;
    } };

    ghost invariant = { IsEngine };
}

impl Engine {
    /// An engine over an empty store that makes so many runs at most, 4,294,967,294 or fewer, with an empty trace.
    ///
    /// # Errors
    /// NoMemory, where memory was refused for the store.
    pub fn open(alloc: Global, hash: HashKey, most_runs: u32) -> Result<Engine, NoMemory>
        requires few { most_runs ≤ last_run }
        ensures most { IfOk result (λ e. e.most_runs ≡ most_runs) }
        ensures empty { IfOk result (λ e. log_of e ≡ empty_log) }
        ensures handed { IfOk result (λ e. e.handed ≡ empty_log) }
    {
        am_law_sound::steps_lift();
        let store = Store::open_for(alloc, BTree::new(alloc)?, hash, most_runs)?;
        Ok(Engine {
            store,
            handed: Handed::new(alloc)?,
            count: 0,
            trace: Vec::new(alloc),
            calls: Vec::new(alloc),
            ends: 0,
            alloc,
        })
    }

    /// Takes a step and stores it, with its reply and its call; or answers NoMemory, and nothing
    /// changes. That it does only where there is no room for the pair, or where the store may want
    /// memory for the step. The end of an active transaction is never refused: its room is kept from
    /// its begin on.
    #[inline(never)]
    pub fn step(&mut self, call_id: CallId, step: Step) -> Reply
        ensures stepped { StoresCall (log_of self.old) call_id step result (log_of self.new) }
        ensures handed { self.new.handed ≡ self.old.handed }
        ensures most { self.new.most_runs ≡ self.old.most_runs }
        ensures memory { result ≡ Refused OutOfMemory → MayWantMemory self.old step }
        ensures room { self.old.room ≤ self.new.room + pairs_needed step }
        ensures never_full { result ≢ Refused SeatFull }
        ensures answers { MayFollow (active_in_trace self.old.trace) step result }
        ensures bounded { IsBoundedReply step result }
    {
        let Some(copy) = StepCopy::of(self.alloc, &step) else {
            return Reply::Refused(Refusal::NoMemory);
        };
        self.step_with(call_id, step, copy).reply
    }

    /// Does the same with a copy of the step that was made before, so that it can be made without the latch.
    #[inline(never)]
    pub fn step_with(&mut self, call_id: CallId, step: Step, copy: StepCopy) -> Outcome
        requires { IsCopyOf step copy }
        ensures stepped { StoresCall (log_of self.old) call_id step result.reply (log_of self.new) }
        ensures stored { result.stored ≡ stored_at (length self.old.trace) step result.reply }
        ensures handed { self.new.handed ≡ self.old.handed }
        ensures most { self.new.most_runs ≡ self.old.most_runs }
        ensures memory { result.reply ≡ Refused OutOfMemory → MayWantMemory self.old step }
        ensures room { self.old.room ≤ self.new.room + pairs_needed step }
        ensures never_full { result.reply ≢ Refused SeatFull }
        ensures answers { MayFollow (active_in_trace self.old.trace) step result.reply }
        ensures bounded { IsBoundedReply step result.reply }
        ensures kept { is_stored result.reply ≡ true → length self.new.handed.trace < length self.new.trace }
    {
        let position = self.len();
        let more = pairs_for(&step);
        let has_room = get_room(
            &mut self.trace,
            &mut self.calls,
            self.count,
            self.ends,
            more,
        );
        if !may_go_on(has_room, &step) {
            return Outcome {
                reply: Reply::Refused(Refusal::NoMemory),
                stored: None,
            };
        }
        let StepCopy { step: copy, rows } = copy;
        let reply = take_step(&mut self.store, step);
        if !is_kept(has_room, &reply) {
            return Outcome {
                reply: Reply::Refused(Refusal::NoMemory),
                stored: None,
            };
        }
        let change = change_by(&copy, &reply);
        self.ends = count_ends(self.ends, change);
        self.trace
            .push_reserved((copy, copy_reply(self.alloc, &reply, rows)));
        self.calls.push_reserved(call_id);
        Outcome {
            reply,
            stored: Some(Stored { change, position }),
        }
    }

    /// Hands out all stored calls that are kept, which are the oldest that weren't handed out before. The trace is what
    /// it was, and the room for the ends of active transactions is kept.
    ///
    /// # Errors
    /// NoMemory, where memory was refused for that room. Nothing is handed out then.
    pub fn hand_out(&mut self) -> Result<Piece, NoMemory>
        ensures handed { IfOk result (λ p. HandsOn self.old
            record { trace = p.trace.items; calls = p.calls.items } self.new) }
        ensures next { IfOk result (λ p. IsNextOf self.old p.first
            record { trace = p.trace.items; calls = p.calls.items }) }
        ensures all { IfOk result (λ _. self.new.handed ≡ log_of self.new) }
        ensures figures { IfOk result (λ p. AreFiguresAt self.new.trace p.figures) }
        ensures same { OnErr result (self.new ≡ self.old) }
    {
        let first = self.count;
        let figures = self.store.figures();
        let Some((trace, calls)) = rooms_for(self.alloc, self.ends, self.trace.len()) else {
            return Err(NoMemory);
        };
        self.handed
            .add(self.trace.as_slice(), self.calls.as_slice());
        self.count += self.trace.len() as u64;
        let trace = mem::replace(&mut self.trace, trace);
        let calls = mem::replace(&mut self.calls, calls);
        Ok(Piece {
            first,
            trace,
            calls,
            figures,
        })
    }

    /// How many calls are stored, those that were handed out among them.
    pub fn len(&self) -> u64
        ensures { result ≡ length self.now.trace }
    {
        self.count + self.trace.len() as u64
    }

    /// The stored calls that are kept: each step with its reply. After those that were handed out they are the trace,
    /// which is sound.
    pub fn kept(&self) -> &[(Step, Reply)]
        ensures trace { self.now.trace ≡ self.now.handed.trace ++ result.now }
        ensures sound { IsSoundStore self.now.most_runs self.now.trace }
    {
        self.trace.as_slice()
    }

    /// The pair that was stored last, where it is kept.
    pub fn newest(&self) -> &(Step, Reply)
        requires { length self.now.handed.trace < length self.now.trace }
        ensures { (before : Trace) (pair : Step × Reply) → self.now.trace ≡ before ++ pair ∷ [] → result.now ≡ pair }
    {
        &self.trace[self.trace.len() - 1]
    }

    /// Whose call each kept pair is.
    pub fn kept_calls(&self) -> &[CallId]
        ensures calls { self.now.calls ≡ self.now.handed.calls ++ result.now }
        ensures each { length self.now.calls ≡ length self.now.trace }
    {
        self.calls.as_slice()
    }

    /// The store, which is where the stored trace leaves it.
    pub fn store(&self) -> &Store<BTree>
        ensures { IsSoundAt self.now.trace result.now }
    {
        &self.store
    }
}

impl Engine {
    /// What is kept of the trace, and the store that the whole trace leaves.
    pub fn into_parts(self) -> (Vec<(Step, Reply)>, Store<BTree>)
        ensures trace { self.handed.trace ++ result.0.items ≡ self.trace }
        ensures stands { IsSoundAt self.trace result.1 }
        ensures most { result.1.most_runs ≡ self.most_runs }
        ensures active { numbers_active result.1 ≡ active_in_trace self.trace }
        ensures even { length self.calls ≡ length self.trace }
    {
        let Engine {
            store,
            handed,
            count: _,
            trace,
            calls,
            ends: _,
            alloc: _,
        } = self;
        drop((handed, calls));
        (trace, store)
    }
}

// How many pairs need room: a Begin's end needs it too.
fn pairs_for(step: &Step) -> usize
    ensures { result ≡ pairs_needed step.now }
{
    if starts_tx(step) { 2 } else { 1 }
}

// The end of an active transaction has its room.
fn may_go_on(has_room: bool, step: &Step) -> bool
    ensures yes { result ≡ true → has_room ≡ false → IsSome (end_of step.now) }
    ensures no { result ≡ false → end_of step.now ≡ None }
    ensures short { result ≡ false → has_room ≡ false }
{
    has_room || tx_to_end(step).is_some()
}

// Whether the store took a step for which there is room.
fn is_kept(has_room: bool, reply: &Reply) -> bool
    ensures stored { result ≡ true → is_stored reply.now ≡ true }
    ensures real { result ≡ true → has_room ≡ false → is_refused reply.now ≡ false }
    ensures no { result ≡ false → is_refused reply.now ≡ true }
    ensures lost { result ≡ false → has_room ≡ true → is_stored reply.now ≡ false }
{
    if was_refused(reply) {
        has_room && was_stored(reply)
    } else {
        true
    }
}

// Room for the pairs of so many ends, and after a piece that had some for as many as may come until the next piece:
// so a busy engine's lists are got and let go by whoever takes the pieces, and seldom grow under a latch.
fn rooms_for(alloc: Global, ends: usize, handed: usize) -> Option<(Vec<(Step, Reply)>, Vec<CallId>)>
    ensures room { IfSome result (λ r. (ends ≤ vec_capacity r.0) × (ends ≤ vec_capacity r.1)) }
    ensures empty { IfSome result (λ r. (r.0.items ≡ []) × (r.1.items ≡ [])) }
{
    let pairs = if handed == 0 {
        ends
    } else {
        ends.max(PAIRS_AT_WORK)
    };
    let Ok(trace) = Vec::with_capacity(alloc, pairs) else {
        return None;
    };
    let Ok(calls) = Vec::with_capacity(alloc, pairs) else {
        return None;
    };
    Some((trace, calls))
}

// Room for so many more than the ends that it is kept for, and positions.
fn get_room(
    trace: &mut Vec<(Step, Reply)>,
    calls: &mut Vec<CallId>,
    count: u64,
    ends: usize,
    more: usize,
) -> bool
    ensures same { (trace.new.items ≡ trace.old.items) × (calls.new.items ≡ calls.old.items) }
    ensures long { (vec_len trace.new ≡ vec_len trace.old) × (vec_len calls.new ≡ vec_len calls.old) }
    ensures kept { (vec_capacity trace.old ≤ vec_capacity trace.new) ×
        (vec_capacity calls.old ≤ vec_capacity calls.new) }
    ensures got { result ≡ true → (ends + more < 2 ^ 64) ×
        (vec_len trace.new + (ends + more) ≤ vec_capacity trace.new) ×
        (vec_len calls.new + (ends + more) ≤ vec_capacity calls.new) }
    ensures numbers { result ≡ true → count + vec_len trace.new + (ends + more) < 2 ^ 64 }
    ensures there { vec_len trace.old + (ends + more) ≤ vec_capacity trace.old →
        vec_len calls.old + (ends + more) ≤ vec_capacity calls.old →
        count + vec_len trace.old + (ends + more) < 2 ^ 64 → result ≡ true }
{
    let Some(wanted) = ends.checked_add(more) else {
        return false;
    };
    let Some(stored) = count.checked_add(trace.len() as u64) else {
        return false;
    };
    if stored.checked_add(wanted as u64).is_none() {
        return false;
    }
    trace.reserve(wanted).is_ok() && calls.reserve(wanted).is_ok()
}

// For how many ends room is kept after that.
fn count_ends(ends: usize, change: Change) -> usize
    requires { (t : ℕ) → change ≡ Change.Begins t → ends + 1 < 2 ^ 64 }
    ensures { result ≡ ends_after ends change }
{
    match change {
        Change::Begins(_) => ends + 1,
        Change::Ends(_) => ends.saturating_sub(1),
        Change::Nothing => ends,
    }
}
