//! A seat, which keeps a receipt for each of its calls.
ghost use Rattle.std.specs.Prelude.{◌≡◌, ◌≢◌, ◌↔◌, ◌⊎◌, ◌<◌, ◌≤◌, ◌+◌, [], length, IsSome, Some, None, true, false};
ghost use Rattle.std.specs.Prelude.{vec_len, vec_capacity, IfSome, IfNone};
ghost use Rattle.am_record.specs.Sessions.{IsAllowed};
ghost use Rattle.am_record.specs.declared.step.Reply.TheVariants.{Refused};
ghost use Rattle.am_record.specs.declared.step.Refusal.TheVariants.{NoMemory, SeatFull};
ghost use Rattle.am_latch_engine.specs.Changes.{end_of, is_stored, open_after, IsBoundedReply};
ghost use Rattle.am_latch_engine.specs.Copies.{IsCopyOf};
ghost use Rattle.am_latch_engine.specs.Wants.{takes_lists};
ghost use Rattle.am_latch_ties.specs.Receipts.{receipts_of};
ghost use Rattle.am_latch.specs.Receipts.{SeatState, new_seat, HasReceiptOf, moved_in, last_commit_of};
ghost use Rattle.am_latch.specs.Receipts.{receipts_held, positions_of, AreBehind};
ghost use Rattle.am_latch.specs.Holds.{IsCalledOn};
ghost use Rattle.am_latch.specs.Ties.{open_of, EndsTx, receipts_needed, receipt_room};
ghost use Rattle.am_latch.specs.Wants.{CallMayWant};
ghost use Rattle.am_latch_ties.specs.declared.views.View.TheVariants.{Receipts};
ghost use Rattle.am_latch_ties.specs.Views.{new_seat_view, log_in, IsLogView};

use crate::latch::Latch;
use crate::latch_name::LatchName;
use crate::locked::Locked;
use crate::receipt::{CommitReceipt, commit_by, moved_by};
use am_latch_engine::{Change, StepCopy, tx_to_end};
use am_latch_ties::{CallId, Token, ViewTable, compare_receipts};
use am_record::{Refusal, Reply, Step};
use std::alloc::Global;
use std::marker::{Model, PhantomData};
use std::sync::Wait;

const MOST_RECEIPTS: usize = 1_000_000;

/// For so many receipts room is got at a time.
const PLACES_AT_ONCE: usize = 64;

/// So many receipts let go are the most after which more are.
const MOST_LET_GO: u64 = 100_000_000_000_000;

/// Makes calls through a latch, and has their receipts: it keeps the position of each in the trace, until it is let go.
pub struct Seat<L: LatchName> {
    number: u64,
    /// Where the calls stand in the trace whose receipts weren't let go.
    positions: Vec<u64>,
    /// How many receipts were let go.
    let_go: u64,
    open_now: Option<u64>,
    last_commit: Option<u64>,
    /// How many entries the receipts say were moved.
    moved: u64,
    token: Token,
    alloc: Global,
    of: PhantomData<L>,
}

// By hand: a crate above then need not prove once more how a seat is dropped.
impl<L: LatchName> Drop for Seat<L> {
    fn drop(self) {
        let Seat {
            number: _,
            positions,
            let_go: _,
            open_now: _,
            last_commit: _,
            moved: _,
            token,
            alloc: _,
            of: _,
        } = self;
        drop(positions);
        drop(token);
    }
}

impl<L: LatchName> Model for Seat<L> {
    ghost use Rattle.am_latch.specs.Fields.{IsSeat};
    ghost use Rattle.am_latch.specs.Receipts.{seat_state_code, SeatState, seat_state};
    ghost use Rattle.am_latch_ties.specs.Views.{seat_in};

    ghost Value = { SeatState };

    ghost coded = { seat_state_code };

    ghost view = { λ s. seat_state s.number (seat_in s.token.me.0).receipts s.let_go };

    ghost invariant = { IsSeat L.table.calls L.seats };
}

impl<L: LatchName> Seat<L> {
    pub(crate) fn new(alloc: Global, number: u64, token: Token) -> Seat<L>
        requires { (token.table_id ≡ L.table.calls) × (token.me ≡ (Receipts (new_seat_view number), [])) ×
            (number < L.seats) }
        ensures { result ≡ new_seat number }
    {
        Seat {
            number,
            positions: Vec::new(alloc),
            let_go: 0,
            open_now: None,
            last_commit: None,
            moved: 0,
            token,
            alloc,
            of: PhantomData,
        }
    }

    /// The seats of a latch are numbered from 0.
    pub fn number(&self) -> u64
        ensures { result ≡ self.now.number }
    {
        self.number
    }

    /// Where this seat's stored calls stand in the trace, in their order, but for those whose receipts were let go.
    pub fn positions(&self) -> &[u64]
        ensures { AreBehind self.now.let_go (positions_of self.now.receipts) result.now }
    {
        self.positions.as_slice()
    }

    /// How many receipts were let go. The calls of the others are numbered from there.
    pub fn count_let_go(&self) -> u64
        ensures { result ≡ self.now.let_go }
    {
        self.let_go
    }

    /// Lets all receipts go that are held: contracts know of them as before, and their memory serves the next ones.
    /// Past 10^14 of them nothing happens.
    pub fn let_go(&mut self)
        ensures same { (self.new.number ≡ self.old.number) × (self.new.receipts ≡ self.old.receipts) }
        ensures gone { self.old.let_go ≤ 100000000000000 → self.new.let_go ≡ length self.old.receipts }
        ensures kept { 100000000000000 < self.old.let_go → self.new ≡ self.old }
    {
        if self.let_go > MOST_LET_GO {
            return;
        }
        self.let_go += self.positions.len() as u64;
        self.positions.clear();
    }

    /// The transaction that this seat has begun and not ended.
    pub fn open_tx(&self) -> Option<u64>
        ensures { result ≡ open_of self.now.receipts }
    {
        self.open_now
    }

    /// The commit that this seat's last call made, if it was one.
    pub fn last_commit(&self) -> Option<CommitReceipt>
        ensures { result ≡ last_commit_of self.now.receipts }
    {
        let commit = self.last_commit?;
        Some(CommitReceipt { commit })
    }

    /// How many entries the receipts say were moved.
    pub fn moved(&self) -> u64
        ensures moved { result ≡ moved_in self.now.receipts }
        ensures few { result ≤ 9007199254740992 }
    {
        self.moved
    }

    /// Takes a step under the latch, and keeps its receipt. Begin only where no transaction is open in the seat;
    /// Do, Commit and Abort only with the number of the one that is.
    ///
    /// The reply is SeatFull where the seat holds 1,000,000 receipts or more and the step is no Commit or Abort,
    /// and NoMemory where memory was refused: then the seat is unchanged, and nothing was stored. A Commit or Abort
    /// gets neither: its room is kept from the Begin on. NoMemory comes only where the call may want memory: for a load
    /// or a scan, for a receipt, of which 64 get their room at a time, or where the engine may want it for the step.
    #[inline(never)]
    pub fn call<R: Wait>(&mut self, rt: &R, latch: &Latch<L>, step: Step) -> Reply
        requires { IsAllowed (open_of self.old.receipts) step }
        ensures called { HasReceiptOf self.old step result self.new }
        ensures full { (result ≡ Refused SeatFull) ↔ ((1000000 ≤ receipts_held self.old) × (end_of step ≡ None)) }
        ensures memory { result ≡ Refused NoMemory → CallMayWant L.seats L.most_runs self.old step }
        ensures ended { EndsTx step result }
        ensures neither { IsSome (end_of step) → is_stored result ≡ true }
        ensures bounded { IsBoundedReply step result }
    {
        let mut held = None;
        self.call_on(rt, latch, &mut held, step)
    }

    /// Takes a step as `call` does, and goes on having the latch: where it is held it isn't taken anew. Steps that are
    /// taken so stand in the trace one right after another, and everybody waits until the latch is let go.
    pub fn call_on<'a, R: Wait>(
        &mut self,
        rt: &R,
        latch: &'a Latch<L>,
        held: &mut Option<Locked<'a, L>>,
        step: Step,
    ) -> Reply
        requires { IsAllowed (open_of self.old.receipts) step }
        ensures called { HasReceiptOf self.old step result self.new }
        ensures there { IsCalledOn held.old self.old step result held.new self.new }
        ensures full { (result ≡ Refused SeatFull) ↔ ((1000000 ≤ receipts_held self.old) × (end_of step ≡ None)) }
        ensures memory { result ≡ Refused NoMemory → CallMayWant L.seats L.most_runs self.old step }
        ensures ended { EndsTx step result }
        ensures neither { IsSome (end_of step) → is_stored result ≡ true }
        ensures bounded { IsBoundedReply step result }
    {
        if self.positions.len() >= MOST_RECEIPTS && tx_to_end(&step).is_none() {
            return Reply::Refused(Refusal::SeatFull);
        }
        self.make_call(rt, latch, held, step)
    }

    // Takes a step. What needs no latch comes before it.
    fn make_call<'a, R: Wait>(
        &mut self,
        rt: &R,
        latch: &'a Latch<L>,
        held: &mut Option<Locked<'a, L>>,
        step: Step,
    ) -> Reply
        requires may { IsAllowed (open_of self.old.receipts) step }
        requires room { end_of step ≡ None → receipts_held self.old < 1000000 }
        ensures called { HasReceiptOf self.old step result self.new }
        ensures there { IsCalledOn held.old self.old step result held.new self.new }
        ensures never_full { result ≢ Refused SeatFull }
        ensures memory { result ≡ Refused NoMemory → CallMayWant L.seats L.most_runs self.old step }
        ensures ended { EndsTx step result }
        ensures bounded { IsBoundedReply step result }
    {
        let Some(copy) = prepare(self.alloc, &mut self.positions, self.open_now, &step) else {
            return Reply::Refused(Refusal::NoMemory);
        };
        let call_id = CallId {
            seat: self.number,
            call: self.let_go + self.positions.len() as u64,
        };
        let mut locked = match held.take() {
            Some(locked) => locked,
            None => latch.take(rt),
        };
        let table = locked.table;
        let outcome = locked
            .state
            .call(table, &mut self.token, call_id, step, copy);
        *held = Some(locked);
        let Some(stored) = outcome.stored else {
            return outcome.reply;
        };
        self.open_now = open_after(self.open_now, stored.change);
        self.last_commit = commit_by(&outcome.reply);
        self.moved += moved_by(&outcome.reply);
        self.positions.push_reserved(stored.position);
        outcome.reply
    }

    /// The receipts are just those of this seat's calls in the trace.
    pub(crate) fn audit(&mut self, table: &ViewTable, trace_token: Token) -> Token
        requires table { (table.now.shared.table_id ≡ L.table.calls) × (0 < table.now.shared.table_id.words) }
        requires trace_token { (trace_token.table_id ≡ L.table.calls) × IsLogView trace_token.me.0 ×
            (trace_token.me.1 ≡ []) }
        ensures same { (self.new ≡ self.old) × (result.table_id ≡ trace_token.table_id) × (result.me ≡ trace_token.me) }
        ensures known { self.old.receipts ≡ receipts_of self.old.number (log_in trace_token.me.0) }
    {
        compare_receipts(table, &mut self.token, trace_token)
    }
}

// The room for the receipt, and the copy for the trace.
fn prepare(
    alloc: Global,
    positions: &mut Vec<u64>,
    open_now: Option<u64>,
    step: &Step,
) -> Option<StepCopy>
    requires { vec_len positions.old ≤ 1000001 }
    ensures same { positions.new.items ≡ positions.old.items }
    ensures long { vec_len positions.new ≡ vec_len positions.old }
    ensures kept { vec_capacity positions.old ≤ vec_capacity positions.new }
    ensures got { IfSome result (λ _. receipt_room (vec_len positions.new + receipts_needed open_now step.now) ≤
        vec_capacity positions.new) }
    ensures copies { IfSome result (IsCopyOf step.now) }
    ensures ends { receipt_room (vec_len positions.old + receipts_needed open_now step.now) ≤
        vec_capacity positions.old → IsSome (end_of step.now) → IsSome result }
    ensures none { IfNone result ((takes_lists step.now ≡ true) ⊎
        (vec_capacity positions.old < receipt_room (vec_len positions.old + receipts_needed open_now step.now))) }
{
    if !get_places(positions, places_for(open_now, step)) {
        return None;
    }
    StepCopy::of(alloc, step)
}

// Room for so many receipts more, and for as many as get it at once.
fn get_places(positions: &mut Vec<u64>, receipts_needed: usize) -> bool
    requires { vec_len positions.old + receipts_needed ≤ 1000003 }
    ensures same { positions.new.items ≡ positions.old.items }
    ensures long { vec_len positions.new ≡ vec_len positions.old }
    ensures kept { vec_capacity positions.old ≤ vec_capacity positions.new }
    ensures got { result ≡ true → receipt_room (vec_len positions.new + receipts_needed) ≤ vec_capacity positions.new }
    ensures there { receipt_room (vec_len positions.old + receipts_needed) ≤ vec_capacity positions.old →
        result ≡ true }
    ensures none { result ≡ false →
        vec_capacity positions.old < receipt_room (vec_len positions.old + receipts_needed) }
{
    let wanted = (positions.len() + receipts_needed).next_multiple_of(PLACES_AT_ONCE);
    positions.reserve(wanted - positions.len()).is_ok()
}

// How many receipts need room: that of the end of an open transaction too.
fn places_for(before: Option<u64>, step: &Step) -> usize
    ensures { result ≡ receipts_needed before step.now }
{
    match step {
        Step::Begin => 2,
        Step::Commit(_) | Step::Abort(_) => 1,
        Step::Do(_, _) | Step::Merge(_) | Step::Clean(_, _) => {
            if before.is_some() { 2 } else { 1 }
        }
    }
}

// The open transaction after that.
fn open_after(before: Option<u64>, change: Change) -> Option<u64>
    ensures { result ≡ open_after before change }
{
    match change {
        Change::Begins(t) => Some(t),
        Change::Ends(_) => None,
        Change::Nothing => before,
    }
}
