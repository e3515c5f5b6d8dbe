//! What lies under the latch: the engine, with the token that knows its trace.
ghost use Rattle.std.specs.Prelude.{◌≡◌, ◌≢◌, ◌<◌, [], ◌++◌, length, IfOk, OnErr, MatchBool};
ghost use Rattle.am_record.specs.Sessions.{IsAllowed};
ghost use Rattle.am_record.specs.declared.step.Reply.TheVariants.{Refused};
ghost use Rattle.am_record.specs.declared.step.Refusal.TheVariants.{NoMemory as OutOfMemory, SeatFull};
ghost use Rattle.am_law_sound.specs.Right.{IsSoundStore};
ghost use Rattle.am_latch_engine.specs.Changes.{is_stored, IsBoundedReply};
ghost use Rattle.am_latch_engine.specs.Copies.{IsCopyOf};
ghost use Rattle.am_latch_ties.specs.CallLogs.{empty_log};
ghost use Rattle.am_latch_engine.specs.Traces.{EngineState, log_of, StoresCall, stored_at, IsNextOf};
ghost use Rattle.am_latch_ties.specs.Receipts.{receipts_of};
ghost use Rattle.am_latch_engine.specs.Sizes.{AreFiguresAt};
ghost use Rattle.am_latch_engine.specs.Wants.{MayWantMemory};
ghost use Rattle.am_latch.specs.Ties.{open_of, EndsTx, IsEngineOf};
ghost use Rattle.am_latch_ties.specs.declared.taker_tie.TakenView.TheVariants.{Handed};
ghost use Rattle.am_latch_ties.specs.declared.views.View.TheVariants.{Log, Receipts};
ghost use Rattle.am_latch_ties.specs.Views.{seat_in, seat_with, IsSeatView};

use crate::latch_name::LatchName;
use crate::seat::Seat;
use crate::taker::Taker;
use am_latch_engine::{Engine, Outcome, Piece, StepCopy};
use am_latch_ties::{
    CallId, TakenTable, TakenToken, TakenView, Token, View, ViewTable, append_call,
    compare_receipts, hand_over,
};
use am_record::{NoMemory, Reply, Step};
use atomic_table::Badge;
use std::marker::{Model, PhantomData};
use std::mem;

/// An engine, the token that knows its trace, and the one that knows what was handed out of it.
#[derive(Drop)]
pub(crate) struct LatchState<L: LatchName> {
    pub(crate) engine: Engine,
    pub(crate) trace_token: Badge<View>,
    pub(crate) handed_token: Badge<TakenView>,
    pub(crate) of: PhantomData<L>,
}

impl<L: LatchName> Model for LatchState<L> {
    ghost use Rattle.am_latch_engine.specs.Traces.{engine_code, EngineState};
    ghost use Rattle.am_latch.specs.Fields.{IsLatchState};

    ghost Value = { EngineState };

    ghost coded = { engine_code };

    ghost view = { λ h. h.engine };

    ghost invariant = { IsLatchState L.table L.seats L.most_runs };
}

impl<L: LatchName> LatchState<L> {
    pub(crate) fn new(engine: Engine, trace_token: Token, handed_token: TakenToken) -> LatchState<L>
        requires most { engine.most_runs ≡ L.most_runs }
        requires engine { (log_of engine ≡ empty_log) × (engine.handed ≡ empty_log) }
        requires trace_token { (trace_token.table_id ≡ L.table.calls) × (trace_token.me ≡ (Log empty_log, [])) }
        requires handed_token { (handed_token.table_id ≡ L.table.handed) × (handed_token.me ≡ (Handed [], [])) }
        ensures { log_of result ≡ empty_log }
    {
        LatchState {
            engine,
            trace_token: trace_token.into_badge(),
            handed_token: handed_token.into_badge(),
            of: PhantomData,
        }
    }

    /// Hands out what the engine keeps. The taker's token knows of it, too.
    pub(crate) fn hand_out(
        &mut self,
        table: &TakenTable,
        taker: &mut Taker<L>,
    ) -> Result<Piece, NoMemory>
        requires { (table.now.shared.table_id ≡ L.table.handed) × (0 < table.now.shared.table_id.words) }
        ensures same { log_of self.new ≡ log_of self.old }
        ensures taken { IfOk result (λ p. taker.new ≡ taker.old ++ p.trace.items) }
        ensures next { IfOk result (λ p. (engine : EngineState) × IsEngineOf L.seats engine ×
            IsSoundStore L.most_runs engine.trace × (engine.handed.trace ≡ taker.old) ×
            IsNextOf engine p.first record { trace = p.trace.items; calls = p.calls.items }) }
        ensures figures { IfOk result (λ p. AreFiguresAt taker.new p.figures) }
        ensures none { OnErr result (taker.new ≡ taker.old) }
    {
        let _kept = self.engine.kept();
        let piece = self.engine.hand_out()?;
        let handed_token = mem::replace(&mut self.handed_token, Badge::blank()).into_seat();
        self.handed_token = hand_over(
            table,
            &mut taker.token,
            handed_token,
            piece.trace.as_slice(),
        )
        .into_badge();
        Ok(piece)
    }

    /// The seat has just the receipts of its calls in the trace.
    pub(crate) fn audit(&mut self, table: &ViewTable, seat: &mut Seat<L>)
        requires { (table.now.shared.table_id ≡ L.table.calls) × (0 < table.now.shared.table_id.words) }
        ensures same { (self.new ≡ self.old) × (seat.new ≡ seat.old) }
        ensures known { seat.old.receipts ≡ receipts_of seat.old.number (log_of self.old) }
    {
        let trace_token = mem::replace(&mut self.trace_token, Badge::blank()).into_seat();
        self.trace_token = seat.audit(table, trace_token).into_badge();
    }

    /// Takes a step for a seat, whose token then knows of it.
    pub(crate) fn call(
        &mut self,
        table: &ViewTable,
        token: &mut Token,
        call_id: CallId,
        step: Step,
        copy: StepCopy,
    ) -> Outcome
        requires table { (table.now.shared.table_id ≡ L.table.calls) × (0 < table.now.shared.table_id.words) ×
            (token.old.table_id ≡ L.table.calls) }
        requires token { IsSeatView token.old.me.0 × (call_id.seat ≡ (seat_in token.old.me.0).seat) ×
            (call_id.seat < L.seats) }
        requires number { call_id.call ≡ length (seat_in token.old.me.0).receipts }
        requires may { IsAllowed (open_of (seat_in token.old.me.0).receipts) step }
        requires copy { IsCopyOf step copy }
        ensures stepped { StoresCall (log_of self.old) call_id step result.reply (log_of self.new) }
        ensures stored { result.stored ≡ stored_at (length self.old.trace) step result.reply }
        ensures engine { IsEngineOf L.seats self.old × IsSoundStore L.most_runs self.old.trace }
        ensures known { (seat_in token.old.me.0).receipts ≡ receipts_of call_id.seat (log_of self.old) }
        ensures memory { result.reply ≡ Refused OutOfMemory → MayWantMemory self.old step }
        ensures never_full { result.reply ≢ Refused SeatFull }
        ensures ended { EndsTx step result.reply }
        ensures bounded { IsBoundedReply step result.reply }
        ensures same { token.new.table_id ≡ token.old.table_id }
        ensures token { MatchBool (is_stored result.reply) (token.new.me ≡ (
          Receipts (seat_with (seat_in token.old.me.0) step result.reply (length self.old.trace)),
          token.old.me.1,
        )) (token.new.me ≡ token.old.me) }
    {
        let trace_token = mem::replace(&mut self.trace_token, Badge::blank()).into_seat();
        let trace_token = compare_receipts(table, token, trace_token);
        let _kept = self.engine.kept();
        let _calls = self.engine.kept_calls();
        let outcome = self.engine.step_with(call_id, step, copy);
        if outcome.stored.is_none() {
            self.trace_token = trace_token.into_badge();
            return outcome;
        }
        let (step, reply) = self.engine.newest();
        self.trace_token = append_call(
            table,
            token,
            trace_token,
            step,
            reply,
            &call_id,
        ).into_badge();
        outcome
    }
}
