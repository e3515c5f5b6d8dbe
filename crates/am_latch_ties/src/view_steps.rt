//! What is done with a seat's token and that of the trace, under the latch.
ghost use Rattle.std.specs.Prelude.{◌≡◌, ◌+◌, ◌<◌, [], length};
ghost use Rattle.am_latch_ties.specs.CallLogs.{empty_log, log_with};
ghost use Rattle.am_latch_ties.specs.declared.views.View.TheVariants.{Minting, Log, Receipts};
ghost use Rattle.am_latch_ties.specs.Views.{new_seat_view, seat_in, log_in, IsSeatView, IsLogView, IsJointView};
ghost use Rattle.am_latch_ties.specs.Views.{KnowsReceipts, seat_with, view_with_call};

use crate::call_id::CallId;
use crate::views::{
    AppendCall, CompareReceipts, EndMinting, Event, JoinViews, MintSeat, SplitViews, Token,
    ViewTable,
};
use am_record::{Reply, Step};
use std::marker::Brand;

// Appends the pair to both parts of the joined view.
fn append<E: Event>(
    table: &ViewTable,
    token: &mut Token,
    step: &Step,
    reply: &Reply,
    call_id: &CallId,
)
    requires table { (token.old.table_id ≡ table.now.shared.table_id) × (0 < table.now.shared.table_id.words) }
    requires entry { (step.now ≡ E.step) × (reply.now ≡ E.reply) × (call_id.now ≡ E.call_id) }
    requires token { IsJointView token.old.me.0 × (call_id.now.seat ≡ (seat_in token.old.me.0).seat) }
    ensures same { token.new.table_id ≡ token.old.table_id }
    ensures token { token.new.me ≡ (view_with_call step.now reply.now call_id.now token.old.me.0, token.old.me.1) }
{
    table.shared.load::<AppendCall<E>>(token, 0);
}

/// Both tokens, that of the trace and that of the seat, know of a call from then on.
pub fn append_call(
    table: &ViewTable,
    token: &mut Token,
    trace_token: Token,
    step: &Step,
    reply: &Reply,
    call_id: &CallId,
) -> Token
    requires table { (token.old.table_id ≡ table.now.shared.table_id) ×
        (trace_token.table_id ≡ table.now.shared.table_id) × (0 < table.now.shared.table_id.words) }
    requires token { IsSeatView token.old.me.0 × (call_id.now.seat ≡ (seat_in token.old.me.0).seat) }
    requires trace_token { IsLogView trace_token.me.0 × (trace_token.me.1 ≡ []) }
    ensures same { (token.new.table_id ≡ token.old.table_id) × (result.table_id ≡ token.old.table_id) }
    ensures token { token.new.me ≡ (
      Receipts (seat_with (seat_in token.old.me.0) step.now reply.now (length (log_in trace_token.me.0).trace)),
      token.old.me.1,
    ) }
    ensures trace_token { result.me ≡
        (Log (log_with (log_in trace_token.me.0) call_id.now step.now reply.now), []) }
{
    table.shared.join_seat::<JoinViews>(token, trace_token);
    append::<Brand>(table, token, step, reply, call_id);
    table.shared.split_seat::<SplitViews>(token)
}

/// The seat's token knows just the receipts of its calls in the trace.
pub fn compare_receipts(table: &ViewTable, token: &mut Token, trace_token: Token) -> Token
    requires table { (token.old.table_id ≡ table.now.shared.table_id) ×
        (trace_token.table_id ≡ table.now.shared.table_id) × (0 < table.now.shared.table_id.words) }
    requires token { IsSeatView token.old.me.0 }
    requires trace_token { IsLogView trace_token.me.0 × (trace_token.me.1 ≡ []) }
    ensures same { (token.new.table_id ≡ token.old.table_id) × (token.new.me ≡ token.old.me) ×
        (result.table_id ≡ token.old.table_id) × (result.me ≡ trace_token.me) }
    ensures known { KnowsReceipts (log_in trace_token.me.0) (seat_in token.old.me.0) }
{
    table.shared.join_seat::<JoinViews>(token, trace_token);
    table.shared.load::<CompareReceipts>(token, 0);
    table.shared.split_seat::<SplitViews>(token)
}

/// The token of the next seat.
pub fn mint_seat(table: &ViewTable, trace_token: &mut Token, number: u64) -> Token
    requires table { (trace_token.old.table_id ≡ table.now.shared.table_id) × (0 < table.now.shared.table_id.words) }
    requires trace_token { trace_token.old.me ≡ (Minting number, []) }
    ensures same { (trace_token.new.table_id ≡ trace_token.old.table_id) ×
        (result.table_id ≡ trace_token.old.table_id) }
    ensures trace_token { trace_token.new.me ≡ (Minting (number + 1), []) }
    ensures token { result.me ≡ (Receipts (new_seat_view number), []) }
{
    table.shared.split_seat::<MintSeat>(trace_token)
}

/// All seats are minted.
pub fn end_minting(table: &ViewTable, trace_token: &mut Token, number: u64)
    requires table { (trace_token.old.table_id ≡ table.now.shared.table_id) × (0 < table.now.shared.table_id.words) }
    requires trace_token { trace_token.old.me ≡ (Minting number, []) }
    ensures same { trace_token.new.table_id ≡ trace_token.old.table_id }
    ensures trace_token { trace_token.new.me ≡ (Log empty_log, []) }
{
    table.shared.load::<EndMinting>(trace_token, 0);
}
