//! What ties receipts to the trace: a table of one word, which never changes, under a rule over the views of tokens.

use crate::call_id::CallId;
use crate::receipt::Receipt;
use am_record::{Reply, Step};
use atomic_table::{Join, Play, Seat, Split, Table, TableRule};
use std::alloc::Global;
use std::collections::LinkedList;
use std::marker::{Brand, Model, PhantomData};

/// A seat and its receipts.
pub struct SeatView {
    pub seat: u64,
    pub receipts: LinkedList<Receipt>,
}

/// The trace, and the call of each of its pairs. Contracts see it as the log that it is.
pub struct LogView {
    pub trace: LinkedList<(Step, Reply)>,
    pub calls: LinkedList<CallId>,
}

impl Model for LogView {
    ghost use Rattle.am_latch_ties.specs.CallLogs.{call_log_code, CallLog};

    ghost Value = { CallLog };

    ghost coded = { call_log_code };

    ghost view = { λ l. record { trace = l.trace; calls = l.calls } };
}

/// What a token knows. No value of it is made.
pub enum View {
    /// Nothing: what it knew went to another's.
    Nothing,
    /// How many seats were minted, while they are.
    Minting(u64),
    Log(LogView),
    Receipts(SeatView),
    /// Both, while the seat makes a call.
    Joint(SeatView, LogView),
}

pub struct AgreeingViews;

impl TableRule<u8, View, ()> for AgreeingViews {
    ghost use Rattle.am_latch_ties.specs.Views.{ViewsAgree};
    ghost use Rattle.am_latch_ties.specs.declared.views.View.TheVariants.{Minting};

    ghost holds = { λ _. ViewsAgree };

    ghost first = { λ _. Minting 0 };
}

pub type ViewTable = Table<u8, View, (), AgreeingViews, Global>;

pub type Token = Seat<u8, View>;

/// The pair that is appended, and its call.
pub trait Event {
    ghost use Rattle.am_latch_ties.specs.declared.call_id.CallId.{CallId};
    ghost use Rattle.am_record.specs.declared.step.Step.{Step};
    ghost use Rattle.am_record.specs.declared.step.Reply.{Reply};

    ghost step: { Step };

    ghost reply: { Reply };

    ghost call_id: { CallId };
}

impl Event for Brand {
    ghost use Rattle.am_record.specs.declared.step.Step.TheVariants.{Begin};
    ghost use Rattle.am_record.specs.declared.step.Reply.TheVariants.{Done};

    ghost step = { Begin };

    ghost reply = { Done };

    ghost call_id = { record { seat = 0; call = 0 } };
}

pub struct AppendCall<E> {
    of: PhantomData<E>,
}

impl<E: Event> Play<u8, View> for AppendCall<E> {
    ghost use Rattle.am_latch_ties.specs.Views.{AppendsCall};

    ghost then = { AppendsCall E.step E.reply E.call_id };
}

pub struct CompareReceipts;

impl Play<u8, View> for CompareReceipts {
    ghost use Rattle.am_latch_ties.specs.Views.{ReceiptsAgree};

    ghost then = { ReceiptsAgree };
}

/// The view of the trace is taken into a seat's.
pub struct JoinViews;

impl Join<View> for JoinViews {
    ghost use Rattle.am_latch_ties.specs.Views.{join_views};
    ghost use Rattle.am_latch_ties.specs.declared.views.View.TheVariants.{Nothing};

    ghost both = { join_views };

    ghost spent = { Nothing };
}

/// And cut off again.
pub struct SplitViews;

impl Split<View> for SplitViews {
    ghost use Rattle.am_latch_ties.specs.Views.{seat_part, log_part};

    ghost left = { seat_part };

    ghost right = { log_part };
}

/// A new seat.
pub struct MintSeat;

impl Split<View> for MintSeat {
    ghost use Rattle.am_latch_ties.specs.Views.{one_more_minted, minted_seat};

    ghost left = { one_more_minted };

    ghost right = { minted_seat };
}

/// All seats are minted.
pub struct EndMinting;

impl Play<u8, View> for EndMinting {
    ghost use Rattle.am_latch_ties.specs.Views.{EndsMinting};

    ghost then = { EndsMinting };
}
