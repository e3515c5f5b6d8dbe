//! The end of a latch.
ghost use Rattle.std.specs.Prelude.{◌≡◌, ◌<◌, ◌++◌, ◌↔◌, [], IfOk, IfErr, MatchResult, length, true};
ghost use Rattle.am_store.specs.StoreSteps.{IsSoundAt};
ghost use Rattle.am_law_sound.specs.Right.{IsSoundStore};
ghost use Rattle.am_latch.specs.Receipts.{AreReceiptsOf, AreAllSeats, NumberedBelow, HaveReceiptsIn};
ghost use Rattle.am_latch.specs.Ties.{SeatsAreTied};
ghost use Rattle.am_latch_engine.specs.Changes.{active_in_trace, numbers_active};
ghost use Rattle.am_law_serial.specs.Legal.{IsLegal};
ghost use Rattle.am_latch_ties.specs.Views.{IsLogView, log_in};

use crate::latch::Latch;
use crate::latch_name::LatchName;
use crate::seat::Seat;
use crate::state::LatchState;
use crate::taker::Taker;
use am_index_btree::BTree;
use am_latch_ties::{Token, ViewTable, hand_over};
use am_record::{Reply, Step};
use am_store::Store;

/// What a latch leaves: what it keeps of the trace of its calls, the store where the whole trace leaves it, and the
/// seats with their receipts. The trace is what was handed out and then what is kept.
#[derive(Drop)]
pub struct Closed<L: LatchName> {
    /// The stored calls that weren't handed out.
    pub trace: Vec<(Step, Reply)>,
    pub store: Store<BTree>,
    pub seats: Vec<Seat<L>>,
}

/// What was handed to [`close`], where these aren't all seats of the latch.
#[derive(Drop)]
pub struct Missing<L: LatchName> {
    pub latch: Latch<L>,
    pub seats: Vec<Seat<L>>,
    pub taker: Taker<L>,
}

// Each seat has the number of its place in the list.
fn in_order<L: LatchName>(seats: &[Seat<L>]) -> bool
    ensures { (result ≡ true) ↔ NumberedBelow seats.now (length seats.now) }
{
    for (number, seat) in seats.iter().enumerate() {
        if seat.number() != number as u64 {
            return false;
        }
    }
    true
}

// Each seat has just the receipts that stand in the trace.
fn audit_all<L: LatchName>(table: &ViewTable, trace_token: Token, seats: &mut [Seat<L>])
    requires table { (table.now.shared.table_id ≡ L.table.calls) × (0 < table.now.shared.table_id.words) }
    requires trace_token { (trace_token.table_id ≡ L.table.calls) × IsLogView trace_token.me.0 ×
        (trace_token.me.1 ≡ []) }
    ensures same { seats.new ≡ seats.old }
    ensures known { HaveReceiptsIn (log_in trace_token.me.0) seats.old (length seats.old) }
{
    let mut trace_token = trace_token;
    for i in 0..seats.len() {
        trace_token = seats[i].audit(table, trace_token);
    }
}

/// Ends a latch with all its seats, in the order of their numbers, and its taker. It ends no transaction: what the
/// store has active is what is open in the seats. The trace is what the taker took and then what is kept: whoever
/// judges it finds nothing wrong in it.
///
/// # Errors
/// Missing, with the latch, the seats and the taker as they were, where these aren't all seats of the latch.
pub fn close<L: LatchName>(
    latch: Latch<L>,
    seats: Vec<Seat<L>>,
    taker: Taker<L>,
) -> Result<Closed<L>, Missing<L>>
    ensures seats { MatchResult result (λ c. c.seats.items ≡ seats.items) (λ m. m.seats.items ≡ seats.items) }
    ensures taker { IfErr result (λ m. m.taker ≡ taker) }
    ensures all { MatchResult result (λ _. AreAllSeats L.seats seats.items) (λ _. AreAllSeats L.seats seats.items → ⊥) }
    ensures kept { IfOk result (λ c. AreReceiptsOf c.seats.items (taker ++ c.trace.items)) }
    ensures open_txs { IfOk result (λ c. SeatsAreTied c.seats.items (numbers_active c.store)) }
    ensures active { IfOk result (λ c. numbers_active c.store ≡ active_in_trace (taker ++ c.trace.items)) }
    ensures stands { IfOk result (λ c. IsSoundAt (taker ++ c.trace.items) c.store) }
    ensures sound { IfOk result (λ c. IsSoundStore L.most_runs (taker ++ c.trace.items)) }
    ensures most { IfOk result (λ c. c.store.most_runs ≡ L.most_runs) }
    ensures legal { IfOk result (λ c. IsLegal L.most_runs (taker ++ c.trace.items)) }
{
    am_law_serial::sound_traces_are_legal();
    let Latch {
        state,
        table,
        taken,
        seats: count,
        of,
    } = latch;
    if seats.len() as u64 != count || !in_order(seats.as_slice()) {
        return Err(Missing {
            latch: Latch {
                state,
                table,
                taken,
                seats: count,
                of,
            },
            seats,
            taker,
        });
    }
    let LatchState {
        engine,
        trace_token,
        handed_token,
        of: _,
    } = state.into_inner();
    let Taker { mut token, of: _ } = taker;
    hand_over(&taken, &mut token, handed_token.into_seat(), &[]);
    let mut seats = seats;
    audit_all(&table, trace_token.into_seat(), seats.as_mut_slice());
    let (trace, store) = engine.into_parts();
    Ok(Closed {
        trace,
        store,
        seats,
    })
}
