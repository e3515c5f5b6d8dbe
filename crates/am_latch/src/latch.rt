//! The latch, round the engine.
ghost use Rattle.std.specs.Prelude.{◌≡◌, ◌↔◌, ◌⊎◌, ◌<◌, ◌≤◌, [], ◌++◌, IfOk, IfErr, OnErr, IfSome};
ghost use Rattle.am_record.specs.Limits.{last_run};
ghost use Rattle.am_law_sound.specs.Right.{IsSoundStore};
ghost use Rattle.am_latch_ties.specs.declared.views.View.TheVariants.{Minting, Log};
ghost use Rattle.am_latch_ties.specs.CallLogs.{empty_log};
ghost use Rattle.am_latch.specs.Receipts.{numbered};
ghost use Rattle.am_latch.specs.Faults.{IsBadSeats};
ghost use Rattle.am_latch.specs.Ties.{IsEngineOf, HasReceiptsIn};
ghost use Rattle.am_latch_engine.specs.Sizes.{AreFiguresAt};
ghost use Rattle.am_latch_engine.specs.Traces.{EngineState, IsNextOf};

use crate::latch_name::LatchName;
use crate::locked::Locked;
use crate::seat::Seat;
use crate::state::LatchState;
use crate::taker::Taker;
use am_latch_engine::{Engine, Piece};
use am_latch_ties::{
    TakenTable, TakenToken, Token, ViewTable, end_minting, mint_seat, split_taker,
};
use am_record::{HashKey, NoMemory};
use std::alloc::Global;
use std::marker::{Model, PhantomData};
use std::sync::{Mutex, MutexGuard, Wait};
use std::{hint, thread};
use thiserror::Error;

/// The most seats of a latch.
pub const MAX_SEATS: usize = 1024;

/// How often a thread lets others run before it sleeps at the latch.
const PATIENCE: u32 = 1000;

/// How often it tries to get the latch before it lets others run.
const TRIES: u32 = 100;

/// Why there is no latch.
#[derive(Clone, Copy, Debug, PartialEq, Eq, Error)]
pub enum LatchFault {
    /// A latch has 1 to 1,024 seats.
    #[error("the number of seats is out of its range")]
    BadSeats,
    /// Memory was refused.
    #[error("no memory")]
    NoMemory,
}

/// A new latch, which no type stands for yet. A function generic over its name opens it and does the work.
#[derive(Drop)]
pub struct Blank {
    seats: u64,
    most_runs: u32,
    table: ViewTable,
    trace_token: Token,
    taken: TakenTable,
    taken_token: TakenToken,
    alloc: Global,
}

impl Model for Blank {
    ghost use Rattle.am_latch.specs.Fields.{IsBlank};
    ghost use Rattle.am_latch.specs.Tables.{BlankParts};

    ghost Value = { BlankParts };

    ghost view = { λ b. record {
      table = record { calls = b.table.shared.table_id; handed = b.taken.shared.table_id };
      seats = b.seats;
      most_runs = b.most_runs;
    } };

    ghost invariant = { IsBlank };
}

impl Blank {
    /// A blank for so many seats, over a store that makes so many runs at most: [`am_record::LAST_RUN`] or fewer.
    ///
    /// # Errors
    /// BadSeats, unless 1 to 1,024 seats are asked for; NoMemory, where memory was refused.
    pub fn new(alloc: Global, seats: u64, most_runs: u32) -> Result<Blank, LatchFault>
        requires few { most_runs ≤ last_run }
        ensures ok { IfOk result (λ b. (b.seats ≡ seats) × (0 < seats) × (seats ≤ 1024)) }
        ensures most { IfOk result (λ b. b.most_runs ≡ most_runs) }
        ensures bad { IfErr result (λ e. IsBadSeats e ↔ ((seats ≡ 0) ⊎ (1024 < seats))) }
    {
        if seats == 0 || seats > MAX_SEATS as u64 {
            return Err(LatchFault::BadSeats);
        }
        let Ok((table, trace_token)) = ViewTable::of_words(alloc, &[0], &()) else {
            return Err(LatchFault::NoMemory);
        };
        let Ok((taken, taken_token)) = TakenTable::of_words(alloc, &[0], &()) else {
            return Err(LatchFault::NoMemory);
        };
        Ok(Blank {
            seats,
            most_runs,
            table,
            trace_token,
            taken,
            taken_token,
            alloc,
        })
    }
}

/// An engine that one thread at a time may step. Its seats are those of its type parameter.
#[derive(Drop)]
pub struct Latch<L: LatchName> {
    pub(crate) state: Mutex<LatchState<L>>,
    pub(crate) table: ViewTable,
    pub(crate) taken: TakenTable,
    pub(crate) seats: u64,
    pub(crate) of: PhantomData<L>,
    ghost all: { seats ≡ L.seats },
    ghost named: { (table.shared.table_id ≡ L.table.calls) × (0 < table.shared.table_id.words) },
    ghost taken_named: { (taken.shared.table_id ≡ L.table.handed) × (0 < taken.shared.table_id.words) },
}

impl<L: LatchName> Latch<L> {
    /// The latch over an empty store; its seats by number, with no receipts; and its taker, which took nothing.
    ///
    /// # Errors
    /// NoMemory, where memory was refused. The blank is spent.
    pub fn open(
        blank: Blank,
        hash: HashKey,
    ) -> Result<(Latch<L>, Vec<Seat<L>>, Taker<L>), LatchFault>
        requires { (blank.seats ≡ L.seats) × (blank.table ≡ L.table) × (blank.most_runs ≡ L.most_runs) }
        ensures seats { IfOk result (λ r. r.1.items ≡ numbered L.seats) }
        ensures taker { IfOk result (λ r. r.2 ≡ []) }
        ensures fault { IfErr result (λ e. ¬ (IsBadSeats e)) }
    {
        let Blank {
            seats: count,
            most_runs,
            table,
            mut trace_token,
            taken,
            mut taken_token,
            alloc,
        } = blank;
        let Some(seats) = mint_seats(alloc, &table, &mut trace_token, count) else {
            return Err(LatchFault::NoMemory);
        };
        let Ok(engine) = Engine::open(alloc, hash, most_runs) else {
            return Err(LatchFault::NoMemory);
        };
        let handed_token = split_taker(&taken, &mut taken_token);
        let state = LatchState::new(engine, trace_token, handed_token);
        Ok((
            Latch {
                state: Mutex::new(state),
                table,
                taken,
                seats: count,
                of: PhantomData,
            },
            seats,
            Taker::new(taken_token),
        ))
    }

    /// Takes the lock. A call holds it for about a microsecond, and a thread that sleeps is woken much later than that:
    /// among many threads each call would then wait for the next one to wake. So a thread tries for as long as a call
    /// takes, then lets others run, of which one may hold the lock, and sleeps only where that doesn't help.
    pub(crate) fn lock<R: Wait>(&self, rt: &R) -> MutexGuard<'_, LatchState<L>> {
        for _ in 0..PATIENCE {
            if let Some(state) = self.try_briefly() {
                return state;
            }
            thread::yield_now();
        }
        self.state.lock(rt)
    }

    /// The same, so that the thread may keep it.
    pub(crate) fn take<R: Wait>(&self, rt: &R) -> Locked<'_, L> {
        Locked {
            state: self.lock(rt),
            table: &self.table,
        }
    }

    fn try_briefly(&self) -> Option<MutexGuard<'_, LatchState<L>>> {
        for _ in 0..TRIES {
            if let Some(state) = self.state.try_lock() {
                return Some(state);
            }
            hint::spin_loop();
        }
        None
    }

    /// Lends the engine to the closure, which has the latch to itself meanwhile, and answers what it answers of that
    /// engine: each of its calls was made by a seat of this latch, its store makes as many runs at most as the latch's,
    /// what is active in it is open in these seats, and the seat that looks has just the receipts of its calls there.
    pub fn look<T, R: Wait, F: FnOnce(&Engine) -> T>(&self, rt: &R, seat: &mut Seat<L>, f: F) -> T
        requires { F.IsAlwaysCallable f }
        ensures lent { (engine : _) × IsEngineOf L.seats engine.now × (engine.now.most_runs ≡ L.most_runs) ×
            HasReceiptsIn engine.now seat.old × F.post f engine result }
        ensures same { seat.new ≡ seat.old }
    {
        lend(&self.table, &mut self.lock(rt), seat, f)
    }

    /// Hands out the stored calls that are kept, which are the oldest that weren't handed out before. No call and no
    /// look sees a difference.
    ///
    /// # Errors
    /// NoMemory, where memory was refused. Nothing is handed out then.
    pub fn hand_out<R: Wait>(&self, rt: &R, taker: &mut Taker<L>) -> Result<Piece, NoMemory>
        ensures taken { IfOk result (λ p. taker.new ≡ taker.old ++ p.trace.items) }
        ensures next { IfOk result (λ p. (engine : EngineState) × IsEngineOf L.seats engine ×
            IsSoundStore L.most_runs engine.trace × (engine.handed.trace ≡ taker.old) ×
            IsNextOf engine p.first record { trace = p.trace.items; calls = p.calls.items }) }
        ensures figures { IfOk result (λ p. AreFiguresAt taker.new p.figures) }
        ensures same { OnErr result (taker.new ≡ taker.old) }
    {
        self.lock(rt).hand_out(&self.taken, taker)
    }
}

// The seats by number, with no receipts. The token knows the trace from then on.
fn mint_seats<L: LatchName>(
    alloc: Global,
    table: &ViewTable,
    trace_token: &mut Token,
    count: u64,
) -> Option<Vec<Seat<L>>>
    requires count { (count ≡ L.seats) × (count ≤ 1024) }
    requires table { (table.now.shared.table_id ≡ L.table.calls) × (0 < table.now.shared.table_id.words) }
    requires trace_token { (trace_token.old.table_id ≡ L.table.calls) × (trace_token.old.me ≡ (Minting 0, [])) }
    ensures seats { IfSome result (λ seats. seats.items ≡ numbered count) }
    ensures same { trace_token.new.table_id ≡ trace_token.old.table_id }
    ensures trace_token { IfSome result (λ _. trace_token.new.me ≡ (Log empty_log, [])) }
{
    let Ok(mut seats) = Vec::with_capacity(alloc, count as usize) else {
        return None;
    };
    for number in 0..count {
        let token = mint_seat(table, trace_token, number);
        seats.push_reserved(Seat::new(alloc, number, token));
    }
    end_minting(table, trace_token, count);
    Some(seats)
}

// Lends the engine, once the seat's receipts were compared.
fn lend<L: LatchName, T, F: FnOnce(&Engine) -> T>(
    table: &ViewTable,
    state: &mut LatchState<L>,
    seat: &mut Seat<L>,
    f: F,
) -> T
    requires table { (table.now.shared.table_id ≡ L.table.calls) × (0 < table.now.shared.table_id.words) }
    requires callable { F.IsAlwaysCallable f }
    ensures lent { (engine : _) × IsEngineOf L.seats engine.now × (engine.now.most_runs ≡ L.most_runs) ×
        HasReceiptsIn engine.now seat.old × F.post f engine result }
    ensures same { seat.new ≡ seat.old }
{
    state.audit(table, seat);
    f(&state.engine)
}
