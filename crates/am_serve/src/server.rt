//! All sessions of a server, the workers and the drain beside them.

ghost use Rattle.std.specs.Prelude.{◌≡◌, ◌≤◌, ◌-◌, [], IfOk, All, length};
ghost use Rattle.std.specs.List.{AllZip};
ghost use Rattle.am_latch.specs.Receipts.{AreAllSeats};
ghost use Rattle.am_serve_seat.specs.Seats.{HasNewSeat};
ghost use Rattle.am_serve.specs.ServerTraces.{HasServedInTurn, HasStored, HasWorked, IsServerTrace};
ghost use Rattle.am_serve_connections.specs.Lifetimes.{most_sessions};
ghost use Rattle.am_serve_drain.specs.Pieces.{HasTaken};
ghost use Rattle.am_serve.specs.Pieces.{HasClosed};
ghost use Rattle.am_serve.specs.Headers.{most_runs_for};

use crate::server_trace::ServerTrace;
use crate::turns::serve_in_turn;
use am_latch::{Blank, Latch, LatchName, Seat, close};
use am_latch_counters::{CounterSeat, Counters};
use am_record::{HashKey, NoMemory};
use am_serve_connections::SharedState;
use am_serve_drain::{Drain, DrainSetup, Watcher};
use am_serve_seat::{SessionSeat, assign_seats, take_seats};
use am_serve_workers::{WorkerSeats, run_workers};
use am_trace_writer::PieceTaker;
use std::alloc::Global;
use std::rt::Clock;
use std::sync::Wait;
use std::thread;
use std::thread::Threads;

/// How many entries a turn may merge.
const MERGE_LIMIT: u64 = 16;

// Who works beside the sessions.
#[derive(Drop)]
struct Beside<L: LatchName, T: PieceTaker + Drop, V: Watcher + Drop> {
    worker_seats: Vec<Seat<L>>,
    drain: Drain<L, T, V>,
}

// Lets workers have their turns, until all sessions have ended.
fn let_work<L: LatchName + Send + Sync, R: Threads + Wait + Sync>(
    rt: &R,
    latch: &Latch<L>,
    shared: &SharedState<'_>,
    worker_seats: Vec<Seat<L>>,
) -> WorkerSeats<L>
    ensures { AllZip (HasWorked shared.now.lifetime shared.now.runs) worker_seats.items result.seats.items }
{
    let upkeep = shared.lifetime.upkeep(shared.runs);
    let turns = shared.lifetime.turns();
    run_workers(
        rt,
        latch,
        worker_seats,
        turns,
        MERGE_LIMIT,
        upkeep,
        &shared.pacer,
    )
}

// Lets workers merge and clean, and the drain take the trace, until all sessions have ended.
fn work_beside<
    L: LatchName + Send + Sync,
    R: Threads + Wait + Clock + Sync,
    T: PieceTaker + Drop + Send,
    V: Watcher + Drop + Send,
>(rt: &R, latch: &Latch<L>, shared: &SharedState<'_>, beside: Beside<L, T, V>) -> Beside<L, T, V>
    ensures taken { HasTaken T.took beside.drain.taker beside.drain.pieces beside.drain.events result.drain.taker
        result.drain.pieces result.drain.events }
    ensures worked { AllZip (HasWorked shared.now.lifetime shared.now.runs) beside.worker_seats.items
        result.worker_seats.items }
{
    let Beside {
        worker_seats,
        drain,
    } = beside;
    let (drain, worked) = thread::join(
        rt,
        || -> Drain<L, T, V>
            ensures { HasTaken T.took drain.taker drain.pieces drain.events result.taker
                result.pieces result.events }
        { drain.run(rt, latch, shared) },
        || -> WorkerSeats<L>
            ensures { AllZip (HasWorked shared.entry.now.lifetime shared.entry.now.runs) worker_seats.items
                result.seats.items }
        { let_work(rt, latch, shared, worker_seats) },
    );
    Beside {
        worker_seats: worked.seats,
        drain,
    }
}

// Lets each seat have its sessions.
fn serve_all<'a, L: LatchName + Send + Sync, R: Threads + Wait + Clock + Sync>(
    rt: &R,
    alloc: Global,
    shared: &SharedState<'_>,
    session_seats: Vec<SessionSeat<'a, L>>,
) -> Vec<SessionSeat<'a, L>>
    requires { All HasNewSeat session_seats.items }
    ensures { AllZip (HasServedInTurn L.most_runs (most_sessions shared.now.lifetime)) session_seats.entry.items
        result.items }
{
    let mut session_seats = session_seats;
    serve_each(rt, alloc, shared, session_seats.as_mut_slice());
    shared.end();
    session_seats
}

fn serve_each<'a, L: LatchName + Send + Sync, R: Threads + Wait + Clock + Sync>(
    rt: &R,
    alloc: Global,
    shared: &SharedState<'_>,
    session_seats: &mut [SessionSeat<'a, L>],
)
    requires { All HasNewSeat session_seats.old }
    ensures { AllZip (HasServedInTurn L.most_runs (most_sessions shared.now.lifetime)) session_seats.old
        session_seats.new }
{
    let threads = session_seats.len().max(1);
    thread::for_each_mut(
        rt,
        session_seats,
        threads,
        &|place, session_seat| serve_in_turn(rt, alloc, shared, place, session_seat),
    );
}

// Closes the latch, of which these are all seats, and has what it kept passed on too: after all that was, all is.
fn close_all<L: LatchName, T: PieceTaker + Drop, V: Watcher + Drop>(
    latch: Latch<L>,
    seats: Vec<Seat<L>>,
    drain: Drain<L, T, V>,
    accepted_all: bool,
) -> ServerTrace<T>
    requires { AreAllSeats L.seats seats.items }
    ensures stored { (first : T) → HasTaken T.took [] first 0 drain.taker drain.pieces drain.events →
        HasStored T.took L.most_runs first seats.items result }
    ensures accepted { result.accepted_all ≡ accepted_all }
{
    pass_rest(latch, seats, drain, accepted_all)
}

// Closes the latch, of which these are all seats, and has what it kept passed on.
fn pass_rest<L: LatchName, T: PieceTaker + Drop, V: Watcher + Drop>(
    latch: Latch<L>,
    seats: Vec<Seat<L>>,
    drain: Drain<L, T, V>,
    accepted_all: bool,
) -> ServerTrace<T>
    requires { AreAllSeats L.seats seats.items }
    ensures closed { HasClosed T.took L.most_runs seats.items drain.taker drain.pieces drain.events result }
    ensures accepted { result.accepted_all ≡ accepted_all }
{
    let Drain {
        taker,
        mut pieces,
        events,
        ..
    } = drain;
    let Ok(closed) = close(latch, seats, taker) else {
        unreachable!()
    };
    pieces.take(&closed.trace);
    ServerTrace {
        events: events.saturating_add(closed.trace.len() as u64),
        commits: closed.store.commits(),
        accepted_all,
        pieces,
    }
}

/// Opens the latch, serves sessions at each seat of the counters, and closes the latch.
pub(crate) fn run<
    L: LatchName + Send + Sync,
    R: Threads + Wait + Clock + Sync,
    T: PieceTaker + Drop + Send,
    V: Watcher + Drop + Send,
>(
    rt: &R,
    alloc: Global,
    hash: HashKey,
    shared: &SharedState<'_>,
    blank: Blank,
    counters: &Counters,
    counter_seats: Vec<CounterSeat>,
    setup: DrainSetup<T, V>,
) -> Result<ServerTrace<T>, NoMemory>
    requires named { (blank.seats ≡ L.seats) × (blank.table ≡ L.table) × (blank.most_runs ≡ L.most_runs) }
    requires runs { L.most_runs ≡ most_runs_for shared.now.lifetime }
    requires counter_seats { All (λ h. h.of ≡ counters.now) counter_seats.items }
    requires few { length counter_seats.items ≤ L.seats }
    requires places { shared.now.connections ≡ length counter_seats.items }
    ensures { IfOk result (IsServerTrace T.took setup.pieces shared.now.lifetime shared.now.runs
        (length counter_seats.items) (L.seats - length counter_seats.items)) }
{
    let Ok((latch, seats, taker)) = Latch::<L>::open(blank, hash) else {
        return Err(NoMemory);
    };
    let mut all = Vec::new(alloc);
    all.reserve(seats.len())?;
    let (session_seats, worker_seats) = assign_seats(
        alloc,
        &latch,
        counters,
        &shared.turnstile,
        &shared.connections,
        &shared.pacer,
        shared.lifetime,
        seats,
        counter_seats,
    )?;
    let beside = Beside {
        worker_seats,
        drain: Drain::new(taker, setup),
    };
    // Where no second thread can be started the first of these comes last: it waits for the sessions.
    let (beside, session_seats) = thread::join(
        rt,
        || -> Beside<L, T, V>
            ensures taken { HasTaken T.took beside.drain.taker beside.drain.pieces beside.drain.events
                result.drain.taker result.drain.pieces result.drain.events }
            ensures worked { AllZip (HasWorked shared.entry.now.lifetime shared.entry.now.runs)
                beside.worker_seats.items result.worker_seats.items }
        { work_beside(rt, &latch, shared, beside) },
        || -> Vec<SessionSeat<'_, L>>
            requires { All HasNewSeat session_seats.items }
            ensures { AllZip (HasServedInTurn L.most_runs (most_sessions shared.entry.now.lifetime))
                session_seats.entry.items result.items }
        { serve_all(rt, alloc, shared, session_seats) },
    );
    take_seats(&mut all, session_seats);
    let mut worker_seats = beside.worker_seats;
    let Ok(()) = all.append(&mut worker_seats) else {
        unreachable!()
    };
    Ok(close_all(
        latch,
        all,
        beside.drain,
        shared.session_counters.accepted_all(),
    ))
}
