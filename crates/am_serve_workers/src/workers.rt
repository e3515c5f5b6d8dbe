//! Workers in threads of their own.

ghost use Rattle.std.specs.Prelude.{◌≡◌, ◌+◌, ◌≤◌, length};
ghost use Rattle.std.specs.List.{AllZip};
ghost use Rattle.am_serve_workers.specs.Turns.{HasTakenTurns, all_moved};

use crate::turns::take_turns;
use am_latch::{Latch, LatchName, MAX_SEATS, Seat};
use am_serve_connections::{Pacer, Upkeep};
use std::sync::Wait;
use std::thread;
use std::thread::Threads;

/// The seats that the workers had, in their order, and how many entries their turns moved.
#[derive(Drop)]
pub struct WorkerSeats<L: LatchName> {
    pub seats: Vec<Seat<L>>,
    pub moved: u64,
}

/// Lets each seat take at most so many turns, in a thread of its own, and returns when all have ended. In each turn
/// the worker waits for the pacer, and then calls `Merge(limit)` once. Where that is answered Idle, a worker that
/// cleans calls `Clean` once, of at most 64 ghosts, and goes on from where it cleaned last. It does so where at least
/// one entry of 1,024 is a ghost: for fewer a turn would walk a large index for little. Where more runs have entries
/// than it leaves, it then reads one record of a range in a transaction of its own, so that the range is merged next,
/// and goes on from there. The steps of that transaction stand in the trace one right after another.
///
/// A worker lets the receipts of former turns go, so its seat isn't full before 10^13 turns. It ends after its turns,
/// where the pacer answers false, and where its seat is full; a turn that is refused memory is used up.
///
/// A seat whose thread can't be started has its turns on another's thread or the caller's. A latch has at most 1,024
/// seats; of a longer list the others would have no turns.
pub fn run_workers<L: LatchName + Send + Sync, R: Threads + Wait + Sync, G: Pacer + Sync>(
    rt: &R,
    latch: &Latch<L>,
    seats: Vec<Seat<L>>,
    turns: u64,
    limit: u64,
    upkeep: Upkeep,
    pacer: &G,
) -> WorkerSeats<L>
    ensures turned { AllZip (HasTakenTurns upkeep limit turns) seats.items result.seats.items }
    ensures moved { all_moved result.seats.items ≡ all_moved seats.items + result.moved }
{
    let mut seats = seats;
    let moved = work_all(rt, latch, seats.as_mut_slice(), turns, limit, upkeep, pacer);
    WorkerSeats { seats, moved }
}

// Lets the workers work, and answers how many entries they moved.
fn work_all<L: LatchName + Send + Sync, R: Threads + Wait + Sync, G: Pacer + Sync>(
    rt: &R,
    latch: &Latch<L>,
    seats: &mut [Seat<L>],
    turns: u64,
    limit: u64,
    upkeep: Upkeep,
    pacer: &G,
) -> u64
    ensures turned { AllZip (HasTakenTurns upkeep limit turns) seats.old seats.new }
    ensures moved { all_moved seats.new ≡ all_moved seats.old + result }
{
    let count = seats.len().min(MAX_SEATS);
    let (workers, _) = seats.split_at_mut(count);
    let before = moved_by(workers);
    work_in_threads(rt, latch, workers, turns, limit, upkeep, pacer);
    moved_by(workers) - before
}

fn work_in_threads<L: LatchName + Send + Sync, R: Threads + Wait + Sync, G: Pacer + Sync>(
    rt: &R,
    latch: &Latch<L>,
    workers: &mut [Seat<L>],
    turns: u64,
    limit: u64,
    upkeep: Upkeep,
    pacer: &G,
)
    requires { length workers.old ≤ 1024 }
    ensures { AllZip (HasTakenTurns upkeep limit turns) workers.old workers.new }
{
    let threads = workers.len().max(1);
    thread::for_each_mut(
        rt,
        workers,
        threads,
        &|worker, seat| take_turns(rt, latch, seat, worker as u32, turns, limit, upkeep, pacer),
    );
}

// How many entries all receipts say were moved.
fn moved_by<L: LatchName>(seats: &[Seat<L>]) -> u64
    requires { length seats.now ≤ 1024 }
    ensures { result ≡ all_moved seats.now }
{
    let mut moved = 0;
    for seat in seats {
        moved += seat.moved();
    }
    moved
}
