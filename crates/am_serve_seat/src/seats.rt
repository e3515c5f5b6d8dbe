//! Which seats of a latch are the sessions'.

ghost use Rattle.std.specs.Prelude.{◌≡◌, ◌≤◌, ◌<◌, ◌+◌, ◌++◌, IfOk, All, length, true, vec_len};
ghost use Rattle.std.specs.Prelude.{vec_capacity};
ghost use Rattle.am_record.specs.Limits.{max_runs};
ghost use Rattle.am_serve_connections.specs.Lifetimes.{stays};
ghost use Rattle.am_serve_seat.specs.Seats.{HasNewSeat, IsNewSeat, seat_numbers};
ghost use Rattle.am_serve_seat.specs.Seats.{session_seat_numbers, latch_seats};

use crate::session_seat::SessionSeat;
use am_latch::{Latch, LatchName, Seat};
use am_latch_counters::{CounterSeat, Counters};
use am_record::NoMemory;
use am_serve_connections::{Connections, Lifetime, MergePacer, Turnstile};
use std::alloc::Global;

/// Gives the first seats of a latch to the sessions, one for each seat of the counters, and the others to workers. The
/// place of each at the turnstile and among the connections is its own among these, and each tells workers' pacer of
/// the runs that it loads. In a server that stays they let their receipts go as they work.
///
/// # Errors
/// NoMemory, where memory was refused.
pub fn assign_seats<'a, L: LatchName>(
    alloc: Global,
    latch: &'a Latch<L>,
    counters: &'a Counters,
    turnstile: &'a Turnstile,
    connections: &'a Connections,
    pacer: &'a MergePacer,
    lifetime: Lifetime,
    seats: Vec<Seat<L>>,
    counter_seats: Vec<CounterSeat>,
) -> Result<(Vec<SessionSeat<'a, L>>, Vec<Seat<L>>), NoMemory>
    requires counter_seats { All (λ h. h.of ≡ counters.now) counter_seats.items }
    requires fresh { All IsNewSeat seats.items }
    requires few { length counter_seats.items ≤ length seats.items }
    requires runs { stays lifetime ≡ true → max_runs < L.most_runs }
    ensures count { IfOk result (λ r. length r.0.items ≡ length counter_seats.items) }
    ensures sessions { IfOk result (λ r. All HasNewSeat r.0.items) }
    ensures workers { IfOk result (λ r. All IsNewSeat r.1.items) }
    ensures seats { IfOk result (λ r. session_seat_numbers r.0.items ++ seat_numbers r.1.items ≡
        seat_numbers seats.items) }
{
    let mut counter_seats = counter_seats;
    let mut session_seats = Vec::new(alloc);
    let mut worker_seats = Vec::new(alloc);
    for seat in seats {
        if worker_seats.is_empty()
            && let Some(counter_seat) = counter_seats.pop()
        {
            let place = session_seats.len();
            session_seats.push(SessionSeat::new(
                latch,
                counters,
                seat,
                counter_seat,
                turnstile,
                connections,
                pacer,
                place,
                lifetime.stays(),
            ))?;
        } else {
            worker_seats.push(seat)?;
        }
    }
    Ok((session_seats, worker_seats))
}

/// The latch's seats of the sessions, after what stands there. Takes no memory.
pub fn take_seats<'a, L: LatchName>(all: &mut Vec<Seat<L>>, session_seats: Vec<SessionSeat<'a, L>>)
    requires { vec_len all.old + length session_seats.items ≤ vec_capacity all.old }
    ensures seats { all.new.items ≡ all.old.items ++ latch_seats session_seats.entry.items }
    ensures len { vec_len all.new ≡ vec_len all.old + length session_seats.entry.items }
    ensures capacity { vec_capacity all.new ≡ vec_capacity all.old }
{
    for session_seat in session_seats {
        all.push_reserved(session_seat.into_seat());
    }
}
