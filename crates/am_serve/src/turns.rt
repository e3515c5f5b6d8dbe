//! Sessions one after another at one seat.

ghost use Rattle.std.specs.Prelude.{◌≡◌, ◌<◌, None};
ghost use Rattle.am_serve_seat.specs.SessionSeats.{open_at, IsNumbered};
ghost use Rattle.am_serve_seat.specs.Seats.{HasNewSeat};
ghost use Rattle.am_serve.specs.ServerTraces.{WasServed, HasServedInTurn};
ghost use Rattle.am_serve_connections.specs.Lifetimes.{most_sessions};

use crate::sessions::{refuse, serve_connection};
use am_latch::LatchName;
use am_serve_connections::{Client, ClientBytes, OwnLines, SharedState, turn_away};
use am_serve_seat::SessionSeat;
use std::alloc::Global;
use std::net::TcpStream;
use std::rt::Clock;
use std::sync::{Arc, Wait};

// Serves a connection to its end, where it can be cut.
fn serve_at_place<'a, R: Wait + Clock, L: LatchName>(
    rt: &R,
    alloc: Global,
    shared: &SharedState<'_>,
    place: usize,
    stream: TcpStream,
    session_seat: &mut SessionSeat<'a, L>,
)
    requires idle { open_at session_seat.old ≡ None }
    requires numbered { IsNumbered session_seat.old }
    ensures idle { open_at session_seat.new ≡ None }
    ensures seat { session_seat.new.seat.number ≡ session_seat.old.seat.number }
    ensures left { WasServed L.most_runs session_seat.old session_seat.new }
{
    let connection = match Arc::new(alloc, stream) {
        Ok(connection) => connection,
        Err(failed) => {
            refuse(&failed.value);
            return;
        }
    };
    let Ok(other) = Arc::try_clone(&connection) else {
        refuse(&connection);
        return;
    };
    let client = Client::new(
        rt,
        alloc,
        &*connection,
        shared.lapse,
        shared.idle,
        &shared.connections,
        place,
    );
    let Ok(mut source) = OwnLines::new(alloc, ClientBytes::new(&client)) else {
        refuse(&connection);
        return;
    };
    shared
        .connections
        .enter(rt, place, session_seat.number(), other);
    serve_connection(
        rt,
        alloc,
        shared,
        &connection,
        &client,
        &mut source,
        session_seat,
    );
    shared.connections.leave(rt, place);
}

/// Serves connections at a seat, one after another, so many at most, until no further one comes. Receipts are let go
/// between them.
pub(crate) fn serve_in_turn<'a, R: Wait + Clock, L: LatchName>(
    rt: &R,
    alloc: Global,
    shared: &SharedState<'_>,
    place: usize,
    session_seat: &mut SessionSeat<'a, L>,
)
    requires { HasNewSeat session_seat.old }
    ensures { HasServedInTurn L.most_runs (most_sessions shared.now.lifetime) session_seat.old session_seat.new }
{
    'sessions: for turn in 0..shared.lifetime.sessions_each() {
        let mut held = shared.acceptor(place).lock(rt);
        let Some(stream) = held.next(rt, &shared.session_counters) else {
            break;
        };
        let drew = session_seat.draw();
        drop(held);
        if drew {
            shared.session_counters.begun.add();
            serve_at_place(rt, alloc, shared, place, stream, session_seat);
            shared.session_counters.ended.add();
        } else {
            turn_away(stream);
        }
        session_seat.let_go();
    }
    shared.pacer.end_session();
}
