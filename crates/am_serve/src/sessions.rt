//! One session at its seat.

ghost use Rattle.std.specs.Prelude.{◌≡◌, ◌+◌, ◌^◌, ◌<◌, false, None};
ghost use Rattle.am_line_session.specs.ServedSessions.{Served, read_failures, write_failures, IsSentOn};
ghost use Rattle.am_serve_seat.specs.SessionSeats.{open_at, seat_meaning, IsNumbered, IsPublishedByReceipt};
ghost use Rattle.am_serve.specs.ServerTraces.{WasServed};

use am_latch::LatchName;
use am_line_session::{End, PartingSink, serve};
use am_line_sink::{Sink, Writing};
use am_line_source::{AnsweredSource, Source};
use am_serve_connections::{AnswerWriter, Client, CountingSink, OwnLines, SharedState};
use am_serve_seat::SessionSeat;
use std::alloc::Global;
use std::io::{BufWriter, Write};
use std::net::TcpStream;
use std::rt::Clock;
use std::sync::Wait;

/// Answers the lines of a source at a seat, each by one line, and at the end aborts what is open there. The sink has
/// nothing that isn't sent on, and the number of the session is drawn. The number of the seat stays, and what is
/// published there is the commit of one of its receipts.
pub fn serve_session<
    'a,
    L: LatchName,
    W: Wait + Clock,
    K: PartingSink<SessionSeat<'a, L>>,
    S: AnsweredSource<K>,
>(rt: &W, alloc: Global, source: &mut S, sink: &mut K, session_seat: &mut SessionSeat<'a, L>) -> End
    requires source_countable { S.failures source.old < 2 ^ 63 }
    requires sink_countable { K.failures sink.old < 2 ^ 63 }
    requires sent { K.pending sink.old ≡ false }
    requires idle { open_at session_seat.old ≡ None }
    requires numbered { IsNumbered session_seat.old }
    ensures served { Served S.comes K.holds K.parts (seat_meaning L.most_runs) 0 source.old sink.old session_seat.old
        source.new sink.new session_seat.new result }
    ensures idle { open_at session_seat.new ≡ None }
    ensures sent { IsSentOn result (K.pending sink.new ≡ false) }
    ensures source_failures { S.failures source.new ≡ S.failures source.old + read_failures result }
    ensures sink_failures { K.failures sink.new ≡ K.failures sink.old + write_failures result }
    ensures seat { session_seat.new.seat.number ≡ session_seat.old.seat.number }
    ensures published { IsPublishedByReceipt session_seat.old → IsPublishedByReceipt session_seat.new }
    ensures left { WasServed L.most_runs session_seat.old session_seat.new }
{
    am_serve_seat::sessions_have_receipts();
    serve(rt, alloc, source, sink, session_seat, 0)
}

/// Serves one connection to its end, with answers that go to this client. What comes from it is the source's, as far as
/// that is lines of the protocol.
pub(crate) fn serve_connection<'a, W: Wait + Clock, S: Source + Drop, L: LatchName>(
    rt: &W,
    alloc: Global,
    shared: &SharedState<'_>,
    stream: &TcpStream,
    client: &Client<'_, W>,
    source: &mut OwnLines<S>,
    session_seat: &mut SessionSeat<'a, L>,
)
    requires countable { ⟦<OwnLines<S> as Source>⟧.failures source.old < 2 ^ 63 }
    requires idle { open_at session_seat.old ≡ None }
    requires numbered { IsNumbered session_seat.old }
    ensures idle { open_at session_seat.new ≡ None }
    ensures seat { session_seat.new.seat.number ≡ session_seat.old.seat.number }
    ensures left { WasServed L.most_runs session_seat.old session_seat.new }
{
    let Ok(writer) = BufWriter::new(alloc, AnswerWriter::new(client)) else {
        refuse(stream);
        return;
    };
    let mut sink = CountingSink::new(Writing::new(writer), &shared.pacer);
    match serve_session(rt, alloc, source, &mut sink, session_seat) {
        End::NoMemory => refuse(stream),
        // The client takes no answers any more.
        End::WriteFailed => {}
        _ => client.finish(),
    }
}

// Says that there was no memory for a session's buffers, before anything was read.
pub(crate) fn refuse(stream: &TcpStream) {
    let mut writer = stream;
    let _ = writer.write_all(b"ERR MEMORY\n");
}
