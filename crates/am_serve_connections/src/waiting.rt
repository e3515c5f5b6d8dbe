//! Connections that wait for a seat.

ghost use Rattle.std.specs.Prelude.{◌≡◌, ◌≤◌, ◌+◌, ◌++◌, ◌∷◌, [], drop, length, min, IfOk};
ghost use Rattle.std.specs.VecDeque.{deque_capacity, deque_len};
ghost use Rattle.am_serve_connections.specs.Waits.{due_of, gone_of, waits_no_longer, kept_of, still_waiting, oldest_of};

use std::alloc::{AllocError, Global};
use std::collections::VecDeque;
use std::io::{Read, Write};
use std::net::{Shutdown, TcpStream};

/// So many wait at most: where one more comes, the one that has waited longest goes.
pub(crate) const MOST_WAITING: usize = 4096;

/// For so many rounds one waits at most.
const MOST_ROUNDS: u64 = 8;

/// How often what a connection sent is read before it is closed, so that it is told why.
const MOST_READS: u32 = 16;

/// A connection that was accepted in a round in which no seat was free.
#[derive(Drop)]
pub(crate) struct Waiting {
    stream: TcpStream,
    since: u64,
}

// Whether one that came in a round waits no longer in another.
fn is_due(since: u64, round: u64, is_stopped: bool) -> bool
    ensures { result ≡ waits_no_longer since round is_stopped }
{
    is_stopped || round.saturating_sub(since) >= MOST_ROUNDS
}

/// Connections that wait, in the order in which they came.
#[derive(Drop)]
pub(crate) struct WaitingRoom {
    line: VecDeque<Waiting, Global>,
    ghost room: { 4096 ≤ deque_capacity line },
    ghost few: { deque_len line ≤ 4096 },
    round: u64,
}

impl WaitingRoom {
    /// Nobody waits. The room for all that ever do is got here.
    pub(crate) fn new(alloc: Global) -> Result<WaitingRoom, AllocError>
        ensures none { IfOk result (λ room. room.line.items ≡ []) }
        ensures round { IfOk result (λ room. room.round ≡ 0) }
    {
        let line = VecDeque::with_capacity(alloc, MOST_WAITING)?;
        Ok(WaitingRoom { line, round: 0 })
    }

    /// How many wait.
    pub(crate) fn len(&self) -> usize
        ensures { result ≡ length self.now.line.items }
    {
        self.line.len()
    }

    /// The connection that has waited longest, which waits no more.
    pub(crate) fn take_oldest(&mut self) -> Option<TcpStream>
        ensures oldest { result ≡ oldest_of self.old.line.items }
        ensures left { self.new.line.items ≡ drop 1 self.old.line.items }
        ensures round { self.new.round ≡ self.old.round }
    {
        let first = self.line.pop_front()?;
        Some(first.stream)
    }

    /// One more connection waits, after the others. Where it is one too many the one that has waited longest goes.
    /// Takes no memory.
    pub(crate) fn enter(&mut self, stream: TcpStream) -> Option<TcpStream>
        ensures gone { result ≡ gone_of self.old.line.items }
        ensures waits { self.new.line.items ≡
            kept_of self.old.line.items ++ record { stream = stream; since = self.old.round } ∷ [] }
        ensures round { self.new.round ≡ self.old.round }
    {
        let oldest = if self.line.len() < MOST_WAITING {
            None
        } else {
            self.take_oldest()
        };
        let since = self.round;
        self.line.push_back_reserved(Waiting { stream, since });
        oldest
    }

    /// The next one that waits no longer: any after a stop, and else the one that has waited longest, after eight
    /// rounds.
    pub(crate) fn next_due(&mut self, is_stopped: bool) -> Option<TcpStream>
        ensures due { result ≡ due_of self.old.line.items self.old.round is_stopped }
        ensures left { self.new.line.items ≡ still_waiting self.old.line.items self.old.round is_stopped }
        ensures round { self.new.round ≡ self.old.round }
    {
        match self.line.front() {
            Some(first) if is_due(first.since, self.round, is_stopped) => self.take_oldest(),
            _ => None,
        }
    }

    /// A round ends.
    pub(crate) fn end_round(&mut self)
        ensures counted { self.new.round ≡ min 18446744073709551615 (self.old.round + 1) }
        ensures same { self.new.line ≡ self.old.line }
    {
        self.round = self.round.saturating_add(1);
    }
}

/// Tells a connection that it isn't served, and closes it. What it sent is read first, as far as it has come: else the
/// system would take the answer back.
pub fn turn_away(stream: TcpStream) {
    let mut peer = &stream;
    let _ = peer.write_all(b"ERR SESSIONS\n");
    let _ = stream.shutdown(Shutdown::Write);
    if stream.set_nonblocking(true).is_err() {
        return;
    }
    let mut came = [0; 4096];
    for _ in 0..MOST_READS {
        match peer.read(&mut came) {
            Ok(count) if count > 0 => {}
            _ => return,
        }
    }
}
