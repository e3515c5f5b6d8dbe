//! Where connections come in.

ghost use Rattle.std.specs.Prelude.{◌≡◌, [], IfOk};
ghost use Rattle.am_serve_connections.specs.Acceptors.{deed_of, is_closed};

use crate::endpoint::Endpoint;
use crate::lifetime::Lifetime;
use crate::rounds::round_length;
use crate::session_counters::SessionCounters;
use crate::waiting::{MOST_WAITING, WaitingRoom, turn_away};
use std::alloc::{AllocError, Global};
use std::io::ErrorKind;
use std::net::TcpStream;
use std::rt::Clock;
use std::sync::Wait;
use std::sync::atomic::{AtomicBool, Ordering};
use std::thread;
use std::time::{Duration, Instant};

/// How long nothing is accepted where a connection couldn't be.
const PAUSE_MILLIS: u64 = 100;

/// So many connections are accepted in a round at most.
const MOST_EACH_ROUND: u32 = 4096;

/// What came to the acceptor.
#[derive(Drop)]
enum Came<C: Drop> {
    /// A connection.
    Connection(C),
    /// The word that the system can't accept one.
    Failure,
}

/// What is done with it.
#[derive(Drop)]
enum Deed<C: Drop> {
    /// The connection is served.
    Serve(C),
    /// It is told that it isn't served, and nothing is taken any more.
    TurnAway(C),
    /// A further connection is waited for, a little later.
    TryAgain,
    /// Nothing is taken any more.
    End,
}

// What is done with what came.
fn deed_for<C: Drop>(lifetime: Lifetime, came: Came<C>, is_stopped: bool) -> Deed<C>
    ensures { result ≡ deed_of lifetime came is_stopped }
{
    match (lifetime, came) {
        (_, Came::Connection(connection)) if is_stopped => Deed::TurnAway(connection),
        (_, Came::Failure) if is_stopped => Deed::End,
        (_, Came::Connection(connection)) => Deed::Serve(connection),
        (Lifetime::Staying, Came::Failure) => Deed::TryAgain,
        (Lifetime::Bounded, Came::Failure) => Deed::End,
    }
}

// Whether no further connection is waited for: after a stop, and in a bounded server after a failure.
fn is_closed(lifetime: Lifetime, accepted_all: bool, is_stopped: bool) -> bool
    ensures { result ≡ is_closed lifetime accepted_all is_stopped }
{
    is_stopped || (!accepted_all && !lifetime.stays())
}

/// An endpoint, at which one thread at a time waits, until a stop is asked for.
#[derive(Drop)]
pub struct Acceptor<'a> {
    endpoint: &'a Endpoint,
    is_stopped: &'a AtomicBool,
    lifetime: Lifetime,
    // Those that were accepted while nobody waited for them.
    waiting: WaitingRoom,
    round_ended_at: Option<Instant>,
}

impl<'a> Acceptor<'a> {
    /// The acceptor at an endpoint, which is closed where the flag says that a stop was asked for.
    pub(crate) fn new(
        alloc: Global,
        endpoint: &'a Endpoint,
        is_stopped: &'a AtomicBool,
        lifetime: Lifetime,
    ) -> Result<Acceptor<'a>, AllocError>
        ensures endpoint { IfOk result (λ acceptor. acceptor.endpoint ≡ endpoint.entry) }
        ensures stop { IfOk result (λ acceptor. acceptor.is_stopped ≡ is_stopped.entry) }
        ensures lifetime { IfOk result (λ acceptor. acceptor.lifetime ≡ lifetime) }
        ensures waiting { IfOk result (λ acceptor. acceptor.waiting.line.items ≡ []) }
    {
        Ok(Acceptor {
            endpoint,
            is_stopped,
            lifetime,
            waiting: WaitingRoom::new(alloc)?,
            round_ended_at: None,
        })
    }

    /// The next connection: the one that has waited longest, or the next that comes. Where that can't be accepted, it
    /// is counted, and a server that stays waits for the next one a little later; a bounded one takes no further one.
    /// None once a stop was asked for: the connection that came meanwhile is turned away.
    pub fn next<R: Wait + Clock>(
        &mut self,
        rt: &R,
        counters: &SessionCounters,
    ) -> Option<TcpStream> {
        for _ in rt.forever() {
            if is_closed(self.lifetime, counters.accepted_all(), self.is_stopped()) {
                return None;
            }
            if let Some(stream) = self.waiting.take_oldest() {
                return Some(stream);
            }
            let came = self.accept(counters);
            match deed_for(self.lifetime, came, self.is_stopped()) {
                Deed::Serve(stream) => return Some(stream),
                Deed::TurnAway(stream) => {
                    turn_away(stream);
                    return None;
                }
                Deed::TryAgain => thread::sleep(rt, Duration::from_millis(PAUSE_MILLIS)),
                Deed::End => return None,
            }
        }
        unreachable!()
    }

    /// While nobody waits at the acceptor: what came is accepted and waits, and what has waited for too long is turned
    /// away, as all are after a stop. Before a stop a tenth of a second passes between two rounds of that. How many
    /// wait after a round.
    pub(crate) fn receive<R: Clock>(&mut self, rt: &R, counters: &SessionCounters) -> usize {
        let is_stopped = self.is_stopped();
        if !is_stopped && !self.is_round_over(rt) {
            return 0;
        }
        self.admit_all(counters);
        for _ in 0..MOST_WAITING {
            match self.waiting.next_due(is_stopped) {
                Some(stream) => turn_away(stream),
                None => break,
            }
        }
        self.waiting.end_round();
        self.round_ended_at = Instant::now(rt).ok();
        self.waiting.len()
    }

    // Whether so much time has passed since the last round, or the clock doesn't tell.
    fn is_round_over<R: Clock>(&self, rt: &R) -> bool {
        match self.round_ended_at {
            Some(at) => at.elapsed(rt).map_or(true, |past| past >= round_length()),
            None => true,
        }
    }

    // Accepts what came so far.
    fn admit_all(&mut self, counters: &SessionCounters) {
        if self.endpoint.set_nonblocking(true).is_err() {
            return;
        }
        for _ in 0..MOST_EACH_ROUND {
            match self.endpoint.accept() {
                Ok(stream) => {
                    if let Some(gone) = self.waiting.enter(stream) {
                        turn_away(gone);
                    }
                }
                Err(fault) => {
                    if fault.kind() != ErrorKind::WouldBlock {
                        counters.note_refusal(fault.raw_os_error());
                    }
                    break;
                }
            }
        }
        let _ = self.endpoint.set_nonblocking(false);
    }

    fn accept(&self, counters: &SessionCounters) -> Came<TcpStream> {
        match self.endpoint.accept() {
            Ok(stream) => Came::Connection(stream),
            Err(fault) => {
                counters.note_refusal(fault.raw_os_error());
                Came::Failure
            }
        }
    }

    fn is_stopped(&self) -> bool {
        self.is_stopped.load(Ordering::SeqCst)
    }
}
