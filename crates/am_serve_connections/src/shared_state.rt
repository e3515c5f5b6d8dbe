//! What the threads of a server share.

ghost use Rattle.std.specs.Prelude.{◌≡◌, ◌≤◌, ◌*◌, nat_le, is_some, if◌then◌else◌, IfOk, MatchOption};

use crate::acceptor::Acceptor;
use crate::connections::{Connections, millis_of};
use crate::endpoint::Endpoint;
use crate::lifetime::Lifetime;
use crate::pacer::MergePacer;
use crate::session_counters::SessionCounters;
use crate::turnstile::Turnstile;
use std::alloc::{AllocError, Global};
use std::ops::Range;
use std::rt::Clock;
use std::sync::atomic::{AtomicBool, Ordering};
use std::sync::{Mutex, Wait};
use std::time::Duration;

/// The endpoints of a server.
#[derive(Clone, Copy)]
pub struct Endpoints<'a> {
    /// The only one, or the first of two.
    pub first: &'a Endpoint,
    /// The second one, where there is one.
    pub second: Option<&'a Endpoint>,
}

impl<'a> Endpoints<'a> {
    /// How many seats there are, where each endpoint has so many.
    pub fn seats(self, sessions: u64) -> u64
        requires { sessions ≤ 256 }
        ensures { result ≡ (if is_some self.entry.second then 2 * sessions else sessions) }
    {
        match self.second {
            Some(_) => 2 * sessions,
            None => sessions,
        }
    }
}

/// What a session may take of a server's time, and how many runs workers leave.
#[derive(Clone, Copy)]
pub struct Limits {
    /// How long a session may be idle, where that is limited.
    pub idle: Option<Duration>,
    /// How long a transaction may be active while no line of its session comes, where that is limited.
    pub lapse: Option<Duration>,
    /// How long a session without a transaction may be idle while others want its seat, where that is limited.
    pub idle_seat: Option<Duration>,
    /// For how many milliseconds at most a session may hold.
    pub hold: u64,
    /// Above how many runs workers merge what nobody asked for; never, where it is 0.
    pub runs: u64,
}

/// What the threads of a server share, but for its store.
#[derive(Drop)]
pub struct SharedState<'a> {
    first: Mutex<Acceptor<'a>>,
    second: Option<Mutex<Acceptor<'a>>>,
    /// How many seats each endpoint has.
    pub seats: usize,
    /// Gives workers their turns.
    pub pacer: MergePacer,
    /// The connections that are open, by the places of their seats.
    pub connections: Connections,
    /// Where sessions wait while one of them holds, by the places of their seats.
    pub turnstile: Turnstile,
    /// What is counted of sessions.
    pub session_counters: SessionCounters,
    /// How long it serves.
    pub lifetime: Lifetime,
    /// How long a session may be idle, where that is limited.
    pub idle: Option<Duration>,
    /// How long a transaction may be active while no line of its session comes, where that is limited.
    pub lapse: Option<Duration>,
    /// How long a session without a transaction may be idle while others want its seat, where that is limited.
    pub idle_seat: Option<Duration>,
    /// Above how many runs workers merge what nobody asked for; never, where it is 0.
    pub runs: u64,
    is_stopped: &'a AtomicBool,
    all_ended: AtomicBool,
}

// Whether the seat of this place is at the second endpoint, where there is one: so many before it are at the first.
fn is_behind(seats: usize, place: usize) -> bool
    ensures { result ≡ nat_le seats place }
{
    place >= seats
}

// Where a thread waits at the acceptor a seat is free, and nothing is done. How many wait there for a seat.
fn receive_at<R: Clock>(
    rt: &R,
    acceptor: &Mutex<Acceptor<'_>>,
    counters: &SessionCounters,
) -> usize {
    match acceptor.try_lock() {
        Some(mut held) => held.receive(rt, counters),
        None => 0,
    }
}

// The places of the seats at the second endpoint or the first, which has so many of them all.
fn places_at(seats: usize, all: usize, is_second: bool) -> Range<usize>
    ensures { (result.start ≡ (if is_second then seats else 0)) ×
        (result.end ≡ (if is_second then all else seats)) }
{
    if is_second { seats..all } else { 0..seats }
}

impl<'a> SharedState<'a> {
    /// The shared state for so many sessions at once at each endpoint.
    ///
    /// # Errors
    /// Memory was refused.
    pub fn new<R: Clock>(
        rt: &R,
        alloc: Global,
        endpoints: Endpoints<'a>,
        is_stopped: &'a AtomicBool,
        sessions: u64,
        lifetime: Lifetime,
        limits: Limits,
    ) -> Result<SharedState<'a>, AllocError>
        requires { sessions ≤ 256 }
        ensures lifetime { IfOk result (λ shared. shared.lifetime ≡ lifetime) }
        ensures idle { IfOk result (λ shared. shared.idle ≡ limits.idle) }
        ensures lapse { IfOk result (λ shared. shared.lapse ≡ limits.lapse) }
        ensures idle_seat { IfOk result (λ shared. shared.idle_seat ≡ limits.idle_seat) }
        ensures runs { IfOk result (λ shared. shared.runs ≡ limits.runs) }
        ensures hold { IfOk result (λ shared. shared.turnstile ≡ limits.hold) }
        ensures seats { IfOk result (λ shared. shared.seats ≡ sessions) }
        ensures places { IfOk result (λ shared. shared.connections ≡
            (if is_some endpoints.entry.second then 2 * sessions else sessions)) }
        ensures second { IfOk result (λ shared. is_some shared.second ≡ is_some endpoints.entry.second) }
    {
        let second = match endpoints.second {
            Some(endpoint) => Some(Mutex::new(Acceptor::new(
                alloc, endpoint, is_stopped, lifetime,
            )?)),
            None => None,
        };
        let all = endpoints.seats(sessions);
        Ok(SharedState {
            first: Mutex::new(Acceptor::new(alloc, endpoints.first, is_stopped, lifetime)?),
            second,
            seats: sessions as usize,
            pacer: MergePacer::new(all),
            connections: Connections::new(rt, alloc, all as usize)?,
            turnstile: Turnstile::new(rt, alloc, all as usize, limits.hold)?,
            session_counters: SessionCounters::new(),
            lifetime,
            idle: limits.idle,
            lapse: limits.lapse,
            idle_seat: limits.idle_seat,
            runs: limits.runs,
            is_stopped,
            all_ended: AtomicBool::new(false),
        })
    }

    /// The acceptor at which the seat of this place waits.
    pub fn acceptor(&self, place: usize) -> &Mutex<Acceptor<'a>>
        ensures { MatchOption self.now.second (result.now ≡ self.now.first)
            (λ second. result.now ≡ (if nat_le self.now.seats place then second else self.now.first)) }
    {
        match &self.second {
            Some(second) if is_behind(self.seats, place) => second,
            _ => &self.first,
        }
    }

    /// In a server that stays: lets connections wait at the endpoints where no seat is free, for most of a second, and
    /// turns away those that have waited for so long, or any after a stop. For each that waits a session there is ended
    /// that was idle for too long. A thread that often asks for it has it done ten times a second.
    pub fn receive<R: Wait + Clock>(&self, rt: &R) {
        if !self.lifetime.stays() {
            return;
        }
        let waiting = receive_at(rt, &self.first, &self.session_counters);
        self.make_way(rt, waiting, false);
        if let Some(second) = &self.second {
            let waiting = receive_at(rt, second, &self.session_counters);
            self.make_way(rt, waiting, true);
        }
    }

    // At an endpoint ends so many sessions at most that were idle for too long, those first that were so longest.
    fn make_way<R: Wait + Clock>(&self, rt: &R, waiting: usize, is_second: bool) {
        let Some(limit) = self.idle_seat else {
            return;
        };
        for _ in 0..waiting {
            let places = places_at(self.seats, self.connections.count(), is_second);
            if !self.connections.end_idlest(rt, places, millis_of(limit)) {
                return;
            }
        }
    }

    /// Whether a stop was asked for.
    pub fn is_stopped(&self) -> bool {
        self.is_stopped.load(Ordering::SeqCst)
    }

    /// All sessions have ended.
    pub fn end(&self) {
        self.all_ended.store(true, Ordering::SeqCst);
        self.pacer.rounds.end();
    }

    /// Returns after a round of the drain: after a tenth of a second, or sooner where many lines were answered, many
    /// turns taken, or all sessions have ended. Answers whether they have.
    pub fn await_round<R: Wait>(&self, rt: &R) -> bool {
        self.pacer.rounds.await_end(rt);
        self.all_ended.load(Ordering::SeqCst)
    }
}
