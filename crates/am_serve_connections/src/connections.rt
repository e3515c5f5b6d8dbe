//! The connections that are open: which transaction each has, how long ago its last line came, and how it is cut.

ghost use Rattle.std.specs.Prelude.{◌≡◌, ◌≤◌, length, nat_eq, IfOk};
ghost use Rattle.am_serve_connections.specs.Connections.{idle_of, longer_idle, session_seen};

use crate::line::Standing;
use crate::turnstile::{mark_of, number_in};
use libc::net::{POLLERR, POLLHUP, POLLRDHUP, poll};
use libc::types::pollfd;
use std::alloc::{AllocError, Global};
use std::marker::Model;
use std::net::{Shutdown, TcpStream};
use std::ops::Range;
use std::os::fd::AsRawFd;
use std::rt::Clock;
use std::sync::atomic::{AtomicBool, AtomicU64, Ordering};
use std::sync::{Arc, Mutex, Wait};
use std::time::{Duration, Instant};

const MILLIS_A_SECOND: u64 = 1000;

/// So often, and each time for so long at most, who ends a session waits until it has left.
const LEAVE_NAPS: u32 = 10;

const LEAVE_NAP_MILLIS: u64 = 100;

/// A session that is served.
#[derive(Clone, Copy, PartialEq, Eq)]
pub struct ServedSession {
    pub session: u64,
    /// The transaction that is active there, if one is.
    pub tx: Option<u64>,
    /// How many whole seconds ago its last line came.
    pub seconds: u64,
    pub standing: Standing,
}

// What is told of a session, by what stands for its transaction, when its last line came and what time it is, both in
// milliseconds.
fn session_seen(session: u64, mark: u64, heard_at: u64, now: u64) -> ServedSession
    ensures { result ≡ session_seen session mark heard_at now }
{
    ServedSession {
        session,
        tx: number_in(mark),
        seconds: now.saturating_sub(heard_at) / MILLIS_A_SECOND,
        standing: Standing::Free,
    }
}

/// A session that has no transaction active, and from which no line came for so many milliseconds.
#[derive(Clone, Copy, PartialEq, Eq)]
struct IdleSession {
    place: usize,
    millis: u64,
}

// The session of a place where it may make way, by what stands for its transaction, and for how many milliseconds no
// line came: it has no transaction, and that is longer than the limit.
fn idle_of(place: usize, mark: u64, millis: u64, limit: u64) -> Option<IdleSession>
    ensures { result ≡ idle_of place mark millis limit }
{
    match number_in(mark) {
        None if limit < millis => Some(IdleSession { place, millis }),
        _ => None,
    }
}

// Which of two was idle longer.
fn longer_idle(one: Option<IdleSession>, other: Option<IdleSession>) -> Option<IdleSession>
    ensures { result ≡ longer_idle one other }
{
    match (one, other) {
        (Some(first), Some(second)) if first.millis < second.millis => Some(second),
        (None, second) => second,
        (first, _) => first,
    }
}

pub(crate) fn millis_of(duration: Duration) -> u64 {
    u64::try_from(duration.as_millis()).unwrap_or(u64::MAX)
}

// Whether the other side has closed the connection, or its half, or it is lost.
fn is_over(stream: &TcpStream) -> bool {
    let mut asked = [pollfd {
        fd: stream.as_raw_fd(),
        events: POLLRDHUP,
        revents: 0,
    }];
    poll(&mut asked, 0) > 0 && asked[0].revents & (POLLRDHUP | POLLHUP | POLLERR) != 0
}

/// A session that is served, and its connection.
#[derive(Drop)]
struct Entry {
    session: u64,
    stream: Arc<TcpStream, Global>,
}

impl Entry {
    // Cuts the connection, where it is this session's. Whether it is.
    fn cut(&self, session: u64) -> bool
        ensures { result ≡ nat_eq self.now.session session }
    {
        if self.session != session {
            return false;
        }
        let _ = self.stream.shutdown(Shutdown::Both);
        true
    }
}

/// The place of a session that is served.
#[derive(Drop)]
struct Place {
    // A number and a connection that belong together: nobody is taken for who came later.
    entry: Mutex<Option<Entry>>,
    // The active transaction there, as a mark.
    tx: AtomicU64,
    // When the last line came, in milliseconds.
    heard_at: AtomicU64,
    // Whether another session ended the one that is there.
    is_ended: AtomicBool,
    // Only rises: who waits until the session has left sleeps at a value of it.
    leaves: AtomicU64,
    // Whether a session is there that wasn't ended for another.
    is_taken: AtomicBool,
    // Whether its session awaits its client: more bytes, or that it takes answers.
    is_awaiting: AtomicBool,
}

impl Place {
    fn new() -> Place {
        Place {
            entry: Mutex::new(None),
            tx: AtomicU64::new(0),
            heard_at: AtomicU64::new(0),
            is_ended: AtomicBool::new(false),
            leaves: AtomicU64::new(0),
            is_taken: AtomicBool::new(false),
            is_awaiting: AtomicBool::new(false),
        }
    }

    // The session there, where it may make way for another.
    fn idle(&self, place: usize, limit: u64, now: u64) -> Option<IdleSession> {
        if !self.is_taken.load(Ordering::SeqCst) || !self.is_awaiting.load(Ordering::SeqCst) {
            return None;
        }
        idle_of(
            place,
            self.tx.load(Ordering::SeqCst),
            now.saturating_sub(self.heard_at.load(Ordering::SeqCst)),
            limit,
        )
    }

    // Cuts the connection, where the session there may still make way. Whether it may.
    fn make_way<R: Wait>(&self, rt: &R, limit: u64, now: u64) -> bool {
        let entry = self.entry.lock(rt);
        match &*entry {
            Some(here) if self.idle(0, limit, now).is_some() => {
                self.is_taken.store(false, Ordering::SeqCst);
                let _ = here.stream.shutdown(Shutdown::Both);
                true
            }
            _ => false,
        }
    }

    // Cuts the connection, where it is this session's. How often the place was left until then.
    fn cut<R: Wait>(&self, rt: &R, session: u64) -> Option<u64> {
        let entry = self.entry.lock(rt);
        match &*entry {
            Some(here) if here.cut(session) => {
                self.is_ended.store(true, Ordering::SeqCst);
                Some(self.leaves.load(Ordering::SeqCst))
            }
            _ => None,
        }
    }

    // Whether the session was ended, or nothing more comes of its client.
    fn is_gone<R: Wait>(&self, rt: &R) -> bool {
        let entry = self.entry.lock(rt);
        let is_over = entry.as_ref().is_some_and(|here| is_over(&here.stream));
        is_over || self.is_ended.load(Ordering::SeqCst)
    }

    // Returns once the place is left again after so many times, or a second later.
    fn await_leave<R: Wait>(&self, rt: &R, leaves: u64) {
        for _ in 0..LEAVE_NAPS {
            if self.leaves.load(Ordering::SeqCst) != leaves {
                return;
            }
            self.leaves.park_timeout(
                rt,
                (leaves % (1 << 32)) as u32,
                Duration::from_millis(LEAVE_NAP_MILLIS),
            );
        }
    }

    fn served<R: Wait>(&self, rt: &R, now: u64) -> Option<ServedSession> {
        let entry = self.entry.lock(rt);
        let session = entry.as_ref()?.session;
        Some(session_seen(
            session,
            self.tx.load(Ordering::SeqCst),
            self.heard_at.load(Ordering::SeqCst),
            now,
        ))
    }
}

/// One place for each session that is served at once, seen as how many there are.
#[derive(Drop)]
pub struct Connections {
    places: Vec<Place>,
    is_cut: AtomicBool,
    began_at: Option<Instant>,
}

impl Model for Connections {
    ghost use Rattle.std.specs.Prelude.{ℕ, length};
    ghost use Rattle.std.specs.Coded.{coded_ℕ};

    ghost Value = { ℕ };

    ghost coded = { coded_ℕ };

    ghost view = { λ c. length c.places.items };
}

impl Connections {
    pub(crate) fn new<R: Clock>(
        rt: &R,
        alloc: Global,
        count: usize,
    ) -> Result<Connections, AllocError>
        ensures { IfOk result (λ connections. connections ≡ count) }
    {
        let mut places = Vec::with_capacity(alloc, count)?;
        for _ in 0..count {
            places.push(Place::new())?;
        }
        Ok(Connections {
            places,
            is_cut: AtomicBool::new(false),
            began_at: Instant::now(rt).ok(),
        })
    }

    /// How many places there are.
    pub fn count(&self) -> usize
        ensures { result ≡ self.now }
    {
        self.places.len()
    }

    /// The session's connection is at this place now, which counts as its first line. Where all are cut, it is cut too.
    pub fn enter<R: Wait + Clock>(
        &self,
        rt: &R,
        place: usize,
        session: u64,
        stream: Arc<TcpStream, Global>,
    ) {
        if let Some(here) = self.places.get(place) {
            let mut entry = here.entry.lock(rt);
            here.is_ended.store(false, Ordering::SeqCst);
            *entry = Some(Entry { session, stream });
            here.heard_at.store(self.now(rt), Ordering::SeqCst);
            here.is_taken.store(true, Ordering::SeqCst);
        }
        if self.is_cut.load(Ordering::SeqCst) {
            self.cut_all(rt);
        }
    }

    /// The place is empty.
    pub fn leave<R: Wait>(&self, rt: &R, place: usize) {
        if let Some(here) = self.places.get(place) {
            *here.entry.lock(rt) = None;
            here.is_taken.store(false, Ordering::SeqCst);
            here.is_awaiting.store(false, Ordering::SeqCst);
            here.leaves.fetch_add(1, Ordering::SeqCst);
            here.leaves.wake_all();
        }
    }

    /// The session at this place has this transaction from now on, or none.
    pub fn set_transaction(&self, place: usize, tx: Option<u64>) {
        if let Some(here) = self.places.get(place) {
            here.tx.store(tx.map_or(0, mark_of), Ordering::SeqCst);
        }
    }

    /// Whether another session ended the one at this place. None of its lines is taken then.
    pub fn is_ended(&self, place: usize) -> bool {
        self.places
            .get(place)
            .is_some_and(|here| here.is_ended.load(Ordering::SeqCst))
    }

    /// Whether the session at this place was ended, or nothing more comes of its client.
    pub(crate) fn is_gone<R: Wait>(&self, rt: &R, place: usize) -> bool {
        self.places.get(place).is_some_and(|here| here.is_gone(rt))
    }

    /// A line came at this place.
    pub(crate) fn hear<R: Clock>(&self, rt: &R, place: usize) {
        if let Some(here) = self.places.get(place) {
            here.heard_at.store(self.now(rt), Ordering::SeqCst);
        }
    }

    /// How many milliseconds ago the last line came at this place, as WHO tells it.
    pub(crate) fn waited<R: Clock>(&self, rt: &R, place: usize) -> u64 {
        let now = self.now(rt);
        match self.places.get(place) {
            Some(here) => now.saturating_sub(here.heard_at.load(Ordering::SeqCst)),
            None => 0,
        }
    }

    /// Whether the session at this place has a transaction active.
    pub(crate) fn has_transaction(&self, place: usize) -> bool {
        match self.places.get(place) {
            Some(here) => number_in(here.tx.load(Ordering::SeqCst)).is_some(),
            None => false,
        }
    }

    /// Whether the session at this place awaits its client from now on.
    pub(crate) fn set_awaiting(&self, place: usize, is_awaiting: bool) {
        if let Some(here) = self.places.get(place) {
            here.is_awaiting.store(is_awaiting, Ordering::SeqCst);
        }
    }

    // How many milliseconds old all this is at a moment. Where the clock doesn't tell, none.
    fn age_at(&self, at: Option<Instant>) -> u64 {
        match (self.began_at, at) {
            (Some(began), Some(at)) => millis_of(at.duration_since(began)),
            _ => 0,
        }
    }

    // What time it is, in milliseconds.
    fn now<R: Clock>(&self, rt: &R) -> u64 {
        self.age_at(Instant::now(rt).ok())
    }

    /// The sessions that are served, by their places. How each stands at a turnstile is for that.
    pub fn served<R: Wait + Clock>(
        &self,
        rt: &R,
        alloc: Global,
    ) -> Result<Vec<ServedSession>, AllocError>
        ensures few { IfOk result (λ served. length served.items ≤ self.now) }
    {
        let now = self.now(rt);
        let mut served = Vec::new(alloc);
        for place in &self.places {
            if let Some(session) = place.served(rt, now) {
                served.push(session)?;
            }
        }
        Ok(served)
    }

    /// Cuts the connection of the session of that number, and returns once that session has left, with its transaction
    /// aborted, or a second later where it waits itself. Whether there is one.
    pub fn end<R: Wait>(&self, rt: &R, session: u64) -> bool {
        for place in &self.places {
            if let Some(leaves) = place.cut(rt, session) {
                place.await_leave(rt, leaves);
                return true;
            }
        }
        false
    }

    /// Of the sessions at these places ends the one from which no line came for longest, where that is more than so
    /// many milliseconds: one that has no transaction active and awaits its client. Whether there is one.
    pub(crate) fn end_idlest<R: Wait + Clock>(
        &self,
        rt: &R,
        places: Range<usize>,
        limit: u64,
    ) -> bool {
        let now = self.now(rt);
        let mut idlest = None;
        for place in places {
            if let Some(here) = self.places.get(place) {
                idlest = longer_idle(idlest, here.idle(place, limit, now));
            }
        }
        match idlest.and_then(|idle| self.places.get(idle.place)) {
            Some(here) => here.make_way(rt, limit, now),
            None => false,
        }
    }

    /// Cuts all connections, and those that come.
    pub fn cut_all<R: Wait>(&self, rt: &R) {
        self.is_cut.store(true, Ordering::SeqCst);
        for place in &self.places {
            if let Some(here) = &*place.entry.lock(rt) {
                let _ = here.stream.shutdown(Shutdown::Both);
            }
        }
    }
}
