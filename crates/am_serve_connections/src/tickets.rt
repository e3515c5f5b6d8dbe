//! Tickets of transactions: a session has one from its Begin on, and there are 64.

ghost use Rattle.std.specs.Prelude.{◌≡◌, ◌≤◌, ◌==◌, [], length, nat_lt, IfOk};
ghost use Rattle.std.specs.VecDeque.{deque_capacity, deque_len};
ghost use Rattle.am_serve_connections.specs.Tickets.{has_free, patience_end, time_left, served_of, unserved_of};
ghost use Rattle.am_serve_connections.specs.Tickets.{without};
ghost use Rattle.am_serve_connections.specs.Turnstiles.{joined_by};

use crate::line::Waiter;
use std::alloc::{AllocError, Global};
use std::collections::VecDeque;
use std::sync::atomic::{AtomicU64, Ordering};

/// So many transactions of a store are active at most.
const MOST_TICKETS: u64 = 64;

/// So many sessions at most are served at once.
const MOST_PLACES: usize = 512;

/// So long one waits at most while nobody holds, in microseconds.
pub(crate) const PATIENCE_MICROS: u64 = 1_000_000;

// Whether one more is free where so many are taken.
fn is_free(taken: u64) -> bool
    ensures { result ≡ has_free taken }
{
    taken < MOST_TICKETS
}

/// By when one gives up that waits: no part of its second passes while somebody holds.
pub(crate) fn patience_end(is_held: bool, now: u64, end: u64) -> u64
    ensures { result ≡ patience_end is_held now end }
{
    if is_held {
        now.saturating_add(PATIENCE_MICROS)
    } else {
        end
    }
}

/// How long one waits on that gives up then. None once it is so late.
pub(crate) fn rest_of(now: u64, end: u64) -> Option<u64>
    ensures { result ≡ time_left now end }
{
    if end <= now { None } else { Some(end - now) }
}

/// Who waits for a ticket, in the order in which they came.
#[derive(Drop)]
pub(crate) struct TicketLine {
    waiting: VecDeque<Waiter, Global>,
    ghost room: { 512 ≤ deque_capacity waiting },
    ghost few: { deque_len waiting ≤ 512 },
}

impl TicketLine {
    /// Nobody waits. The room for all that ever do is got here.
    pub(crate) fn new(alloc: Global) -> Result<TicketLine, AllocError>
        ensures none { IfOk result (λ line. line.waiting.items ≡ []) }
    {
        let waiting = VecDeque::with_capacity(alloc, MOST_PLACES)?;
        Ok(TicketLine { waiting })
    }

    /// How many wait.
    pub(crate) fn len(&self) -> usize
        ensures { result ≡ length self.now.waiting.items }
    {
        self.waiting.len()
    }

    /// One more waits, after the others. Takes no memory; whether there was room.
    pub(crate) fn join(&mut self, waiter: Waiter) -> bool
        ensures room { result ≡ nat_lt (length self.old.waiting.items) 512 }
        ensures waits { self.new.waiting.items ≡ joined_by self.old.waiting.items waiter }
    {
        if self.waiting.len() >= MOST_PLACES {
            return false;
        }
        self.waiting.push_back_reserved(waiter);
        true
    }

    /// Who stands at this place waits no more.
    pub(crate) fn leave(&mut self, place: usize)
        ensures left { self.new.waiting.items ≡ without place self.old.waiting.items }
    {
        self.waiting.retain(|waiter| waiter.place != place);
    }

    /// Who gets the next ticket where so many are taken: nobody while anybody holds, and else who has waited longest,
    /// and waits no more.
    pub(crate) fn next(&mut self, is_held: bool, taken: u64) -> Option<Waiter>
        ensures next { result ≡ served_of is_held taken self.old.waiting.items }
        ensures left { self.new.waiting.items ≡ unserved_of is_held taken self.old.waiting.items }
    {
        if is_held || !is_free(taken) {
            return None;
        }
        self.waiting.pop_front()
    }
}

/// How many tickets are taken, and how many sessions wait for one.
///
/// Who gives one back does so first, and then looks who waits. Who waits says so first, and then looks what is free. So
/// of two that come together at least one sees the other, and where nobody waits no lock is taken.
#[derive(Drop)]
pub(crate) struct Tickets {
    taken: AtomicU64,
    awaited: AtomicU64,
}

impl Tickets {
    /// All are free.
    pub(crate) fn new() -> Tickets {
        Tickets {
            taken: AtomicU64::new(0),
            awaited: AtomicU64::new(0),
        }
    }

    /// Takes one, where one is free that nobody waits for.
    pub(crate) fn try_take(&self) -> bool {
        if self.awaited.load(Ordering::SeqCst) != 0 {
            return false;
        }
        if is_free(self.taken.fetch_add(1, Ordering::SeqCst)) {
            return true;
        }
        self.taken.fetch_sub(1, Ordering::SeqCst);
        false
    }

    /// Takes one, be it one too many.
    pub(crate) fn take(&self) {
        self.taken.fetch_add(1, Ordering::SeqCst);
    }

    /// Gives one back. Whether anybody waits for it.
    pub(crate) fn give_back(&self) -> bool {
        self.taken.fetch_sub(1, Ordering::SeqCst);
        self.awaited.load(Ordering::SeqCst) != 0
    }

    /// Whether one that would have a ticket waits for it.
    pub(crate) fn are_gone(&self) -> bool {
        self.awaited.load(Ordering::SeqCst) != 0 || !is_free(self.taken.load(Ordering::SeqCst))
    }

    /// Says how many wait.
    pub(crate) fn count(&self, line: &TicketLine) {
        self.awaited.store(line.len() as u64, Ordering::SeqCst);
    }

    /// Takes one for who gets the next, if anybody does.
    pub(crate) fn take_for_next(&self, line: &mut TicketLine, is_held: bool) -> Option<Waiter> {
        let taken = self.taken.fetch_add(1, Ordering::SeqCst);
        let next = line.next(is_held, taken);
        if next.is_none() {
            self.taken.fetch_sub(1, Ordering::SeqCst);
        }
        self.count(line);
        next
    }
}
