//! Where sessions wait that have nothing begun: while one of them has the store to itself, and for a ticket.

ghost use Rattle.std.specs.Prelude.{◌≡◌, ◌≢◌, ◌<◌, ◌≤◌, IfOk};
ghost use Rattle.am_serve_connections.specs.declared.turnstile.HoldReply.{HoldReply};
ghost use Rattle.am_serve_connections.specs.Connections.{AreToldAtOnce};
ghost use Rattle.am_serve_connections.specs.Turnstiles.{mark_of, mark_number};

use crate::connections::{Connections, ServedSession};
use crate::line::{Asked, Grant, Holder, Line, NAP_MICROS, Waiter};
use crate::tickets::{PATIENCE_MICROS, TicketLine, Tickets, patience_end, rest_of};
use std::alloc::{AllocError, Global};
use std::marker::Model;
use std::rt::Clock;
use std::sync::atomic::{AtomicBool, AtomicU64, Ordering};
use std::sync::{Mutex, Wait};
use std::time::{Duration, Instant};

const MICROS_A_MILLI: u64 = 1000;

/// What one hears that would hold.
#[derive(Clone, Copy, PartialEq, Eq)]
pub enum HoldReply {
    /// It holds.
    Holds,
    /// Nobody may hold for so long.
    TooLong,
    /// It doesn't: this session holds, or has a transaction that didn't end in time.
    KeptBy(u64),
}

// What stands in a word for a number: never 0, which stands for none.
pub(crate) fn mark_of(number: u64) -> u64
    ensures { result ≡ mark_of number }
{
    number.saturating_add(1)
}

pub(crate) fn number_in(mark: u64) -> Option<u64>
    ensures { result ≡ mark_number mark }
{
    mark.checked_sub(1)
}

/// The place of a seat at a turnstile.
#[derive(Drop)]
struct Place {
    // Who is inside there: who has a turn, or a transaction. Who waits is not, and is once it is its turn.
    inside: AtomicU64,
    // Only rises: who sleeps there sleeps at a value of it.
    calls: AtomicU64,
    // Whether who is there begins a transaction, or has one, or waits for the ticket.
    has_ticket: AtomicBool,
}

impl Place {
    // Whoever sleeps there looks again.
    fn call(&self) {
        self.calls.fetch_add(1, Ordering::SeqCst);
        self.calls.wake_all();
    }

    // Sleeps until somebody calls after so many calls, for so many microseconds at most.
    fn sleep<R: Wait>(&self, rt: &R, calls: u64, micros: u64) {
        self.calls.park_timeout(
            rt,
            (calls % (1 << 32)) as u32,
            Duration::from_micros(micros),
        );
    }
}

/// Who holds and who waits for a turn, and who waits for a ticket.
#[derive(Drop)]
struct Lines {
    turns: Line,
    tickets: TicketLine,
}

/// Keeps sessions from their turns while one of them holds, and those that begin from their transactions while 64 are
/// active.
///
/// Who would hold says so first, and then looks who is inside. Who goes in says so first, and then looks who holds. So
/// of two that come together at least one sees the other.
///
/// Where others are inside for long, who would hold keeps those that come out for a part of its time alone, and lets
/// them in between. A wait ends with its session: who waits looks every tenth of a second whether that was ended.
///
/// The turn comes first, and then the ticket. A session that waits for a ticket is outside, so it keeps nobody from
/// holding, and is inside again as it gets one. No ticket is given while anybody holds. So all are free for who holds,
/// once no other is inside.
#[derive(Drop)]
pub struct Turnstile {
    places: Vec<Place>,
    lines: Mutex<Lines>,
    tickets: Tickets,
    // The place that keeps others out, and 1, or 0: as in the line, for those that only look.
    held_at: AtomicU64,
    is_open: AtomicBool,
    // For so many milliseconds one may hold.
    longest: u64,
    began_at: Option<Instant>,
}

/// Seen as how many milliseconds one may hold at most.
impl Model for Turnstile {
    ghost use Rattle.std.specs.Prelude.{ℕ};
    ghost use Rattle.std.specs.Coded.{coded_ℕ};

    ghost Value = { ℕ };

    ghost coded = { coded_ℕ };

    ghost view = { λ t. t.longest };
}

impl Turnstile {
    /// Nobody is inside of any of so many places, holds or waits.
    pub(crate) fn new<R: Clock>(
        rt: &R,
        alloc: Global,
        count: usize,
        longest: u64,
    ) -> Result<Turnstile, AllocError>
        ensures { IfOk result (λ turnstile. turnstile ≡ longest) }
    {
        let mut places = Vec::with_capacity(alloc, count)?;
        for _ in 0..count {
            places.push(Place {
                inside: AtomicU64::new(0),
                calls: AtomicU64::new(0),
                has_ticket: AtomicBool::new(false),
            })?;
        }
        let turns = Line::new(alloc)?;
        let tickets = TicketLine::new(alloc)?;
        Ok(Turnstile {
            places,
            lines: Mutex::new(Lines { turns, tickets }),
            tickets: Tickets::new(),
            held_at: AtomicU64::new(0),
            is_open: AtomicBool::new(false),
            longest,
            began_at: Instant::now(rt).ok(),
        })
    }

    /// Returns once the session at this place has its turn: while no other holds, after those that waited before it.
    /// Where the session was ended meanwhile it waits no longer.
    pub fn await_turn<R: Wait + Clock>(
        &self,
        rt: &R,
        place: usize,
        session: u64,
        connections: &Connections,
    ) {
        let Some(here) = self.places.get(place) else {
            return;
        };
        let waiter = Waiter { place, session };
        if self.may_go_in(here, session) || self.enter_or_join(rt, here, waiter) {
            return;
        }
        for _ in rt.forever() {
            let calls = here.calls.load(Ordering::SeqCst);
            if here.inside.load(Ordering::SeqCst) != 0 {
                return;
            }
            if connections.is_ended(place) {
                self.leave(rt, place);
                return;
            }
            let nap = self.nap(rt);
            here.sleep(rt, calls, nap);
        }
    }

    // Says that the session is inside, and looks whether it may stay there at once.
    fn may_go_in(&self, here: &Place, session: u64) -> bool {
        here.inside.store(mark_of(session), Ordering::SeqCst);
        self.held_at.load(Ordering::SeqCst) == 0
    }

    // Whether who is inside may stay there. Else it is outside again, and waits in the line.
    fn enter_or_join<R: Wait + Clock>(&self, rt: &R, here: &Place, waiter: Waiter) -> bool {
        let mut lines = self.lines.lock(rt);
        lines.turns.look(self.now(rt));
        self.let_go_on(&mut lines);
        if !lines.turns.is_kept(waiter.place) || !lines.turns.join(waiter) {
            return true;
        }
        self.go_out(here);
        false
    }

    // Who stands at this place waits for its turn no more.
    fn leave<R: Wait>(&self, rt: &R, place: usize) {
        self.lines.lock(rt).turns.leave(place);
    }

    // How many microseconds one that waits sleeps. A hold whose time is over ends here.
    fn nap<R: Wait + Clock>(&self, rt: &R) -> u64 {
        let now = self.now(rt);
        let mut lines = self.lines.lock(rt);
        lines.turns.look(now);
        self.let_go_on(&mut lines);
        lines.turns.nap(now)
    }

    /// Returns once the session at this place, which has its turn, may begin a transaction: once it has a ticket, as it
    /// has at once where fewer than 64 are taken and nobody waits. It waits after those that came before it, for a
    /// second at most in which nobody holds, and then takes one too many, as it does where the session was ended.
    pub fn await_ticket<R: Wait + Clock>(
        &self,
        rt: &R,
        place: usize,
        session: u64,
        connections: &Connections,
    ) {
        let Some(here) = self.places.get(place) else {
            return;
        };
        here.has_ticket.store(true, Ordering::SeqCst);
        let waiter = Waiter { place, session };
        if self.tickets.try_take() || self.take_or_join(rt, here, waiter) {
            return;
        }
        let mut end = self.now(rt).saturating_add(PATIENCE_MICROS);
        for _ in rt.forever() {
            let calls = here.calls.load(Ordering::SeqCst);
            let gives_up = connections.is_ended(place) || self.is_open.load(Ordering::SeqCst);
            let Some(nap) = self.ticket_nap(rt, here, waiter, gives_up, &mut end) else {
                return;
            };
            here.sleep(rt, calls, nap.min(NAP_MICROS));
        }
    }

    // Whether who is inside has a ticket at once, as who holds does. Else it is outside, and waits for one.
    fn take_or_join<R: Wait + Clock>(&self, rt: &R, here: &Place, waiter: Waiter) -> bool {
        let mut lines = self.lines.lock(rt);
        lines.turns.look(self.now(rt));
        if lines.turns.is_holder(waiter.place) || !lines.tickets.join(waiter) {
            self.tickets.take();
            return true;
        }
        self.tickets.count(&lines.tickets);
        self.go_out(here);
        self.let_go_on(&mut lines);
        false
    }

    // How many microseconds one that waits for a ticket sleeps. None once it has one, be it one too many: then it is
    // inside.
    fn ticket_nap<R: Wait + Clock>(
        &self,
        rt: &R,
        here: &Place,
        waiter: Waiter,
        gives_up: bool,
        end: &mut u64,
    ) -> Option<u64> {
        let now = self.now(rt);
        let mut lines = self.lines.lock(rt);
        lines.turns.look(now);
        self.let_go_on(&mut lines);
        if here.inside.load(Ordering::SeqCst) != 0 {
            return None;
        }
        let is_held = lines.turns.is_shut();
        *end = patience_end(is_held, now, *end);
        match rest_of(now, *end) {
            Some(rest) if !gives_up => Some(if is_held { lines.turns.nap(now) } else { rest }),
            _ => {
                lines.tickets.leave(waiter.place);
                self.tickets.count(&lines.tickets);
                self.tickets.take();
                here.inside.store(mark_of(waiter.session), Ordering::SeqCst);
                None
            }
        }
    }

    /// Whether a session at this place that has no transaction active would wait for its turn, or to begin.
    pub fn is_kept(&self, place: usize) -> bool {
        let held_at = self.held_at.load(Ordering::SeqCst);
        (held_at != 0 && held_at != mark_of(place as u64)) || self.tickets.are_gone()
    }

    /// The session at this place has no turn any more, and no transaction, and so no ticket.
    pub fn end_turn<R: Wait>(&self, rt: &R, place: usize) {
        if let Some(here) = self.places.get(place) {
            self.give_ticket_back(rt, here);
            self.go_out(here);
        }
    }

    // Who has waited longest has it next.
    fn give_ticket_back<R: Wait>(&self, rt: &R, here: &Place) {
        if here.has_ticket.swap(false, Ordering::SeqCst) && self.tickets.give_back() {
            let mut lines = self.lines.lock(rt);
            self.let_go_on(&mut lines);
        }
    }

    // It is outside. Who would hold looks again.
    fn go_out(&self, here: &Place) {
        here.inside.store(0, Ordering::SeqCst);
        let held_at = number_in(self.held_at.load(Ordering::SeqCst));
        if let Some(place) = held_at.and_then(|place| usize::try_from(place).ok())
            && let Some(holder) = self.places.get(place)
        {
            holder.call();
        }
    }

    /// Has the session at this place hold for so many milliseconds, as soon as no other is inside. It isn't inside
    /// itself. Where it holds already that ends first, and those that wait go on before. Where its client is gone, or
    /// sends no more, it gives way.
    pub fn hold<R: Wait + Clock>(
        &self,
        rt: &R,
        place: usize,
        session: u64,
        millis: u64,
        connections: &Connections,
    ) -> HoldReply
        ensures long { self.now < millis → result ≡ HoldReply.TooLong }
        ensures short { millis ≤ self.now → result ≢ HoldReply.TooLong }
    {
        if millis > self.longest {
            return HoldReply::TooLong;
        }
        let Some(here) = self.places.get(place) else {
            return HoldReply::KeptBy(session);
        };
        let micros = millis.saturating_mul(MICROS_A_MILLI);
        match self.begin_hold(rt, place, session, micros) {
            Some(other) => HoldReply::KeptBy(other),
            None => self.await_hold(rt, here, Waiter { place, session }, connections),
        }
    }

    // The session is to hold, from its line on, unless another does, which is told. Those that waited go on before.
    fn begin_hold<R: Wait + Clock>(
        &self,
        rt: &R,
        place: usize,
        session: u64,
        micros: u64,
    ) -> Option<u64> {
        let mut lines = self.lines.lock(rt);
        let now = self.now(rt);
        lines.turns.look(now);
        self.let_go_on(&mut lines);
        // (where it held itself, and others waited, these are gone after the first time)
        for _ in 0..2 {
            if self.is_open.load(Ordering::SeqCst) {
                return Some(session);
            }
            let asked = lines
                .turns
                .hold_anew(Holder::new(place, session, now, micros));
            self.let_go_on(&mut lines);
            match asked {
                Asked::KeptBy(other) => return Some(other),
                Asked::Asks => return None,
                Asked::OthersFirst => {}
            }
        }
        Some(session)
    }

    // Waits until nobody else is inside, for as long at most as the session asks, and then holds for as long.
    fn await_hold<R: Wait + Clock>(
        &self,
        rt: &R,
        here: &Place,
        holder: Waiter,
        connections: &Connections,
    ) -> HoldReply
        ensures { result ≢ HoldReply.TooLong }
    {
        for _ in rt.forever() {
            let calls = here.calls.load(Ordering::SeqCst);
            match self.grant(rt, holder.place) {
                Grant::Holds => return HoldReply::Holds,
                Grant::InVain(session) => return HoldReply::KeptBy(session),
                Grant::Gone => return HoldReply::KeptBy(holder.session),
                Grant::AsksOn(_) if connections.is_gone(rt, holder.place) => {
                    let other = self.other_inside(holder.place);
                    self.give_way(rt, holder.place);
                    return HoldReply::KeptBy(other.unwrap_or(holder.session));
                }
                Grant::AsksOn(rest) => here.sleep(rt, calls, rest),
            }
        }
        unreachable!()
    }

    // Whether who would hold at this place does. It looks who is inside, once those are kept out that come.
    fn grant<R: Wait + Clock>(&self, rt: &R, place: usize) -> Grant {
        let other = self.other_inside(place);
        let mut lines = self.lines.lock(rt);
        let grant = lines.turns.grant(place, other, self.now(rt));
        self.let_go_on(&mut lines);
        grant
    }

    // Who holds at this place, or would, does no more.
    fn give_way<R: Wait>(&self, rt: &R, place: usize) {
        let mut lines = self.lines.lock(rt);
        lines.turns.release(place);
        self.let_go_on(&mut lines);
    }

    /// Where the session at this place holds, it does no more.
    pub fn end_hold<R: Wait>(&self, rt: &R, place: usize) {
        if self.held_at.load(Ordering::SeqCst) == mark_of(place as u64) {
            self.give_way(rt, place);
        }
    }

    /// Says of these sessions how they stand, all at one moment.
    pub fn tell<R: Wait + Clock>(&self, rt: &R, sessions: &mut [ServedSession])
        ensures { AreToldAtOnce sessions.old sessions.new }
    {
        let mut lines = self.lines.lock(rt);
        lines.turns.look(self.now(rt));
        self.let_go_on(&mut lines);
        lines.turns.tell(sessions);
    }

    /// Nobody holds any more, and nobody will: sessions that wait here end as others do.
    pub fn open<R: Wait>(&self, rt: &R) {
        self.is_open.store(true, Ordering::SeqCst);
        let mut lines = self.lines.lock(rt);
        lines.turns.release_any();
        self.let_go_on(&mut lines);
        for place in &self.places {
            place.call();
        }
    }

    // Says who keeps others out. While nobody does, lets those that wait go on, in the order in which they came: they
    // are inside before anybody can hold again.
    fn let_go_on(&self, lines: &mut Lines) {
        let shut_by = lines.turns.shut_by();
        self.held_at.store(
            shut_by.map_or(0, |place| mark_of(place as u64)),
            Ordering::SeqCst,
        );
        let is_held = shut_by.is_some();
        for _ in 0..self.places.len() {
            let Some(waiter) = self.tickets.take_for_next(&mut lines.tickets, is_held) else {
                break;
            };
            self.let_in(waiter);
        }
        for _ in 0..self.places.len() {
            let Some(waiter) = lines.turns.next() else {
                return;
            };
            self.let_in(waiter);
        }
    }

    fn let_in(&self, waiter: Waiter) {
        if let Some(place) = self.places.get(waiter.place) {
            place
                .inside
                .store(mark_of(waiter.session), Ordering::SeqCst);
            place.call();
        }
    }

    // A session that is inside at another place.
    fn other_inside(&self, place: usize) -> Option<u64> {
        for (other, spot) in self.places.iter().enumerate() {
            let inside = number_in(spot.inside.load(Ordering::SeqCst));
            if other != place && inside.is_some() {
                return inside;
            }
        }
        None
    }

    // How many microseconds the turnstile is old. Where the clock doesn't tell all time is over.
    fn now<R: Clock>(&self, rt: &R) -> u64 {
        let age = self.began_at.and_then(|at| at.elapsed(rt).ok());
        age.map_or(u64::MAX, |age| {
            u64::try_from(age.as_micros()).unwrap_or(u64::MAX)
        })
    }
}
