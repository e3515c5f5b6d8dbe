//! The seats of one session at the server.

ghost use Rattle.std.specs.Prelude.{◌≡◌, ◌≤◌, ◌<◌, ℕ, Some, true, length};
ghost use Rattle.am_record.specs.Refusals.{may_make_run};
ghost use Rattle.am_record.specs.Limits.{max_runs};
ghost use Rattle.am_latch.specs.Receipts.{last_commit_of};
ghost use Rattle.am_serve_seat.specs.SessionSeats.{published, seat_meaning, HasDrawn, HasSameReceipts};

use crate::told::who;
use am_latch::{Latch, LatchName, Locked, Seat};
use am_latch_counters::{CounterSeat, Counters};
use am_line_dialogue::{EndAnswer, HoldAnswer, ToldSessions};
use am_line_session::Backend;
use am_line_wire::WhichSessions;
use am_record::{NoMemory, Op, Reply, Step};
use am_serve_connections::{Connections, HoldReply, MergePacer, Turnstile};
use std::alloc::Global;
use std::marker::Model;
use std::rt::Clock;
use std::sync::Wait;

/// A seat of a server that stays lets its receipts go once it holds so many, so that it is never full.
const MOST_HELD: usize = 1024;

/// The seats of one session: one of the latch, which all sessions step, one of the counters, the place at the turnstile
/// and among the connections of all, and the number that was drawn for the session. Workers are told of the runs that
/// it loads.
pub struct SessionSeat<'a, L: LatchName> {
    latch: &'a Latch<L>,
    counters: &'a Counters,
    seat: Seat<L>,
    counter_seat: CounterSeat,
    number: u64,
    turnstile: &'a Turnstile,
    connections: &'a Connections,
    pacer: &'a MergePacer,
    place: usize,
    // Whether the server stays: the seat lets receipts go as it works, and a transaction may lapse.
    stays: bool,
}

// By hand: a crate above then need not prove once more how a seat is dropped.
impl<'a, L: LatchName> Drop for SessionSeat<'a, L> {
    fn drop(self) {
        let SessionSeat {
            latch: _,
            counters: _,
            seat,
            counter_seat,
            number: _,
            turnstile: _,
            connections: _,
            pacer: _,
            place: _,
            stays: _,
        } = self;
        drop(seat);
        drop(counter_seat);
    }
}

impl<'a, L: LatchName> Model for SessionSeat<'a, L> {
    ghost use Rattle.std.specs.Prelude.{◌≡◌, ◌<◌, true};
    ghost use Rattle.am_record.specs.Limits.{max_runs};
    ghost use Rattle.std.specs.Coded.{codes};
    ghost use Rattle.am_latch.specs.Receipts.{seat_state_code};
    ghost use Rattle.am_serve_seat.specs.SessionSeats.{SessionSeatState};

    ghost Value = { SessionSeatState };

    ghost coded = { Prim.hlevel (codes, seat_state_code) };

    ghost view = { λ p. record { seat = p.seat; counter_seat = p.counter_seat; number = p.number } };

    ghost invariant = { λ p. (p.counter_seat.of ≡ p.counters.now) × (p.stays ≡ true → max_runs < L.most_runs) };
}

impl<'a, L: LatchName> SessionSeat<'a, L> {
    /// The session's number is not drawn yet. In a server that stays the seat lets receipts go as it works.
    pub fn new(
        latch: &'a Latch<L>,
        counters: &'a Counters,
        seat: Seat<L>,
        counter_seat: CounterSeat,
        turnstile: &'a Turnstile,
        connections: &'a Connections,
        pacer: &'a MergePacer,
        place: usize,
        stays: bool,
    ) -> SessionSeat<'a, L>
        requires counters { counter_seat.of ≡ counters.now }
        requires runs { stays ≡ true → max_runs < L.most_runs }
        ensures { result ≡ record { seat = seat; counter_seat = counter_seat; number = 0 } }
    {
        SessionSeat {
            latch,
            counters,
            seat,
            counter_seat,
            number: 0,
            turnstile,
            connections,
            pacer,
            place,
            stays,
        }
    }

    /// Draws the number of the session. Whether there was one: a seat has 2 ^ 50 draws.
    pub fn draw(&mut self) -> bool
        ensures { HasDrawn self.old result self.new }
    {
        match self.counters.draw(&mut self.counter_seat) {
            Some(number) => {
                self.number = number;
                true
            }
            None => false,
        }
    }

    /// The number of the session.
    pub fn number(&self) -> u64
        ensures { result ≡ self.now.number }
    {
        self.number
    }

    /// Lets the receipts of the latch's seat go: contracts know of them as before. Past 10^14 of them nothing happens.
    pub fn let_go(&mut self)
        ensures same { (self.new.number ≡ self.old.number) × (self.new.counter_seat ≡ self.old.counter_seat) ×
            (self.new.seat.number ≡ self.old.seat.number) × (self.new.seat.receipts ≡ self.old.seat.receipts) }
        ensures gone { self.old.seat.let_go ≤ 100000000000000 →
            self.new.seat.let_go ≡ length self.old.seat.receipts }
        ensures kept { 100000000000000 < self.old.seat.let_go → self.new ≡ self.old }
    {
        self.seat.let_go();
    }

    /// The seat of the latch, with its receipts.
    pub fn into_seat(self) -> Seat<L>
        ensures { result ≡ self.entry.seat }
    {
        let SessionSeat {
            latch: _,
            counters: _,
            seat,
            counter_seat,
            number: _,
            turnstile: _,
            connections: _,
            pacer: _,
            place: _,
            stays: _,
        } = self;
        drop(counter_seat);
        seat
    }
}

impl<'a, L: LatchName> Backend for SessionSeat<'a, L> {
    ghost means = { seat_meaning L.most_runs };

    // Who may is for the connections.
    ghost ended = { Unit {0} };

    // The latch.
    type Held = Locked<'a, L>;

    // A commit is published before anybody hears of it.
    fn call<W: Wait>(&mut self, rt: &W, held: &mut Option<Locked<'a, L>>, step: Step) -> Reply {
        let may_make_run = may_make_run(&step);
        hold_few(&mut self.seat, self.stays);
        let reply = self.seat.call_on(rt, self.latch, held, step);
        if may_make_run && reply == Reply::Done {
            self.pacer.add_work();
        }
        publish(self.counters, &mut self.counter_seat, &self.seat, &reply);
        note_transaction(self.connections, self.place, &reply);
        end_hold_behind(rt, self.turnstile, self.place, &reply);
        reply
    }

    fn seen(&mut self) -> (u64, u64) {
        let commits = self.counters.seen(&mut self.counter_seat);
        (self.number, commits)
    }

    fn hold<W: Wait + Clock>(&self, rt: &W, millis: u64) -> HoldAnswer {
        let turnstile = self.turnstile;
        match turnstile.hold(rt, self.place, self.number, millis, self.connections) {
            HoldReply::Holds => HoldAnswer::Granted,
            HoldReply::TooLong => HoldAnswer::OutOfBounds,
            HoldReply::KeptBy(session) => HoldAnswer::HeldBy(session),
        }
    }

    fn who<W: Wait + Clock>(
        &self,
        rt: &W,
        alloc: Global,
        which: WhichSessions,
        _held: &Option<Locked<'a, L>>,
    ) -> Result<ToldSessions, NoMemory> {
        who(rt, alloc, which, self.connections, self.turnstile)
    }

    fn end<W: Wait>(&self, rt: &W, session: u64, _held: &Option<Locked<'a, L>>) -> EndAnswer {
        if session == self.number {
            EndAnswer::EndsItself
        } else if self.connections.end(rt, session) {
            EndAnswer::Ends
        } else {
            EndAnswer::NoSession
        }
    }

    fn is_ended(&self) -> bool {
        self.connections.is_ended(self.place)
    }

    // Whether it does is for the clock, and for the limits of a server that stays.
    fn may_lapse(&self) -> bool {
        self.stays
    }

    fn await_turn<W: Wait + Clock>(&self, rt: &W) {
        self.turnstile
            .await_turn(rt, self.place, self.number, self.connections);
    }

    fn await_ticket<W: Wait + Clock>(&self, rt: &W) {
        self.turnstile
            .await_ticket(rt, self.place, self.number, self.connections);
    }

    fn is_kept(&self) -> bool {
        self.turnstile.is_kept(self.place)
    }

    fn end_turn<W: Wait>(&self, rt: &W) {
        self.turnstile.end_turn(rt, self.place);
    }

    fn end_session<W: Wait>(&self, rt: &W) {
        self.turnstile.end_turn(rt, self.place);
        self.turnstile.end_hold(rt, self.place);
    }
}

// Whether a step may make a run, which workers may merge.
fn may_make_run(step: &Step) -> bool
    ensures { (tx : ℕ) (op : Op) → step.now ≡ Step.Do tx op → result ≡ may_make_run op }
{
    match step {
        Step::Do(_, op) => op.may_make_run(),
        _ => false,
    }
}

// Lets receipts go where the seat is to hold few, and holds many.
fn hold_few<L: LatchName>(seat: &mut Seat<L>, holds_few: bool)
    ensures { HasSameReceipts seat.old seat.new }
{
    if holds_few && seat.positions().len() >= MOST_HELD {
        seat.let_go();
    }
}

// Whoever asks hears which transaction the session has.
fn note_transaction(connections: &Connections, place: usize, reply: &Reply) {
    match reply {
        Reply::Begun(tx) => connections.set_transaction(place, Some(*tx)),
        Reply::Committed(_) | Reply::Aborted => connections.set_transaction(place, None),
        _ => {}
    }
}

// A transaction's end is the end of the hold that its session has.
fn end_hold_behind<W: Wait>(rt: &W, turnstile: &Turnstile, place: usize, reply: &Reply) {
    if matches!(reply, Reply::Committed(_) | Reply::Aborted) {
        turnstile.end_hold(rt, place);
    }
}

// Publishes the commit of the seat's last reply, where that is one.
fn publish<L: LatchName>(
    counters: &Counters,
    counter_seat: &mut CounterSeat,
    seat: &Seat<L>,
    reply: &Reply,
)
    requires own { counter_seat.old.of ≡ counters.now }
    requires last { (c : ℕ) → reply.now ≡ Reply.Committed c → last_commit_of seat.now.receipts ≡ Some c }
    ensures { counter_seat.new ≡ published counter_seat.old reply.now }
{
    if let Reply::Committed(_) = reply
        && let Some(receipt) = seat.last_commit()
    {
        counters.publish(counter_seat, &receipt);
    }
}
