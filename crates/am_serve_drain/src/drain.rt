//! The thread that takes what the latch hands out.

ghost use Rattle.std.specs.Prelude.{◌≡◌, ◌+◌, [], length, true, None, IsSome};
ghost use Rattle.am_law_serial.specs.Trace.{Trace};
ghost use Rattle.am_trace_writer.specs.Events.{add_count, AreEventCountsOf};
ghost use Rattle.am_latch_engine.specs.Sizes.{AreFiguresAt};
ghost use Rattle.am_serve_drain.specs.Told.{AreCountsBehind, Looked};
ghost use Rattle.am_serve_drain.specs.Pieces.{HasTaken};
ghost use Rattle.am_serve_drain.specs.Stops.{is_over};

use crate::counts::{ServerCounts, Watcher};
use crate::drain_setup::DrainSetup;
use am_index::Figures;
use am_latch::{Latch, LatchName, Taker};
use am_latch_engine::empty_figures;
use am_serve_connections::{SessionCounts, SharedState};
use am_trace_writer::{EventCounts, PieceTaker, TraceCounts};
use std::rt::Clock;
use std::sync::Wait;
use std::time::{Duration, Instant};

/// How long ago a stop was asked for.
#[derive(Clone, Copy, PartialEq, Eq)]
enum SinceStop {
    /// None was.
    Unasked,
    /// So long ago, by the clock.
    Ago(Duration),
    /// The clock doesn't tell.
    Untold,
}

// Whether sessions have gone on for too long: as long as their grace, where they have one, or where the clock fails.
fn is_over(grace: Option<Duration>, since: SinceStop) -> bool
    ensures { result ≡ is_over grace since }
{
    match (grace, since) {
        (None, _) | (_, SinceStop::Unasked) => false,
        (Some(grace), SinceStop::Ago(past)) => past.as_nanos() >= grace.as_nanos(),
        (Some(_), SinceStop::Untold) => true,
    }
}

/// Takes a latch's trace by pieces, and looks at the server beside that.
#[derive(Drop)]
pub struct Drain<L: LatchName, T: PieceTaker + Drop, V: Watcher + Drop> {
    /// Takes the trace of the latch.
    pub taker: Taker<L>,
    /// Who is passed the pieces.
    pub pieces: T,
    /// How many events were taken.
    pub events: u64,
    counts: EventCounts,
    ghost numbered: { events ≡ add_count 0 (length taker) },
    ghost counted: { AreEventCountsOf taker counts },
    // How large the store was after them.
    index: Figures,
    ghost sized: { ∥ AreFiguresAt taker index ∥₁ },
    watcher: V,
    // How long sessions may go on after a stop.
    grace: Option<Duration>,
    stopped_at: Option<Instant>,
}

impl<L: LatchName, T: PieceTaker + Drop, V: Watcher + Drop> Drain<L, T, V> {
    /// A drain that has taken nothing yet.
    pub fn new(taker: Taker<L>, setup: DrainSetup<T, V>) -> Drain<L, T, V>
        requires { taker ≡ [] }
        ensures taken { (result.taker ≡ taker) × (result.pieces ≡ setup.pieces) × (result.events ≡ 0) }
        ensures watcher { result.watcher ≡ setup.watcher }
        ensures grace { (result.grace ≡ setup.grace) × (result.stopped_at ≡ None) }
    {
        let DrainSetup {
            pieces,
            watcher,
            grace,
        } = setup;
        Drain {
            taker,
            pieces,
            events: 0,
            counts: EventCounts::new(),
            index: empty_figures(),
            watcher,
            grace,
            stopped_at: None,
        }
    }

    /// Takes what the latch keeps, ten times a second and at each 1,024th answer or turn, until all sessions have
    /// ended, and cuts those that are late.
    pub fn run<R: Wait + Clock>(self, rt: &R, latch: &Latch<L>, shared: &SharedState<'_>) -> Self
        ensures taken { HasTaken T.took self.taker self.pieces self.events result.taker result.pieces
            result.events }
        ensures last { (watcher : V) × (before : Trace) × Looked V.saw watcher before result.taker
            (T.has_lost result.pieces) true result.watcher }
    {
        let mut drain = self;
        'rounds: for _ in rt.forever() {
            let is_last = shared.await_round(rt);
            shared.receive(rt);
            drain.take_piece(rt, latch, shared, is_last);
            if is_last {
                return drain;
            }
            let since = drain.since_stop(rt, shared);
            if is_over(drain.grace, since) {
                shared.connections.cut_all(rt);
                shared.turnstile.open(rt);
            }
        }
        unreachable!()
    }

    // Takes what the latch keeps.
    fn take_piece<R: Wait>(
        &mut self,
        rt: &R,
        latch: &Latch<L>,
        shared: &SharedState<'_>,
        is_last: bool,
    )
        ensures taken { HasTaken T.took self.old.taker self.old.pieces self.old.events self.new.taker self.new.pieces
            self.new.events }
        ensures looked { Looked V.saw self.old.watcher self.old.taker self.new.taker (T.has_lost self.new.pieces)
            is_last self.new.watcher }
        ensures same { (self.new.grace ≡ self.old.grace) × (self.new.stopped_at ≡ self.old.stopped_at) }
    {
        let kept = self.pass_piece(rt, latch);
        let counts = self.counts(shared.session_counters.counts(), kept);
        self.watcher.look(&counts, is_last);
    }

    // Passes on what the latch keeps, and answers how many events these are.
    fn pass_piece<R: Wait>(&mut self, rt: &R, latch: &Latch<L>) -> usize
        ensures taken { HasTaken T.took self.old.taker self.old.pieces self.old.events self.new.taker self.new.pieces
            self.new.events }
        ensures came { length self.new.taker ≡ length self.old.taker + result }
        ensures same { (self.new.watcher ≡ self.old.watcher) × (self.new.grace ≡ self.old.grace) ×
            (self.new.stopped_at ≡ self.old.stopped_at) }
    {
        let Ok(piece) = latch.hand_out(rt, &mut self.taker) else {
            return 0;
        };
        let kept = piece.trace.len();
        self.pieces.take(&piece.trace);
        self.events = self.events.saturating_add(kept as u64);
        self.counts.add(&piece.trace);
        self.index = piece.figures;
        kept
    }

    // How the server does, by all that was taken, of which so many events came last.
    fn counts(&self, sessions: SessionCounts, kept: usize) -> ServerCounts
        ensures { AreCountsBehind self.now.taker sessions kept (T.has_lost self.now.pieces) result }
    {
        ServerCounts {
            sessions,
            trace: TraceCounts {
                events: self.events,
                kept: kept as u64,
                of: self.counts,
            },
            index: self.index,
            is_cut: self.pieces.is_cut(),
        }
    }

    // How long ago a stop was asked for. Its time is that of the first round that sees it.
    fn since_stop<R: Clock>(&mut self, rt: &R, shared: &SharedState<'_>) -> SinceStop
        ensures kept { (self.new.taker ≡ self.old.taker) × (self.new.pieces ≡ self.old.pieces) ×
            (self.new.events ≡ self.old.events) }
        ensures others { (self.new.watcher ≡ self.old.watcher) × (self.new.grace ≡ self.old.grace) }
        ensures same { IsSome self.old.stopped_at → self.new.stopped_at ≡ self.old.stopped_at }
    {
        if !shared.is_stopped() {
            return SinceStop::Unasked;
        }
        if self.stopped_at.is_none() {
            self.stopped_at = Instant::now(rt).ok();
        }
        match self.stopped_at {
            Some(at) => at.elapsed(rt).map_or(SinceStop::Untold, SinceStop::Ago),
            None => SinceStop::Untold,
        }
    }
}
