//! When a worker may take a turn.

ghost use Rattle.std.specs.Prelude.{◌≡◌, ◌+◌, min};
ghost use Rattle.am_serve_connections.specs.Acceptors.{next_of, pause_of, turns_for};

use crate::rounds::{Rounds, ends_round};
use crate::turns::{Outlook, Pacer};
use std::sync::Wait;
use std::sync::atomic::{AtomicU64, Ordering};
use std::time::Duration;

/// For how many milliseconds no line was answered where workers go on unasked: sessions come first.
const QUIET_MILLIS: u64 = 10;

/// For how many milliseconds a worker leaves alone what it couldn't do.
const HELD_MILLIS: u64 = 100;

/// What a worker does next.
#[derive(Clone, Copy, PartialEq, Eq)]
enum Next {
    /// It ends.
    End,
    /// It sleeps until a turn more is given.
    Sleep,
    /// It takes a turn, unless another worker has it.
    Take,
}

// What a worker does where so many sessions have not ended, and so many turns were taken of those that were given.
fn next_for(sessions: u64, taken: u64, given: u64) -> Next
    ensures { result ≡ next_of sessions taken given }
{
    if sessions == 0 {
        return Next::End;
    }
    if taken < given {
        Next::Take
    } else {
        Next::Sleep
    }
}

// How many turns workers get for so many lines that were answered after others.
fn turns_for(are_resting: bool, before: u64, lines: u64) -> u64
    ensures { result ≡ turns_for are_resting before lines }
{
    if are_resting {
        u64::from(ends_round(before, lines))
    } else {
        lines
    }
}

// For how long a worker waits for a line's turn that goes on unasked; none where it doesn't.
fn pause_of(outlook: Outlook, is_quiet: bool) -> Option<u64>
    ensures { result ≡ pause_of outlook is_quiet }
{
    match outlook {
        Outlook::Nothing | Outlook::Asked => None,
        Outlook::More if is_quiet => Some(0),
        Outlook::More => Some(QUIET_MILLIS),
        Outlook::Held => Some(HELD_MILLIS),
    }
}

/// Lets workers have one turn for each answered line, until all sessions have ended. While nothing is to do it is one
/// for each 1,024. One that has more to do which nobody need ask for goes on while no line is answered.
#[derive(Drop)]
pub struct MergePacer {
    // How many lines were answered, and how many were where a worker last saw what is to do.
    answered: AtomicU64,
    heard: AtomicU64,
    // The turns that workers may have, and those that they had. Both only rise, so that a worker which sleeps at one
    // value of the first misses no later one.
    given: AtomicU64,
    taken: AtomicU64,
    sessions: AtomicU64,
    // How many workers sleep or are about to: where there is none, nobody is woken.
    sleeping: AtomicU64,
    // How often more to do came, from 1 on; and how often it had where a worker found nothing.
    work: AtomicU64,
    rested_at: AtomicU64,
    /// The rounds of the drain, which answers end too.
    pub(crate) rounds: Rounds,
}

impl MergePacer {
    /// A pacer beside so many sessions, of which no line was answered yet.
    pub(crate) fn new(sessions: u64) -> MergePacer {
        MergePacer {
            answered: AtomicU64::new(0),
            heard: AtomicU64::new(0),
            given: AtomicU64::new(0),
            taken: AtomicU64::new(0),
            sessions: AtomicU64::new(sessions),
            sleeping: AtomicU64::new(0),
            work: AtomicU64::new(1),
            rested_at: AtomicU64::new(0),
            rounds: Rounds::new(),
        }
    }

    /// A run was loaded, so there may be more to do.
    pub fn add_work(&self) {
        self.work.fetch_add(1, Ordering::SeqCst);
    }

    // Workers rest where nothing more came since then, and the turns that are left are of no use.
    fn rest(&self, work: u64) {
        self.rested_at.fetch_max(work, Ordering::SeqCst);
        let given = self.given.load(Ordering::SeqCst);
        self.taken.fetch_max(given, Ordering::SeqCst);
    }

    // Whether workers found nothing to do since more came.
    fn are_resting(&self) -> bool {
        self.rested_at.load(Ordering::SeqCst) == self.work.load(Ordering::SeqCst)
    }

    /// So many lines were answered.
    pub(crate) fn count_answers(&self, lines: u64) {
        let before = self.answered.fetch_add(lines, Ordering::SeqCst);
        self.rounds.count(before, lines);
        let turns = turns_for(self.are_resting(), before, lines);
        if turns == 0 {
            return;
        }
        self.given.fetch_add(turns, Ordering::SeqCst);
        if self.sleeping.load(Ordering::SeqCst) == 0 {
            return;
        }
        match turns {
            1 => self.given.wake_one(),
            _ => self.given.wake_all(),
        }
    }

    /// A session ended. After the last one no worker waits any more.
    pub fn end_session(&self) {
        if self.sessions.fetch_sub(1, Ordering::SeqCst) <= 1 {
            self.given.fetch_add(1, Ordering::SeqCst);
            self.given.wake_all();
        }
    }

    // Sleeps until a turn more than these was given, or all sessions have ended. Whoever gives a turn after the first
    // of these steps sees that somebody sleeps; a turn given before it changes what the sleeper compares.
    fn sleep<R: Wait>(&self, rt: &R, given: u64) {
        self.sleeping.fetch_add(1, Ordering::SeqCst);
        self.given.park(rt, (given % (1 << 32)) as u32);
        self.sleeping.fetch_sub(1, Ordering::SeqCst);
    }

    // The same, but for so many milliseconds at most.
    fn nap<R: Wait>(&self, rt: &R, given: u64, millis: u64) {
        self.sleeping.fetch_add(1, Ordering::SeqCst);
        self.given.park_timeout(
            rt,
            (given % (1 << 32)) as u32,
            Duration::from_millis(millis),
        );
        self.sleeping.fetch_sub(1, Ordering::SeqCst);
    }

    // Gives a turn that no line gave, unless lines give one within so many milliseconds. Of workers that wait so one
    // alone has it: they would only take the latch from one another.
    fn go_on<R: Wait>(&self, rt: &R, millis: u64) {
        let given = self.given.load(Ordering::SeqCst);
        if self.taken.load(Ordering::SeqCst) < given {
            return;
        }
        if millis > 0 {
            self.nap(rt, given, millis);
        }
        let next = given.wrapping_add(1);
        let _ = self
            .given
            .compare_exchange(given, next, Ordering::SeqCst, Ordering::SeqCst);
    }

    // Whether no line was answered since a worker last saw what is to do.
    fn is_quiet(&self) -> bool {
        let answered = self.answered.load(Ordering::SeqCst);
        self.heard.swap(answered, Ordering::SeqCst) == answered
    }

    // Takes the turn after `taken`, unless another worker has it. What turns leave in the trace is small too.
    fn try_take(&self, taken: u64) -> bool {
        let next = taken.wrapping_add(1);
        let took = self
            .taken
            .compare_exchange(taken, next, Ordering::SeqCst, Ordering::SeqCst)
            .is_ok();
        if took {
            self.rounds.count(taken, 1);
        }
        took
    }
}

/// Gives turns for the answers of one session.
#[derive(Drop)]
pub(crate) struct TurnGiver<'a> {
    pacer: &'a MergePacer,
    // How many it gave.
    given: u64,
}

impl<'a> TurnGiver<'a> {
    pub(crate) fn new(pacer: &'a MergePacer) -> TurnGiver<'a>
        ensures { result.given ≡ 0 }
    {
        TurnGiver { pacer, given: 0 }
    }

    /// Lets workers have so many turns more, unless they rest.
    pub(crate) fn give(&mut self, turns: u64)
        ensures { self.new.given ≡ min 18446744073709551615 (self.old.given + turns) }
    {
        self.pacer.count_answers(turns);
        self.given = self.given.saturating_add(turns);
    }
}

impl Pacer for MergePacer {
    fn await_turn<R: Wait>(&self, rt: &R, _worker: u32, _turn: u64) -> bool {
        for _ in rt.forever() {
            let given = self.given.load(Ordering::SeqCst);
            let sessions = self.sessions.load(Ordering::SeqCst);
            let taken = self.taken.load(Ordering::SeqCst);
            match next_for(sessions, taken, given) {
                Next::End => return false,
                Next::Sleep => self.sleep(rt, given),
                Next::Take => {
                    if self.try_take(taken) {
                        return true;
                    }
                }
            }
        }
        unreachable!()
    }

    fn work(&self) -> u64 {
        self.work.load(Ordering::SeqCst)
    }

    fn note<R: Wait>(&self, rt: &R, work: u64, outlook: Outlook) {
        if outlook == Outlook::Nothing {
            self.rest(work);
        } else if self.are_resting() {
            self.add_work();
        }
        if let Some(millis) = pause_of(outlook, self.is_quiet()) {
            self.go_on(rt, millis);
        }
    }
}
