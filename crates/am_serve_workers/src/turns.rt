//! The turns of one worker.

ghost use Rattle.std.specs.Prelude.{◌≡◌, ℕ, ◌≤◌};
ghost use Rattle.am_serve_workers.specs.Turns.{HasTakenTurns};
ghost use Rattle.am_serve_workers.specs.WorkerTurns.{after_merge, left_after, left_behind, left_where};
ghost use Rattle.am_serve_workers.specs.WorkerTurns.{TakesTurn, TakesTurns};

use crate::clean_turn::{Place, clean, look_for_runs};
use crate::read_turn::{ReadPlace, read};
use am_latch::{Latch, LatchName, Seat};
use am_record::{Refusal, Reply, Step};
use am_serve_connections::{Outlook, Pacer, Upkeep};
use std::sync::Wait;

/// Where a worker goes on to clean and to read.
#[derive(Clone, Copy)]
struct Places {
    clean: Place,
    read: ReadPlace,
}

/// Takes a worker's turns.
pub(crate) fn take_turns<L: LatchName, R: Wait, G: Pacer>(
    rt: &R,
    latch: &Latch<L>,
    seat: &mut Seat<L>,
    worker: u32,
    turns: u64,
    limit: u64,
    upkeep: Upkeep,
    pacer: &G,
)
    ensures turned { HasTakenTurns upkeep limit turns seat.old seat.new }
    ensures on { (count : ℕ) × (count ≤ turns) × (to : Places) ×
        TakesTurns upkeep limit L.seats count seat.old to seat.new }
{
    let mut places = Places {
        clean: Place::front_of(0),
        read: ReadPlace::front(),
    };
    for turn in 0..turns {
        if !pacer.await_turn(rt, worker, turn) {
            return;
        }
        let work = pacer.work();
        let done = take_turn(rt, latch, seat, limit, upkeep, &mut places);
        if let Reply::Refused(Refusal::SeatFull) = done.reply {
            return;
        }
        pacer.note(rt, work, done.outlook);
    }
}

// What a worker did in a turn.
#[derive(Drop)]
struct Turn {
    // What was answered last, but to a read.
    reply: Reply,
    // What is left to do.
    outlook: Outlook,
}

// One turn: merges once and, where nothing is left to merge, cleans and reads once if that is asked for.
fn take_turn<L: LatchName, R: Wait>(
    rt: &R,
    latch: &Latch<L>,
    seat: &mut Seat<L>,
    limit: u64,
    upkeep: Upkeep,
    places: &mut Places,
) -> Turn
    ensures { TakesTurn upkeep limit L.seats places.old seat.old result.outlook result.reply places.new seat.new }
{
    // The receipts of the turn before.
    seat.let_go();
    let merged = seat.call(rt, latch, Step::Merge(limit));
    match after_merge(upkeep, &merged) {
        AfterMerge::GoOn => Turn {
            outlook: left_behind(upkeep, &merged),
            reply: merged,
        },
        AfterMerge::Look => Turn {
            reply: merged,
            outlook: left_where(look_for_runs(rt, latch, seat)),
        },
        AfterMerge::CleanAndRead(runs) => {
            let cleaned = clean(rt, latch, seat, &mut places.clean);
            let outlook = read(rt, latch, seat, runs, &mut places.read);
            Turn {
                reply: cleaned.reply.unwrap_or(merged),
                outlook: left_after(outlook, cleaned.has_work),
            }
        }
    }
}

/// What a worker does in a turn after its merge.
#[derive(Clone, Copy)]
enum AfterMerge {
    /// It goes on with its next turn: more may be to merge.
    GoOn,
    /// It looks whether anything may be to merge before a run is loaded.
    Look,
    /// It cleans, and reads where more runs than so many have entries.
    CleanAndRead(u64),
}

// What a worker does after this answer to its merge. Where it isn't Idle, more may be to merge.
fn after_merge(upkeep: Upkeep, merged: &Reply) -> AfterMerge
    ensures { result ≡ after_merge upkeep merged.now }
{
    match (upkeep, merged) {
        (Upkeep::MergeAndClean(runs), Reply::Idle) => AfterMerge::CleanAndRead(runs),
        (Upkeep::MergeOnly, Reply::Idle) => AfterMerge::Look,
        _ => AfterMerge::GoOn,
    }
}

// What is left where a merge isn't answered Idle.
fn left_behind(upkeep: Upkeep, merged: &Reply) -> Outlook
    ensures { result ≡ left_behind upkeep merged.now }
{
    match (upkeep, merged) {
        (Upkeep::MergeOnly | Upkeep::MergeAndClean(0), _) | (_, Reply::Refused(_)) => {
            Outlook::Asked
        }
        _ => Outlook::More,
    }
}

// What is left by whether there is work.
fn left_where(has_work: bool) -> Outlook
    ensures { result ≡ left_where has_work }
{
    if has_work {
        Outlook::Asked
    } else {
        Outlook::Nothing
    }
}

// What is left after a read, or where nothing was to read.
fn left_after(read: Option<Outlook>, has_work: bool) -> Outlook
    ensures { result ≡ left_after read has_work }
{
    match read {
        Some(outlook) => outlook,
        None => left_where(has_work),
    }
}
