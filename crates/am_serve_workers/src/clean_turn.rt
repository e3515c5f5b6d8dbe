//! What a worker cleans where nothing is left to merge.

ghost use Rattle.std.specs.Prelude.{◌≡◌, ◌*◌, ◌&&◌, ◌||◌, nat_le, nat_lt};
ghost use Rattle.am_record.specs.OrderedKey.{key_least};
ghost use Rattle.am_serve_workers.specs.CleanTurns.{ghost_to_clean, has_runs, has_work, place_behind, IsSeen};
ghost use Rattle.am_serve_workers.specs.CleanTurns.{HasCleaned};
ghost use Rattle.am_serve_workers.specs.CleanTurns.{AreRunsSeen, SawRuns};

use am_index::Figures;
use am_index_btree::BTree;
use am_latch::{Latch, LatchName, Seat};
use am_latch_engine::Engine;
use am_record::{Entry, Key, Range, Reply, Step};
use am_store::Store;
use std::sync::Wait;

/// How many ghosts a turn may clean.
const CLEAN_LIMIT: u64 = 64;

/// At least one of so many entries is a ghost where a worker cleans, lest a turn walk a large index for little.
const ENTRIES_TO_A_GHOST: u64 = 1024;

/// Where a worker goes on to look for ghosts: at a key of a partition.
#[derive(Clone, Copy)]
pub(crate) struct Place {
    part: u32,
    key: Key,
}

impl Place {
    /// The beginning of a partition.
    pub(crate) fn front_of(part: u32) -> Place
        ensures { result ≡ record { part = part; key = key_least } }
    {
        Place {
            part,
            key: Key::least(),
        }
    }

    // Where to go on after a Clean from the entry's key on. Where it cleaned fewer than it might, all ghosts left from
    // there on are locked: the partition has no more to clean after the entry.
    fn behind(entry: &Entry, reply: &Reply) -> Place
        ensures { result ≡ place_behind entry.now reply.now }
    {
        match reply {
            Reply::Cleaned(count) if *count < CLEAN_LIMIT => {
                Place::front_of(entry.part.saturating_add(1))
            }
            _ => Place {
                part: entry.part,
                key: entry.key,
            },
        }
    }
}

/// What a worker sees of the store.
#[derive(Clone, Copy)]
struct Seen {
    /// The ghost to clean from.
    next_ghost: Option<Entry>,
    /// Whether something may be to merge or to clean before a run is loaded.
    has_work: bool,
}

impl Seen {
    fn ghost_to_clean(self) -> Option<Entry>
        ensures { result ≡ self.next_ghost }
    {
        self.next_ghost
    }
}

/// What a worker did that cleans.
#[derive(Drop)]
pub(crate) struct CleanTurn {
    /// What was answered, where a step was taken.
    pub(crate) reply: Option<Reply>,
    /// Whether something may be to do before a run is loaded.
    pub(crate) has_work: bool,
}

/// Cleans once, from the next ghost on, where there are enough ghosts.
pub(crate) fn clean<L: LatchName, R: Wait>(
    rt: &R,
    latch: &Latch<L>,
    seat: &mut Seat<L>,
    place: &mut Place,
) -> CleanTurn
    ensures { HasCleaned L.seats place.old seat.old result.has_work result.reply place.new seat.new }
{
    let from = *place;
    let seen = latch.look(
        rt,
        seat,
        |engine: &Engine| -> Seen
            ensures { IsSeen from engine.now.trace result.next_ghost result.has_work }
        { see(engine.store(), from) },
    );
    let has_work = seen.has_work;
    let found = seen.ghost_to_clean();
    let Some(entry) = found else {
        return CleanTurn {
            reply: None,
            has_work,
        };
    };
    let Some(range) = Range::all_from(entry.key) else {
        return CleanTurn {
            reply: None,
            has_work,
        };
    };
    let reply = seat.call(rt, latch, Step::Clean(range, CLEAN_LIMIT));
    *place = Place::behind(&entry, &reply);
    CleanTurn {
        reply: Some(reply),
        has_work,
    }
}

/// Whether a run has entries, which may be asked for and then merged.
pub(crate) fn look_for_runs<L: LatchName, R: Wait>(
    rt: &R,
    latch: &Latch<L>,
    seat: &mut Seat<L>,
) -> bool
    ensures saw { SawRuns L.seats seat.old result }
    ensures same { seat.new ≡ seat.old }
{
    latch.look(
        rt,
        seat,
        |engine: &Engine| -> bool
            ensures { AreRunsSeen engine.now.trace result }
        { see_runs(engine.store()) },
    )
}

// Whether a run of the store has entries.
fn see_runs(store: &Store<BTree>) -> bool
    ensures { result ≡ has_runs store.now.entries }
{
    have_runs(store.figures())
}

// Whether entries stand outside the final partition.
fn have_runs(figures: Figures) -> bool
    ensures { result ≡ nat_lt figures.in_final figures.entries }
{
    figures.in_final < figures.entries
}

// What a worker sees that cleans from the place on.
fn see(store: &Store<BTree>, from: Place) -> Seen
    ensures next { result.next_ghost ≡ ghost_to_clean store.now.entries from.part from.key }
    ensures work { result.has_work ≡ has_work store.now.entries }
{
    Seen {
        next_ghost: ghost_to_clean(store, from),
        has_work: has_work(store.figures()),
    }
}

// Whether runs have entries, which may be asked for, or many are ghosts.
fn has_work(figures: Figures) -> bool
    ensures { result ≡ (nat_lt figures.in_final figures.entries ||
        (nat_lt 0 figures.ghosts && nat_le figures.entries (1024 * figures.ghosts))) }
{
    have_runs(figures) || (figures.ghosts > 0 && are_many(figures))
}

// The first ghost from the place on, or else the first of all; none where ghosts are few.
fn ghost_to_clean(store: &Store<BTree>, from: Place) -> Option<Entry>
    ensures { result ≡ ghost_to_clean store.now.entries from.part from.key }
{
    if !are_many(store.figures()) {
        return None;
    }
    let next = store.next_ghost(from.part, from.key);
    if next.is_some() {
        return next;
    }
    store.next_ghost(0, Key::least())
}

// Whether enough entries are ghosts.
fn are_many(figures: Figures) -> bool
    ensures { result ≡ nat_le figures.entries (1024 * figures.ghosts) }
{
    figures.entries <= figures.ghosts.saturating_mul(ENTRIES_TO_A_GHOST)
}
