//! What a worker has merged that nobody asked for.

ghost use Rattle.std.specs.Prelude.{◌≡◌, None, true};
ghost use Rattle.am_record.specs.OrderedKey.{key_least};
ghost use Rattle.am_latch.specs.Ties.{open_of};
ghost use Rattle.am_serve_workers.specs.ReadTurns.{HasRead, IsNextFrom, IsPiece, IsPieceSeen, IsPieceWhere, ReadsRange};
ghost use Rattle.am_serve_workers.specs.ReadTurns.{end_after, is_read, read_behind, read_outlook};

use am_index_btree::BTree;
use am_latch::{Latch, LatchName, Seat};
use am_latch_engine::Engine;
use am_record::{Key, Op, Range, Reply, Step};
use am_serve_connections::Outlook;
use am_store::Store;
use std::sync::Wait;

/// Where a worker goes on to read, and how many entries it had moved when it last read.
#[derive(Clone, Copy)]
pub(crate) struct ReadPlace {
    key: Key,
    moved: u64,
}

impl ReadPlace {
    /// Before all keys, by a worker that moved nothing.
    pub(crate) fn front() -> ReadPlace
        ensures { result ≡ record { key = key_least; moved = 0 } }
    {
        ReadPlace {
            key: Key::least(),
            moved: 0,
        }
    }

    fn behind(range: Range, moved: u64) -> ReadPlace
        ensures { result ≡ read_behind range moved }
    {
        ReadPlace {
            key: range.hi(),
            moved,
        }
    }
}

/// Reads what nobody asked for, where more runs than so many have entries, so that it is merged next: one record of the
/// next piece of what runs have. Answers what is left, unless nothing is to read. Never, where that number is 0.
pub(crate) fn read<L: LatchName, R: Wait>(
    rt: &R,
    latch: &Latch<L>,
    seat: &mut Seat<L>,
    runs: u64,
    place: &mut ReadPlace,
) -> Option<Outlook>
    ensures { HasRead L.seats runs place.old seat.old result place.new seat.new }
{
    if runs == 0 || seat.open_tx().is_some() {
        return None;
    }
    let from = place.key;
    let found = latch.look(
        rt,
        seat,
        |engine: &Engine| -> Option<Range>
            ensures { IsPieceSeen runs from engine.now.trace result }
        { piece_to_read(engine.store(), runs, from) },
    );
    let Some(range) = found else {
        return None;
    };
    let moved = seat.moved();
    let was_read = read_range(rt, latch, seat, range);
    let outlook = read_outlook(was_read, place.moved != moved);
    *place = ReadPlace::behind(range, moved);
    Some(outlook)
}

// Reads one record of the range in a transaction of its own. The latch is held until its end, so nobody meets its lock.
fn read_range<L: LatchName, R: Wait>(
    rt: &R,
    latch: &Latch<L>,
    seat: &mut Seat<L>,
    range: Range,
) -> bool
    requires { open_of seat.old.receipts ≡ None }
    ensures { ReadsRange range seat.old result seat.new }
{
    let mut held = None;
    let begun = seat.call_on(rt, latch, &mut held, Step::Begin);
    let Reply::Begun(tx) = begun else {
        return false;
    };
    let scanned = seat.call_on(rt, latch, &mut held, Step::Do(tx, Op::Scan(range, 1)));
    let was_read = is_read(&scanned);
    seat.call_on(rt, latch, &mut held, end_after(tx, was_read));
    was_read
}

// Whether a scan was answered.
fn is_read(reply: &Reply) -> bool
    ensures { result ≡ is_read reply.now }
{
    matches!(reply, Reply::Rows(_))
}

// The end of a transaction that was to read.
fn end_after(tx: u64, was_read: bool) -> Step
    ensures { result ≡ end_after tx was_read }
{
    if was_read {
        Step::Commit(tx)
    } else {
        Step::Abort(tx)
    }
}

// What is left after a read, by whether entries were moved since the one before.
fn read_outlook(was_read: bool, has_moved: bool) -> Outlook
    ensures { result ≡ read_outlook was_read has_moved }
{
    match (was_read, has_moved) {
        (true, true) => Outlook::More,
        _ => Outlook::Held,
    }
}

// The range to read from the key on, where more runs than so many have entries.
fn piece_to_read(store: &Store<BTree>, runs: u64, from: Key) -> Option<Range>
    ensures { IsPiece store.now.entries runs from result }
{
    if runs < store.figures().runs {
        next_piece(store, from)
    } else {
        None
    }
}

// The next piece from the key on, or else from the least one on.
fn next_piece(store: &Store<BTree>, key: Key) -> Option<Range>
    ensures { IsPieceWhere true store.now.entries key result }
{
    match next_from(store, key) {
        Some(range) => Some(range),
        None => next_from(store, Key::least()),
    }
}

// The next piece of what runs have from the key on.
fn next_from(store: &Store<BTree>, key: Key) -> Option<Range>
    ensures { IsNextFrom store.now.entries key result }
{
    let Some(range) = Range::all_from(key) else {
        return None;
    };
    store.next_in_runs(range)
}
