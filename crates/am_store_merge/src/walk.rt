//! Walks over the entries of a range, from partition to partition.

ghost use Rattle.std.specs.Prelude.{◌≡◌, true, None, take, is_none, IfSome, IfNone};
ghost use Rattle.am_record.specs.Interval.{key_le, within};
ghost use Rattle.am_index.specs.Entries.{first_such, all_from};
ghost use Rattle.am_index_parts.specs.Partitions.{AreWellFormed};
ghost use Rattle.am_store_merge.specs.Walks.{in_part, in_parts_from, later, ghost_from, GoesOnAt};
ghost use Rattle.am_store_merge.specs.LockHolders.{holder_of};

use am_index::{Batch, PartIndex};
use am_index_parts::Parts;
use am_record::{Entry, Key, Range};
use am_store_locks::LockTable;

/// Whether nobody has the key exclusively locked.
pub(crate) fn is_free(locks: &LockTable, key: Key) -> bool
    ensures { result ≡ is_none (holder_of locks.now key) }
{
    locks.exclusive_at(key).is_none()
}

/// The first entry of the range in a run. The batch then has the entries of that run from the range's beginning on, as
/// many as it has room for. Runs that are known to have none there aren't searched, and those before it are known from
/// then on.
pub(crate) fn first_in_runs<I: PartIndex + Drop>(
    parts: &mut Parts<I>,
    range: Range,
    batch: &mut Batch,
) -> Option<Entry>
    ensures first { result ≡ first_such (in_parts_from 1 range) parts.old.entries }
    ensures read { IfSome result (λ e. batch.new ≡ take 16 (all_from parts.old.entries e.part range.lo)) }
    ensures same { parts.new ≡ parts.old }
    ensures sound { AreWellFormed parts.old.entries }
{
    let from = parts.first_run(range);
    let first = first_from(parts, from, range, batch);
    let first_run = match &first {
        Some(entry) => entry.part,
        None => parts.runs() + 1,
    };
    if from < first_run {
        parts.note_merged(range, first_run);
    }
    first
}

// The first entry of the range in that run or a later one, and a batch of the run that has it. Runs without entries
// aren't searched.
fn first_from<I: PartIndex + Drop>(
    parts: &Parts<I>,
    from: u32,
    range: Range,
    batch: &mut Batch,
) -> Option<Entry>
    ensures first { result ≡ first_such (in_parts_from from range) parts.now.entries }
    ensures read { IfSome result (λ e. batch.new ≡ take 16 (all_from parts.now.entries e.part range.lo)) }
    ensures sound { AreWellFormed parts.now.entries }
{
    let mut next = from;
    while let Some(run) = parts.next_part(next) {
        if let Some(first) = first_in_run(parts, run, range, batch) {
            return Some(first);
        }
        next = run.checked_add(1)?;
    }
    None
}

/// The first entry of the range in the run, and a batch of that run.
pub(crate) fn first_in_run<I: PartIndex + Drop>(
    parts: &Parts<I>,
    run: u32,
    range: Range,
    batch: &mut Batch,
) -> Option<Entry>
    ensures first { result ≡ first_such (in_part run range) parts.now.entries }
    ensures read { batch.new ≡ take 16 (all_from parts.now.entries run range.lo) }
    ensures sound { AreWellFormed parts.now.entries }
{
    read_run(parts, run, range, batch);
    let first = *batch.entries().first()?;
    // A run whose first key from `lo` on is above the range has nothing in it.
    range.contains(first.key).then_some(first)
}

/// Reads the entries of the run from the range's beginning on into the emptied batch, as many as it has room for.
pub(crate) fn read_run<I: PartIndex + Drop>(
    parts: &Parts<I>,
    run: u32,
    range: Range,
    batch: &mut Batch,
)
    ensures read { batch.new ≡ take 16 (all_from parts.now.entries run range.lo) }
    ensures sound { AreWellFormed parts.now.entries }
{
    batch.clear();
    parts.read_from(run, range.lo(), batch);
}

/// The first ghost of the range at or above the place.
pub(crate) fn first_ghost<I: PartIndex + Drop>(
    parts: &Parts<I>,
    range: Range,
    from: (u32, Key),
) -> Option<Entry>
    requires { key_le range.lo from.1 ≡ true }
    ensures first { result ≡ first_such (ghost_from range from) parts.now.entries }
    ensures sound { AreWellFormed parts.now.entries }
{
    let (mut part, mut key) = from;
    while let Some(entry) = parts.next_ghost(part, key) {
        if range.contains(entry.key) {
            return Some(entry);
        }
        // After a ghost below the range one of the range may stand in its partition, after one above it none does.
        key = range.lo();
        part = if entry.key < key {
            entry.part
        } else {
            entry.part.checked_add(1)?
        };
    }
    None
}

/// Where a walk over the range goes on after the entry.
pub(crate) fn place_after<I: PartIndex + Drop>(
    parts: &Parts<I>,
    range: Range,
    entry: &Entry,
) -> Option<(u32, Key)>
    requires { within range entry.now.key ≡ true }
    ensures next { IfSome result (λ next. GoesOnAt parts.now.entries range entry.now next) }
    ensures none { IfNone result (first_such (later range entry.now) parts.now.entries ≡ None) }
{
    if let Some(next) = parts.after(entry.part, entry.key) {
        return Some((next.part, next.key));
    }
    Some((entry.part.checked_add(1)?, range.lo()))
}
