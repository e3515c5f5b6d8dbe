//! Merge steps.

ghost use Rattle.am_record.specs.Limits.{max_limit};
ghost use Rattle.std.specs.Prelude.{◌≡◌, ◌≤◌, ◌+◌, true, Some, take, take_while, length};
ghost use Rattle.am_index.specs.Content.{content};
ghost use Rattle.am_index.specs.Entries.{first_such, all_from};
ghost use Rattle.am_index.specs.Rooms.{HaveRoom, KeepRoom};
ghost use Rattle.am_index_parts.specs.MergedRanges.{HasNoneBefore};
ghost use Rattle.am_index_parts.specs.Partitions.{AreWellFormed};
ghost use Rattle.am_law_effect.specs.MergeAnswers.{MergeRight, merged_by, wishes_left, all_worked_off, candidates};
ghost use Rattle.am_store_merge.specs.LockHolders.{holder_of};
ghost use Rattle.am_store_merge.specs.Walks.{in_parts_from};
ghost use Rattle.am_store_merge.specs.Steps.{IsAsFar, is_free_in, go_on_outside};

use crate::walk::{first_in_runs, is_free, read_run};
use crate::wishes::Wishes;
use am_index::{Batch, PartIndex};
use am_index_parts::Parts;
use am_record::{Entry, Range, Refusal, Reply};
use am_store_locks::LockTable;

// How many entries a batch has room for.
const STRETCH: usize = 16;

/// Works entries of the oldest wish off: of those in runs with keys in its range, the first `limit`
/// at most, all of one run. A live one then stands in partition 0, a ghost is gone. The caller has a
/// limit from 1 to 64.
///
/// Answers Idle, where there is no wish; MergeDone, where no run has an entry in the range, and
/// Ended with the key of the first such entry, where somebody has it exclusively locked: the wish is
/// dropped at these two. Else Moved with how many it worked off and the run: as many as it may, or
/// fewer where the next one was refused memory for its place in partition 0, or for more room than a
/// ghost's value has there, or Refused(NoMemory), where the first one was. The content is as before.
#[inline(never)]
pub fn merge_step<I: PartIndex + Drop>(
    parts: &mut Parts<I>,
    wishes: &mut Wishes,
    locks: &LockTable,
    limit: u64,
) -> Reply
    requires some { 1 ≤ limit }
    requires few { limit ≤ max_limit }
    ensures reply { MergeRight parts.old.entries wishes.old (holder_of locks.now) limit result }
    ensures entries { parts.new.entries ≡ all_worked_off
        (merged_by parts.old.entries wishes.old result) parts.old.entries }
    ensures wishes { wishes.new ≡ wishes_left wishes.old result }
    ensures runs { parts.new.runs ≡ parts.old.runs }
    ensures rooms { KeepRoom parts.old.roomy parts.new.roomy parts.new.entries }
    ensures content { content parts.new.entries ≡ content parts.old.entries }
{
    // Asked here, each value is known to have its room.
    prove!(parts.runs() <= 4294967294);
    let Some(wish) = wishes.oldest() else {
        return Reply::Idle;
    };
    let mut batch = Batch::new();
    let Some(first) = first_in_runs(parts, wish, &mut batch) else {
        wishes.drop_oldest();
        return Reply::MergeDone;
    };
    let Entry { part, key, .. } = first;
    if let Some(holder) = locks.exclusive_at(key) {
        wishes.drop_oldest();
        return Reply::Ended(key, holder);
    }
    match work_off_run(parts, locks, wish, first, &mut batch, limit) {
        0 => Reply::Refused(Refusal::NoMemory),
        moved => Reply::Moved(moved, part),
    }
}

// Works off the first candidate of the range and those that follow in its run, and counts them. They are moved by
// batches, the first of which was read: what was worked off is gone, so each batch begins where the range does.
fn work_off_run<I: PartIndex + Drop>(
    parts: &mut Parts<I>,
    locks: &LockTable,
    range: Range,
    first: Entry,
    batch: &mut Batch,
    limit: u64,
) -> u64
    requires first { first_such (in_parts_from 1 range) parts.old.entries ≡ Some first }
    requires read { batch.old ≡ take 16 (all_from parts.old.entries first.part range.lo) }
    requires sound { AreWellFormed parts.old.entries }
    requires room { HaveRoom parts.old.entries parts.old.roomy }
    ensures far { IsAsFar parts.old.entries (holder_of locks.now) limit first.part
        (candidates parts.old.entries range) result }
    ensures entries { parts.new.entries ≡ all_worked_off
        (take result (candidates parts.old.entries range)) parts.old.entries }
    ensures runs { parts.new.runs ≡ parts.old.runs }
    ensures rooms { KeepRoom parts.old.roomy parts.new.roomy parts.new.entries }
{
    let mut moved = 0;
    while moved < limit {
        read_anew(parts, first.part, range, batch, moved);
        let free = count_free(batch.entries(), locks, range, limit - moved);
        let count = parts.bring_home(&batch.entries()[..free]);
        moved += count as u64;
        if count < STRETCH {
            note_left(parts, range, first.part, &batch.entries()[count..]);
            return moved;
        }
    }
    moved
}

// Reads the next batch of the run, unless none of the first one has been moved yet.
fn read_anew<I: PartIndex + Drop>(
    parts: &Parts<I>,
    run: u32,
    range: Range,
    batch: &mut Batch,
    moved: u64,
)
    requires { moved ≡ 0 → batch.old ≡ take 16 (all_from parts.now.entries run range.lo) }
    ensures { batch.new ≡ take 16 (all_from parts.now.entries run range.lo) }
{
    if moved > 0 {
        read_run(parts, run, range, batch);
    }
}

// Notes the range as merged in the run and those before it, where what was read of the run and stays there shows that
// no entry of the range is left in it. So the next step begins after the run, and has no look at it in vain.
fn note_left<I: PartIndex + Drop>(parts: &mut Parts<I>, range: Range, run: u32, left: &[Entry])
    requires { go_on_outside range left.now ≡ true → HasNoneBefore parts.old.entries range (run + 1) }
    ensures { parts.new ≡ parts.old }
{
    if go_on_outside(left, range) {
        parts.note_merged(range, run.saturating_add(1));
    }
}

// Whether the entries go on outside the range, if at all.
fn go_on_outside(entries: &[Entry], range: Range) -> bool
    ensures { result ≡ go_on_outside range entries.now }
{
    match entries.first() {
        Some(entry) => !range.contains(entry.key),
        None => true,
    }
}

// How many of the first entries lie in the range and have keys that nobody has exclusively locked, `most` at most.
fn count_free(entries: &[Entry], locks: &LockTable, range: Range, most: u64) -> usize
    ensures { result ≡ length (take_while (is_free_in (holder_of locks.now) range) (take most entries.now)) }
{
    for (at, entry) in entries.iter().enumerate() {
        if at as u64 >= most || !range.contains(entry.key) || !is_free(locks, entry.key) {
            return at;
        }
    }
    entries.len()
}
