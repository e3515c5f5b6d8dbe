//! What is left to merge where nobody asked.

ghost use Rattle.std.specs.Prelude.{◌≡◌, ◌+◌, ◌<◌};
ghost use Rattle.am_store_merge.specs.Fronts.{FrontBefore, IsNextInRuns};

use crate::walk::first_in_run;
use am_index::{Batch, PartIndex};
use am_index_parts::Parts;
use am_record::Range;

// The place of a run's sixteenth entry in what is read of it.
const SIXTEENTH: usize = 15;

/// The next piece of the range to merge where nobody asked: the range up to the first key at which a run has its
/// sixteenth entry of it, live or ghost, or all of it where no run has so many. So each run has at most 16 entries in
/// the piece. None, where no run has an entry in the range. Takes no memory.
#[inline(never)]
pub fn next_in_runs<I: PartIndex + Drop>(parts: &Parts<I>, range: Range) -> Option<Range>
    ensures { IsNextInRuns parts.now.entries range result }
{
    let mut batch = Batch::new();
    let mut front = None;
    let mut next = parts.first_run(range);
    while let Some(run) = parts.next_part(next) {
        front = front_with(parts, run, range, front, &mut batch);
        match run.checked_add(1) {
            Some(after) => next = after,
            None => return front,
        }
    }
    front
}

// The front of the range by the runs up to this one, from that by those before it. The batch is filled anew.
fn front_with<I: PartIndex + Drop>(
    parts: &Parts<I>,
    run: u32,
    range: Range,
    front: Option<Range>,
    batch: &mut Batch,
) -> Option<Range>
    requires is_run { 0 < run }
    requires before { FrontBefore parts.now.entries range run front }
    ensures { FrontBefore parts.now.entries range (run + 1) result }
{
    if first_in_run(parts, run, range, batch).is_none() {
        return front;
    }
    let front = front.unwrap_or(range);
    let Some(last) = batch.entries().get(SIXTEENTH) else {
        return Some(front);
    };
    if !front.contains(last.key) {
        return Some(front);
    }
    Range::new(front.lo(), last.key)
}
