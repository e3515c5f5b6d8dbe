//! Looking for live keys of a run: its records and the entries of each partition, side by side.

ghost use Rattle.std.specs.Prelude.{◌≡◌, ◌≤◌, ◌<◌, ◌-◌, true, false, length, take, drop, filter, not};
ghost use Rattle.std.specs.Prelude.{Some, MatchOption, IfSome};
ghost use Rattle.std.specs.List.{AllWithin};
ghost use Rattle.std.specs.Ordering.{is_lt};
ghost use Rattle.std.specs.FinMap.{is_sorted};
ghost use Rattle.am_record.specs.OrderedKey.{key_cmp};
ghost use Rattle.am_record.specs.Plain.{first_key, is_rising, least_taken};
ghost use Rattle.am_index.specs.Entries.{next_from};
ghost use Rattle.am_index.specs.Content.{content};
ghost use Rattle.am_index_parts.specs.Partitions.{AreWellFormed, NoneLiveIn};
ghost use Rattle.am_store_loads.specs.Looks.{IsLeastLiveIn, NoneInRuns, IsLeastInRuns};

use crate::walk::Walk;
use am_index::{PartIndex, RecordSource};
use am_index_parts::Parts;
use am_record::{Entry, Key};

/// The least key of the records that is live. The final partition is walked through beside them, what lies between
/// being passed over; of the runs those are searched in which a key may be live.
pub(crate) fn first_live<I: PartIndex + Drop, S: RecordSource>(
    parts: &Parts<I>,
    records: &S,
) -> Option<Key>
    requires { is_rising (S.records records.now) ≡ true }
    ensures { result ≡ least_taken (S.records records.now) (content parts.now.entries) }
{
    let Some(key) = least_in_final(parts, records) else {
        return first_in_runs(parts, records, records.len());
    };
    let below = place_of(records, 0, key);
    if let Some(lower) = first_in_runs(parts, records, below) {
        return Some(lower);
    }
    Some(key)
}

/// The least key of the records that is live in the final partition.
pub(crate) fn least_in_final<I: PartIndex + Drop, S: RecordSource>(
    parts: &Parts<I>,
    records: &S,
) -> Option<Key>
    requires { is_rising (S.records records.now) ≡ true }
    ensures found { MatchOption result (NoneLiveIn parts.now.entries 0 (S.records records.now))
        (IsLeastLiveIn parts.now.entries 0 (S.records records.now)) }
    ensures sound { AreWellFormed parts.now.entries }
{
    // Read here, the entries are known to be sound.
    let _ = parts.runs();
    let first = parts.next_from(0, records.key(0))?;
    least_live_in(parts, first, records)
}

// The first key of the first so many records that is live in a run.
fn first_in_runs<I: PartIndex + Drop, S: RecordSource>(
    parts: &Parts<I>,
    records: &S,
    count: usize,
) -> Option<Key>
    requires sorted { is_sorted key_cmp (S.records records.now) ≡ true }
    requires within { count ≤ length (S.records records.now) }
    ensures { MatchOption result (NoneInRuns parts.now.entries (take count (S.records records.now)))
        (IsLeastInRuns parts.now.entries (take count (S.records records.now))) }
{
    for at in 0..count {
        let key = records.key(at);
        if parts.live_in_runs(key).is_some() {
            return Some(key);
        }
    }
    None
}

// The least key of the records that is live in a partition, by a walk through it. The caller gives
// the partition's first entry at or above the least pair's key.
fn least_live_in<I: PartIndex + Drop, S: RecordSource>(
    parts: &Parts<I>,
    first: Entry,
    records: &S,
) -> Option<Key>
    requires sound { AreWellFormed parts.now.entries }
    requires sorted { is_sorted key_cmp (S.records records.now) ≡ true }
    requires first { IfSome (first_key (S.records records.now)) (λ low.
        next_from parts.now.entries first.part low ≡ Some first) }
    ensures { MatchOption result (NoneLiveIn parts.now.entries first.part (S.records records.now))
        (IsLeastLiveIn parts.now.entries first.part (S.records records.now)) }
{
    let len = records.len();
    let mut walk = Walk::new();
    walk.begin(&first);
    let mut at = 0;
    while at < len {
        let key = records.key(at);
        walk.go_to(parts, key);
        let entry = walk.entry()?;
        if entry.key == key && !entry.is_ghost {
            return Some(entry.key);
        }
        at = place_of(records, at + 1, entry.key);
    }
    None
}

// The place, from that one on, of the first record that isn't below the key; or how many records there are.
fn place_of<S: RecordSource>(records: &S, from: usize, key: Key) -> usize
    requires sorted { is_sorted key_cmp (S.records records.now) ≡ true }
    requires within { from ≤ length (S.records records.now) }
    ensures from { from ≤ result }
    ensures within { result ≤ length (S.records records.now) }
    ensures below { take (result - from) (drop from (S.records records.now)) ≡
        filter (λ r. is_lt (key_cmp r.0 key)) (drop from (S.records records.now)) }
    ensures others { drop result (S.records records.now) ≡
        filter (λ r. not (is_lt (key_cmp r.0 key))) (drop from (S.records records.now)) }
{
    let mut low = from;
    let mut high = front_end(records, from, key);
    while low < high {
        let middle = low + (high - low) / 2;
        if records.key(middle) < key {
            low = middle + 1;
        } else {
            high = middle;
        }
    }
    low
}

// A place, from that one on, from which on no record is below the key. The key is mostly near, so the search begins
// with short steps.
fn front_end<S: RecordSource>(records: &S, from: usize, key: Key) -> usize
    requires sorted { is_sorted key_cmp (S.records records.now) ≡ true }
    requires within { from ≤ length (S.records records.now) }
    ensures from { from ≤ result }
    ensures within { result ≤ length (S.records records.now) }
    ensures all { AllWithin (λ r. is_lt (key_cmp r.0 key) ≡ false) (S.records records.now) result
        (length (S.records records.now)) }
{
    let len = records.len();
    let mut at = from;
    let mut step: usize = 1;
    while at < len {
        if key <= records.key(at) {
            return at;
        }
        at = at.saturating_add(step);
        step = step.saturating_mul(2);
    }
    len
}
