//! Entering the keys of a run to come.

ghost use Rattle.std.specs.Prelude.{◌≡◌, ◌-◌, ◌<◌, ◌≤◌, ℕ, true, false, length, take, drop, Err, OnOk, IfOk};
ghost use Rattle.std.specs.List.{AllByRecursion};
ghost use Rattle.am_record.specs.Interval.{within};
ghost use Rattle.am_record.specs.KeyNumber.{numbers_of};
ghost use Rattle.am_record.specs.Plain.{is_rising};
ghost use Rattle.am_index_parts.specs.ApartRuns.{StandsApart, NoneMeets};
ghost use Rattle.am_index_parts.specs.Catalogs.{PartsRise, parts_of};
ghost use Rattle.am_index_parts.specs.Partitions.{AreWellFormed, AreAllAbsent, LivesInNoRun};
ghost use Rattle.am_index_parts.specs.RunKeys.{IsKnown, AreKnown};
ghost use Rattle.am_index_parts.specs.declared.fault.RunFault.{RunFault};

use crate::catalog::Catalog;
use crate::fault::RunFault;
use crate::key_look::live_in_runs;
use crate::run_keys::RunKeys;
use crate::run_numbers::run_numbers;
use am_index::{Hint, PartIndex, RecordSource};
use am_record::{NoMemory, Range};

// For how many keys looks are begun at once.
const AHEAD: usize = 16;

// For each record of a load so many keys of other runs are entered, at most. Each takes some thirty nanoseconds, a look
// for the record's own key some hundreds.
const KEYS_A_RECORD: u64 = 16;

// In the list of runs that stand apart so many are moved in the time in which one key is entered.
const MOVED_A_KEY: u64 = 8;

/// Enters the keys of a run to come, which rise: none of them where one is live in a run already. Where no run has a
/// key between the first and the last of them, their range alone is kept.
///
/// # Errors
/// Taken, where one of them is live in a run; NoMemory, where memory was refused.
pub(crate) fn enter_keys<I: PartIndex + Drop, S: RecordSource>(
    index: &I,
    catalog: &Catalog,
    keys: &mut RunKeys,
    part: u32,
    records: &S,
) -> Result<(), RunFault>
    requires sound { AreWellFormed (I.entries index.now) }
    requires parts { PartsRise (parts_of catalog.now.runs.items) }
    requires known { AreKnown (I.entries index.now) keys.old }
    requires rising { is_rising (S.records records.now) ≡ true }
    ensures dead { OnOk result (AllByRecursion (λ r. LivesInNoRun (I.entries index.now) r.0) (S.records records.now)) }
    ensures taken { result ≡ Err RunFault.Taken → ¬ AreAllAbsent (I.entries index.now) (S.records records.now) }
    ensures known { AreKnown (I.entries index.now) keys.new }
    ensures entered { OnOk result (AllByRecursion (λ r. IsKnown keys.new true part r.0) (S.records records.now)) }
{
    let range = range_of(records);
    if keys.is_clear(range) {
        keys.enter_apart(part, range)?;
        return Ok(());
    }
    let are_known = end_meeting(index, catalog, keys, range, records.len())?;
    let numbers = keys.filters().numbers(records)?;
    if !live_in_none(index, keys, records, &numbers, are_known) {
        return Err(RunFault::Taken);
    }
    keys.enter_run(part, range, &numbers)?;
    Ok(())
}

// From the first key of records that rise to the last.
fn range_of<S: RecordSource>(records: &S) -> Range
    requires { is_rising (S.records records.now) ≡ true }
    ensures { AllByRecursion (λ r. within result r.0 ≡ true) (S.records records.now) }
{
    let lo = records.key(0);
    let hi = records.key(records.len() - 1);
    match Range::new(lo, hi) {
        Some(range) => range,
        None => unreachable!(),
    }
}

// Takes runs that stand apart for others, where the range meets theirs: their keys are entered now. Whether none is
// left. The last ones go first, since those behind are moved. Where a few records meet long runs, these stay:
// then a look for each record costs less.
fn end_meeting<I: PartIndex + Drop>(
    index: &I,
    catalog: &Catalog,
    keys: &mut RunKeys,
    range: Range,
    records: usize,
) -> Result<bool, NoMemory>
    requires parts { PartsRise (parts_of catalog.now.runs.items) }
    requires known { AreKnown (I.entries index.now) keys.old }
    ensures known { AreKnown (I.entries index.now) keys.new }
    ensures clear { IfOk result (λ none. none ≡ true → NoneMeets keys.new.apart.list.items range) }
{
    let mut left = (records as u64).saturating_mul(KEYS_A_RECORD);
    while let Some(first) = keys.apart().first_meeting(range) {
        let at = keys.apart().last_to(range.hi(), first);
        let cost = cost_of(catalog, keys, at);
        if cost > left {
            return Ok(false);
        }
        left -= cost;
        end_apart(index, keys, at)?;
    }
    Ok(true)
}

// What it costs to take the run at the index for another, in keys that are entered.
fn cost_of(catalog: &Catalog, keys: &RunKeys, at: usize) -> u64
    requires parts { PartsRise (parts_of catalog.now.runs.items) }
    requires in_range { at < length keys.now.apart.list.items }
{
    let runs = keys.apart().runs();
    let moved = (runs.len() - at) as u64;
    catalog
        .left_in(runs[at].part)
        .saturating_add(moved / MOVED_A_KEY)
}

// The same of the run at the index.
fn end_apart<I: PartIndex + Drop>(index: &I, keys: &mut RunKeys, at: usize) -> Result<(), NoMemory>
    requires known { AreKnown (I.entries index.now) keys.old }
    requires in_range { at < length keys.old.apart.list.items }
    ensures known { AreKnown (I.entries index.now) keys.new }
    ensures fewer { OnOk result (length keys.new.apart.list.items < length keys.old.apart.list.items) }
{
    let run = keys.apart().runs()[at];
    let numbers = run_numbers(
        index,
        keys.filters().hash(),
        run.part,
        keys.filters().alloc(),
    )?;
    keys.enter_run(run.part, run.range, &numbers)?;
    keys.end_apart(at);
    Ok(())
}

// Whether no key of these records, which have those numbers, is live in a run. Where they are clear, which none is that
// lies in the range of a run that stands apart, filters are asked of several at once.
fn live_in_none<I: PartIndex + Drop, S: RecordSource>(
    index: &I,
    keys: &RunKeys,
    records: &S,
    numbers: &[u64],
    are_clear: bool,
) -> bool
    requires sound { AreWellFormed (I.entries index.now) }
    requires known { AreKnown (I.entries index.now) keys.now }
    requires numbers { numbers.now ≡ numbers_of keys.now.filters.hash (S.records records.now) }
    requires clear { are_clear ≡ true → AllByRecursion (λ r. (run : ℕ) →
        StandsApart keys.now.apart.list.items run r.0 → ⊥) (S.records records.now) }
    ensures dead { result ≡ true →
        AllByRecursion (λ r. LivesInNoRun (I.entries index.now) r.0) (S.records records.now) }
    ensures live { result ≡ false → ¬ AreAllAbsent (I.entries index.now) (S.records records.now) }
{
    let mut from = 0;
    'ask: while from < records.len() {
        let to = records.len().min(from.saturating_add(AHEAD));
        if !these_live_in_none(
            index,
            keys,
            records,
            from,
            to,
            &numbers[from..to],
            are_clear,
        ) {
            return false;
        }
        from = to;
    }
    true
}

// The same of a few, from one place to another. Where they are clear and no filter may have one, no run is searched.
fn these_live_in_none<I: PartIndex + Drop, S: RecordSource>(
    index: &I,
    keys: &RunKeys,
    records: &S,
    from: usize,
    to: usize,
    numbers: &[u64],
    are_clear: bool,
) -> bool
    requires sound { AreWellFormed (I.entries index.now) }
    requires known { AreKnown (I.entries index.now) keys.now }
    requires order { from ≤ to }
    requires within { to ≤ length (S.records records.now) }
    requires numbers { numbers.now ≡ numbers_of keys.now.filters.hash
        (take (to - from) (drop from (S.records records.now))) }
    requires clear { are_clear ≡ true → AllByRecursion (λ r. (run : ℕ) →
        StandsApart keys.now.apart.list.items run r.0 → ⊥)
        (take (to - from) (drop from (S.records records.now))) }
    ensures dead { result ≡ true → AllByRecursion (λ r. LivesInNoRun (I.entries index.now) r.0)
        (take (to - from) (drop from (S.records records.now))) }
    ensures live { result ≡ false → ¬ AreAllAbsent (I.entries index.now) (S.records records.now) }
{
    if are_clear && !keys.filters().may_have_any(numbers) {
        return true;
    }
    for at in from..to {
        if live_in_runs(index, keys, records.key(at), Hint::none())
            .0
            .is_some()
        {
            return false;
        }
    }
    true
}
