//! Looks for live keys.

ghost use Rattle.std.specs.Prelude.{◌≡◌, ◌<◌, ℕ, true, false, Some, is_some, IfSome, IfNone};
ghost use Rattle.am_index.specs.Content.{live_value};
ghost use Rattle.am_index_parts.specs.Partitions.{AreWellFormed, IsLiveEntry, LivesInNoRun};
ghost use Rattle.am_index_parts.specs.RunFilters.{LivesInRun, IsNamed, MayBeIn};
ghost use Rattle.am_index_parts.specs.RunKeys.{AreKnown};
ghost use Rattle.am_record.specs.KeyNumber.{key_number};

use crate::run_filters::{RunFilter, RunFilters};
use crate::run_keys::RunKeys;
use am_index::{Hint, PartIndex};
use am_record::{Entry, Key, Value};

/// The entry of a run that has the key live, and a hint for it. Runs in which it may be are searched: the one in whose
/// range it lies, and then the newest first, since fresh runs are asked for most. The hint is for the first of these;
/// where there is none, it is given back.
pub(crate) fn live_in_runs<I: PartIndex + Drop>(
    index: &I,
    keys: &RunKeys,
    key: Key,
    hint: Hint,
) -> (Option<Entry>, Hint)
    requires sound { AreWellFormed (I.entries index.now) }
    requires known { AreKnown (I.entries index.now) keys.now }
    ensures live { IfSome result.0 (λ e. IsLiveEntry (I.entries index.now) key e) }
    ensures absent { IfNone result.0 (LivesInNoRun (I.entries index.now) key) }
{
    let (found, next) = live_in_holder(index, keys.apart().holder(key), key, hint);
    if found.is_some() {
        return (found, next);
    }
    if !keys.spans(key) {
        return (None, next);
    }
    live_by_filters(index, keys.filters(), key, next)
}

// The entry of the run, if there is one, that has the key live there, and a hint for it.
fn live_in_holder<I: PartIndex + Drop>(
    index: &I,
    holder: Option<u32>,
    key: Key,
    hint: Hint,
) -> (Option<Entry>, Hint)
    requires sound { AreWellFormed (I.entries index.now) }
    ensures live { IfSome result.0 (λ e. IsLiveEntry (I.entries index.now) key e) }
    ensures absent { IfNone result.0 ((run : ℕ) → holder ≡ Some run → LivesInRun (I.entries index.now) key run → ⊥) }
{
    let Some(run) = holder else {
        return (None, hint);
    };
    let (slot, there) = index.look(run, key, hint);
    let found = live_at(run, key, slot);
    if found.is_some() {
        return (found, there);
    }
    (None, Hint::none())
}

// The entry of a run that has the key live, and a hint for it, where filters say in which it may be.
fn live_by_filters<I: PartIndex + Drop>(
    index: &I,
    filters: &RunFilters,
    key: Key,
    hint: Hint,
) -> (Option<Entry>, Hint)
    requires sound { AreWellFormed (I.entries index.now) }
    ensures live { IfSome result.0 (λ e. IsLiveEntry (I.entries index.now) key e) }
    ensures absent { IfNone result.0 ((run : ℕ) → LivesInRun (I.entries index.now) key run →
        MayBeIn true filters.now.generations.items run (key_number filters.now.hash key) → ⊥) }
{
    let number = filters.number(key);
    let generations = filters.generations();
    let mut next = hint;
    for at in (0..generations.len()).rev() {
        let generation = &generations[at];
        if generation.may_have(number) {
            let (found, there) = live_in_these(index, &generation.runs, number, key, next);
            if found.is_some() {
                return (found, there);
            }
            next = there;
        }
    }
    (None, next)
}

// The entry of one of these runs that has the key of a number live, and a hint for it.
fn live_in_these<I: PartIndex + Drop>(
    index: &I,
    runs: &[RunFilter],
    number: u64,
    key: Key,
    hint: Hint,
) -> (Option<Entry>, Hint)
    requires sound { AreWellFormed (I.entries index.now) }
    ensures live { IfSome result.0 (λ e. IsLiveEntry (I.entries index.now) key e) }
    ensures absent { IfNone result.0 ((run : ℕ) → LivesInRun (I.entries index.now) key run →
        IsNamed true runs.now run number → ⊥) }
{
    let mut next = hint;
    for at in (0..runs.len()).rev() {
        let run = &runs[at];
        if run.may_have(number) {
            let (slot, there) = index.look(run.part, key, next);
            let found = live_at(run.part, key, slot);
            if found.is_some() {
                return (found, there);
            }
            next = Hint::none();
        }
    }
    (None, next)
}

/// The entry of what stands live at a place.
pub(crate) fn live_at(part: u32, key: Key, slot: Option<(Value, bool)>) -> Option<Entry>
    ensures live { IfSome result (λ e. (slot ≡ Some (e.value, false)) × (e.part ≡ part) × (e.key ≡ key) ×
        (e.is_ghost ≡ false)) }
    ensures none { IfNone result (is_some (live_value slot) ≡ false) }
{
    let (value, is_ghost) = slot?;
    if is_ghost {
        return None;
    }
    Some(Entry {
        part,
        key,
        value,
        is_ghost,
    })
}
