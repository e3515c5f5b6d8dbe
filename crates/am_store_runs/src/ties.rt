//! Finding keys that stand twice.

ghost use Rattle.std.specs.Prelude.{◌≡◌, IfOk, MatchOption};
ghost use Rattle.std.specs.List.Sorted.{IsSorted};
ghost use Rattle.am_record.specs.OrderedKey.{key_cmp};
ghost use Rattle.am_store_runs.specs.Cuts.{keys_of, NoneTwice, IsLeastTwice, IsPieceFault, IsTwiceFault};

use crate::fault::LoadFault;
use am_index::RecordSource;
use am_record::{Key, NoMemory};
use std::alloc::{AllocError, Global};

/// The fault of the records by that of some of them: a lower key may stand twice elsewhere.
pub(crate) fn over_all<S: RecordSource>(alloc: Global, source: &S, fault: LoadFault) -> LoadFault
    requires { IsPieceFault (S.records source.now) fault }
    ensures { IsTwiceFault (S.records source.now) result }
{
    if fault == LoadFault::NoMemory {
        return fault;
    }
    match least_twice(alloc, source) {
        Ok(Some(key)) => LoadFault::Twice(key),
        Ok(None) => fault,
        Err(_) => LoadFault::NoMemory,
    }
}

// The least of the keys that stand twice in the records.
fn least_twice<S: RecordSource>(alloc: Global, source: &S) -> Result<Option<Key>, NoMemory>
    ensures { IfOk result (λ found. MatchOption found (NoneTwice (keys_of (S.records source.now)))
        (IsLeastTwice (keys_of (S.records source.now)))) }
{
    let mut keys = keys_in(alloc, source)?;
    keys.sort_unstable();
    Ok(first_tie(&keys))
}

fn keys_in<S: RecordSource>(alloc: Global, source: &S) -> Result<Vec<Key>, AllocError>
    ensures { IfOk result (λ keys. keys.items ≡ keys_of (S.records source.now)) }
{
    let len = source.len();
    let mut keys = Vec::with_capacity(alloc, len)?;
    for at in 0..len {
        keys.push(source.key(at))?;
    }
    Ok(keys)
}

/// The first key of a sorted list that the next one equals.
pub(crate) fn first_tie(keys: &[Key]) -> Option<Key>
    requires { IsSorted key_cmp keys.now }
    ensures { MatchOption result (NoneTwice keys.now) (IsLeastTwice keys.now) }
{
    let mut left = keys;
    while let [key, next, ..] = left {
        if key == next {
            return Some(*key);
        }
        left = &left[1..];
    }
    None
}
