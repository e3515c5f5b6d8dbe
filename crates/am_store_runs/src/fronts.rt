//! Fronts that several keys have: only such keys may be equal.

ghost use Rattle.std.specs.Prelude.{◌≡◌, ◌==◌, ◌<◌, ◌++◌, OnOk, IfOk};
ghost use Rattle.std.specs.List.{AllPairs, prefix_len};
ghost use Rattle.std.specs.List.Sorted.{IsNonDecreasing};
ghost use Rattle.am_store_runs.specs.Cuts.{keys_of, records_of};
ghost use Rattle.am_store_runs.specs.Fronts.{fronts_in, is_member, with_fronts, AreShared};
ghost use Rattle.am_store_runs.specs.RecordPlaces.{records_at, runs_named, AreOrders, IsOrder};

use crate::record_order::Spot;
use am_index::RecordSource;
use am_record::Key;
use std::alloc::{AllocError, Global};

/// The fronts that two spots or more of these orders have, each once and rising. There are `len` spots.
pub(crate) fn shared_fronts(
    alloc: Global,
    orders: &[Vec<Spot>],
    len: usize,
) -> Result<Vec<u64>, AllocError>
    ensures { IfOk result (λ shared. AreShared (fronts_in orders.now) shared.items) }
{
    let mut fronts = fronts_in(alloc, orders, len)?;
    // Each run's never fall, so that the stable sort merges them.
    fronts.sort()?;
    repeated(alloc, &fronts)
}

fn fronts_in(alloc: Global, orders: &[Vec<Spot>], len: usize) -> Result<Vec<u64>, AllocError>
    ensures { IfOk result (λ fronts. fronts.items ≡ fronts_in orders.now) }
{
    let mut fronts = Vec::with_capacity(alloc, len)?;
    for order in orders {
        for spot in order {
            fronts.push(spot.front)?;
        }
    }
    Ok(fronts)
}

// The numbers that stand twice or more in a sorted list.
fn repeated(alloc: Global, sorted: &[u64]) -> Result<Vec<u64>, AllocError>
    requires { IsNonDecreasing sorted.now }
    ensures { IfOk result (λ repeated. AreShared sorted.now repeated.items) }
{
    let mut repeated = Vec::new(alloc);
    let mut left = sorted;
    while let [number, ..] = left {
        let (group, others) = left.split_at(count_alike(left, *number));
        if group.len() > 1 {
            repeated.push(*number)?;
        }
        left = others;
    }
    Ok(repeated)
}

// How often the number stands at the beginning.
fn count_alike(numbers: &[u64], number: u64) -> usize
    ensures { result ≡ prefix_len (λ n. n == number) numbers.now }
{
    numbers.iter().take_while(|n| **n == number).count()
}

/// The keys of these orders' records that have one of the fronts, which rise.
pub(crate) fn keys_with<S: RecordSource>(
    alloc: Global,
    source: &S,
    orders: &[Vec<Spot>],
    fronts: &[u64],
) -> Result<Vec<Key>, AllocError>
    requires orders { AreOrders (S.records source.now) orders.now }
    requires rising { AllPairs ◌<◌ fronts.now }
    ensures { IfOk result (λ keys. keys.items ≡
        with_fronts fronts.now (keys_of (records_of (runs_named (S.records source.now) orders.now)))) }
{
    let mut keys = Vec::new(alloc);
    for order in orders {
        add_keys_with(source, order, fronts, &mut keys)?;
    }
    Ok(keys)
}

fn add_keys_with<S: RecordSource>(
    source: &S,
    order: &[Spot],
    fronts: &[u64],
    keys: &mut Vec<Key>,
) -> Result<(), AllocError>
    requires order { IsOrder (S.records source.now) order.now }
    requires rising { AllPairs ◌<◌ fronts.now }
    ensures { OnOk result (keys.new.items ≡ keys.old.items ++
        with_fronts fronts.now (keys_of (records_at (S.records source.now) order.now))) }
{
    for spot in order {
        if has(fronts, spot.front) {
            keys.push(source.key(spot.place))?;
        }
    }
    Ok(())
}

// Whether the number is one of those that rise.
fn has(rising: &[u64], number: u64) -> bool
    requires { AllPairs ◌<◌ rising.now }
    ensures { result ≡ is_member number rising.now }
{
    rising.binary_search(&number).is_ok()
}
