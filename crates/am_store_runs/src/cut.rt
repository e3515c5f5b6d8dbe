//! Cutting records into runs.

ghost use Rattle.std.specs.Prelude.{◌≡◌, ℕ, true, drop, slice_get, IfSome, IfOk, IfErr};
ghost use Rattle.am_record.specs.Plain.{is_rising};
ghost use Rattle.am_store_runs.specs.Cuts.{keys_of, AreRunsOf, IsCut, IsCutFault, IsPieceFault, IsTwiceFault};
ghost use Rattle.am_store_runs.specs.Cuts.{IsRunSize, NoneTwice};
ghost use Rattle.am_store_runs.specs.RecordPlaces.{runs_named, AreOrders};

use crate::fault::LoadFault;
use crate::fronts::{keys_with, shared_fronts};
use crate::ordered::Ordered;
use crate::record_order::{Spot, order_of};
use crate::run::Run;
use crate::ties::{first_tie, over_all};
use am_index::{Listed, RecordSource};
use am_record::{Key, MAX_RUN_RECORDS, Value};
use std::alloc::Global;
use std::marker::Model;

/// Records that are cut into runs: of each run the order of its records is known, and none is copied. Seen as the runs
/// still to come.
#[derive(Drop)]
pub struct Cut<'a, S: RecordSource> {
    source: &'a S,
    // Of each run, where its records stand, by rising key.
    orders: Vec<Vec<Spot>>,
    // How many runs were passed.
    passed: usize,
}

impl<'a, S: RecordSource> Model for Cut<'a, S> {
    ghost use Rattle.std.specs.Prelude.{List, drop};
    ghost use Rattle.am_record.specs.Plain.{Records};
    ghost use Rattle.am_store_runs.specs.RecordPlaces.{runs_named, runs_code, AreOrders};

    ghost Value = { List Records };

    ghost coded = { runs_code };

    ghost view = { λ c. drop c.passed (runs_named (S.records c.source.now) c.orders.items) };

    ghost invariant = { λ c. AreOrders (S.records c.source.now) c.orders.items };
}

impl<'a, S: RecordSource> Cut<'a, S> {
    /// The run that comes next, if there is one. Takes no memory: its records stay where they lie.
    pub fn run(&self) -> Option<Ordered<'_, S>>
        ensures run { result ≡ slice_get self.now 0 }
        ensures rising { IfSome result (λ run. is_rising run ≡ true) }
    {
        let order = self.orders.get(self.passed)?;
        Some(Ordered::new(self.source, order))
    }

    /// Goes on to the run after it, if there is one.
    pub fn pass(&mut self)
        ensures { self.new ≡ drop 1 self.old }
    {
        if self.passed < self.orders.len() {
            self.passed += 1;
        }
    }
}

/// Cuts records in any order into runs: the first `n` of them make the first run, the next `n` the
/// second, and so on; the last run may have fewer. Each run is sorted. No records give no runs.
///
/// # Errors
/// BadSize, exactly where `n` isn't from 1 to 65,536. Twice, where a key stands twice in the
/// records, be it in two pieces: the least such key. NoMemory, where memory was refused; it may
/// come where Twice is due.
pub fn cut_runs(alloc: Global, records: &[(Key, Value)], n: usize) -> Result<Vec<Run>, LoadFault>
    ensures cut { IfOk result (λ runs. IsCut n records.now runs.items) }
    ensures fault { IfErr result (IsCutFault n records.now) }
{
    let listed = Listed { records };
    let mut cut = cut_source(alloc, &listed, n)?;
    let mut runs = Vec::new(alloc);
    while let Some(run) = cut.run() {
        runs.push(run.to_run(alloc)?)?;
        cut.pass();
    }
    Ok(runs)
}

/// The same of the records of a source, where each run is an order over them.
///
/// # Errors
/// As of `cut_runs`.
pub fn cut_source<S: RecordSource>(
    alloc: Global,
    source: &S,
    n: usize,
) -> Result<Cut<'_, S>, LoadFault>
    ensures cut { IfOk result (λ runs. IsCut n (S.records source.now) runs) }
    ensures fault { IfErr result (IsCutFault n (S.records source.now)) }
{
    if !(1..=MAX_RUN_RECORDS).contains(&n) {
        return Err(LoadFault::BadSize);
    }
    let orders = match orders_of(alloc, source, n) {
        Ok(orders) => orders,
        Err(fault) => return Err(over_all(alloc, source, fault)),
    };
    refuse_twice(alloc, source, &orders)?;
    Ok(Cut {
        source,
        orders,
        passed: 0,
    })
}

// The order of each piece, where no key stands twice in one of them.
fn orders_of<S: RecordSource>(
    alloc: Global,
    source: &S,
    n: usize,
) -> Result<Vec<Vec<Spot>>, LoadFault>
    requires { IsRunSize n }
    ensures orders { IfOk result (λ orders. AreOrders (S.records source.now) orders.items) }
    ensures runs { IfOk result (λ orders. AreRunsOf n (S.records source.now)
        (runs_named (S.records source.now) orders.items)) }
    ensures fault { IfErr result (IsPieceFault (S.records source.now)) }
{
    let len = source.len();
    let mut orders = Vec::new(alloc);
    let mut from = 0;
    while from < len {
        let to = from + n.min(len - from);
        orders.push(order_of(alloc, source, from, to)?)?;
        from = to;
    }
    Ok(orders)
}

// Fails where a key stands in two of the runs in these orders.
fn refuse_twice<S: RecordSource>(
    alloc: Global,
    source: &S,
    orders: &[Vec<Spot>],
) -> Result<(), LoadFault>
    requires orders { AreOrders (S.records source.now) orders.now }
    requires runs { (n : ℕ) × AreRunsOf n (S.records source.now) (runs_named (S.records source.now) orders.now) }
    ensures apart { IfOk result (λ _. NoneTwice (keys_of (S.records source.now))) }
    ensures fault { IfErr result (IsTwiceFault (S.records source.now)) }
{
    if orders.len() < 2 {
        return Ok(());
    }
    let shared = shared_fronts(alloc, orders, source.len())?;
    if shared.is_empty() {
        return Ok(());
    }
    // Only keys with one front may be equal.
    let mut keys = keys_with(alloc, source, orders, &shared)?;
    keys.sort_unstable();
    match first_tie(&keys) {
        Some(key) => Err(LoadFault::Twice(key)),
        None => Ok(()),
    }
}
