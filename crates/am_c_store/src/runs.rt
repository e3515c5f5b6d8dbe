//! Records in any order: they are cut into runs, and these are loaded or put in turn.

ghost use Rattle.std.specs.Prelude.{◌≡◌, ◌<◌, ◌^◌, [], Some, Ok, Err, length, true};
ghost use Rattle.am_record.specs.Plain.{is_rising};
ghost use Rattle.am_store_runs.specs.Cuts.{records_of};
ghost use Rattle.am_c_steps.specs.LoadAnswers.{without_key, load_key_told};
ghost use Rattle.am_c_steps.specs.Statuses.{status, number};
ghost use Rattle.am_c_store.specs.Loads.{given_by, Brings, LoadInTurn, Loads, TellsRuns};

use crate::handle::Handle;
use crate::store_steps::{load_there, take_there};
use am_c_steps::{
    Bringing, KeyText, LoadFailure, Status, failure_of, number_told, status_told, tell_load_key,
    without_key,
};
use am_index_btree::BTree;
use am_record::{MAX_RUN_RECORDS, Records, Refusal, Reply, Step};
use am_store::Store;
use am_store_runs::{Arrange, Cut, Ordered, RecordSource, cut_source};
use std::alloc::Global;

/// Loads what was given, and tells how that ended.
pub fn tell_runs<S: Arrange + Drop>(
    alloc: Global,
    store: &mut Handle,
    tx: u64,
    bringing: Bringing,
    given: Result<S, Status>,
    key: &mut KeyText,
    loaded: &mut u64,
    told: &mut u64,
) -> u32
    ensures { TellsRuns store.old.held tx bringing (given_by S.records given) store.new.held
        (λ n answer. (result ≡ status (without_key answer)) × (told.new ≡ number (without_key answer))
        × (key.new ≡ load_key_told answer key.old) × (loaded.new ≡ n)) }
{
    let end = load_given(alloc, store, tx, bringing, given);
    *loaded = end.records;
    tell_load_key(&end.answer, key);
    let answer = without_key(end.answer);
    *told = number_told(&answer);
    status_told(&answer)
}

// How a load ended.
#[derive(Drop)]
struct Loaded {
    // How many records were loaded.
    records: u64,
    // The store's reply to the last run that it was asked to load, or why there was none.
    answer: Result<Reply, LoadFailure>,
}

// Loads what was given, run after run, until one is refused.
#[inline(never)]
fn load_given<S: Arrange + Drop>(
    alloc: Global,
    handle: &mut Handle,
    tx: u64,
    bringing: Bringing,
    given: Result<S, Status>,
) -> Loaded
    ensures { Loads handle.old.held tx bringing (given_by S.records given) result.records result.answer
        handle.new.held }
{
    let Some(mut store) = handle.take(alloc) else {
        return not_loaded(LoadFailure::Other(Status::NoStore));
    };
    let loaded = match given {
        Ok(source) => load_source(alloc, &mut store, tx, bringing, &source),
        Err(why) => not_loaded(LoadFailure::Other(why)),
    };
    handle.put(store);
    loaded
}

fn not_loaded(failure: LoadFailure) -> Loaded
    ensures records { result.records ≡ 0 }
    ensures answer { result.answer ≡ Err failure }
{
    Loaded {
        records: 0,
        answer: Err(failure),
    }
}

// Loads the records of a source. Of none the store is asked for a run of none, which it refuses.
fn load_source<S: Arrange>(
    alloc: Global,
    store: &mut Box<Store<BTree>>,
    tx: u64,
    bringing: Bringing,
    source: &S,
) -> Loaded
    ensures { Loads (Some store.old.value) tx bringing (Ok (S.records source.now)) result.records result.answer
        (Some store.new.value) }
{
    if source.len() == 0 {
        return load_none(alloc, store, tx, bringing);
    }
    match cut_source(alloc, source, MAX_RUN_RECORDS) {
        Ok(runs) => {
            let (records, reply) = load_in_turn(alloc, store, tx, bringing, runs);
            let answer = Ok(reply);
            Loaded { records, answer }
        }
        Err(why) => not_loaded(failure_of(why)),
    }
}

fn load_none(alloc: Global, store: &mut Box<Store<BTree>>, tx: u64, bringing: Bringing) -> Loaded
    ensures { Loads (Some store.old.value) tx bringing (Ok []) result.records result.answer (Some store.new.value) }
{
    let none = Records::new(Vec::new(alloc));
    Loaded {
        records: 0,
        answer: Ok(take_there(store, Step::Do(tx, bringing.op(none)))),
    }
}

// Each run by a step of its own: how many records were brought in, and the last reply.
fn load_in_turn<S: Arrange>(
    alloc: Global,
    store: &mut Box<Store<BTree>>,
    tx: u64,
    bringing: Bringing,
    runs: Cut<'_, S>,
) -> (u64, Reply)
    requires { length (records_of runs) < 2 ^ 64 }
    ensures { LoadInTurn tx bringing runs.entry store.old.value result.0 result.1 store.new.value }
{
    let mut runs = runs;
    let mut records = 0;
    while let Some(run) = runs.run() {
        let len = run.len() as u64;
        match bring(alloc, store, tx, bringing, &run) {
            Reply::Done => records += len,
            refused => return (records, refused),
        }
        runs.pass();
    }
    (records, Reply::Done)
}

// Brings a run in. A load reads its records where they lie, or as its source copied them; a put has some of its own,
// which it parts.
fn bring<S: Arrange>(
    alloc: Global,
    store: &mut Box<Store<BTree>>,
    tx: u64,
    bringing: Bringing,
    run: &Ordered<'_, S>,
) -> Reply
    requires { is_rising run.now ≡ true }
    ensures { Brings store.old.value tx bringing run.now result store.new.value }
{
    match bringing {
        Bringing::Load => match run.arranged(alloc) {
            Some(copied) => load_there(store, tx, &copied),
            None => load_there(store, tx, run),
        },
        Bringing::Put => {
            let Ok(run) = run.to_run(alloc) else {
                return Reply::Refused(Refusal::NoMemory);
            };
            let records = Records::new(run.into_records());
            take_there(store, Step::Do(tx, bringing.op(records)))
        }
    }
}
