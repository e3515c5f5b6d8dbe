//! Steps of the store behind a handle.

ghost use Rattle.std.specs.Prelude.{◌≡◌, true};
ghost use Rattle.am_record.specs.Plain.{is_rising};
ghost use Rattle.am_record.specs.declared.step.Op.TheVariants.{Load};
ghost use Rattle.am_record.specs.declared.step.Step.TheVariants.{Do};
ghost use Rattle.am_c_steps.specs.Statuses.{status, number};
ghost use Rattle.am_c_store.specs.StoreSteps.{Answers, Takes, Tells};

use crate::handle::Handle;
use am_c_steps::{Status, number_told, status_told};
use am_index_btree::BTree;
use am_record::{Reply, Step};
use am_store::Store;
use am_store_runs::RecordSource;
use std::alloc::Global;

/// Takes the step that is asked for, where the handle has a store.
///
/// # Errors
/// NoStore, or what was wrong with what was given; nothing is changed.
#[inline(never)]
pub fn take_step(
    alloc: Global,
    handle: &mut Handle,
    asked: Result<Step, Status>,
) -> Result<Reply, Status>
    ensures { Answers handle.old.held asked result handle.new.held }
{
    let Some(mut store) = handle.take(alloc) else {
        return Err(Status::NoStore);
    };
    let answer = match asked {
        Ok(step) => Ok(take_there(&mut store, step)),
        Err(why) => Err(why),
    };
    handle.put(store);
    answer
}

pub(crate) fn take_there(store: &mut Box<Store<BTree>>, step: Step) -> Reply
    ensures { Takes store.old.value step result store.new.value }
{
    let store = &mut **store;
    store.step(step)
}

/// Loads the records of a source, which rise, where they lie.
pub(crate) fn load_there<S: RecordSource>(
    store: &mut Box<Store<BTree>>,
    tx: u64,
    records: &S,
) -> Reply
    requires { is_rising (S.records records.now) ≡ true }
    ensures { Takes store.old.value (Do tx (Load (S.records records.now))) result store.new.value }
{
    let store = &mut **store;
    store.load(tx, records)
}

/// Takes a step, and tells C its status and its number.
#[inline(never)]
pub fn tell(alloc: Global, handle: &mut Handle, asked: Result<Step, Status>, told: &mut u64) -> u32
    ensures { Tells handle.old.held asked handle.new.held
        (λ answer. (result ≡ status answer) × (told.new ≡ number answer)) }
{
    let answer = take_step(alloc, handle, asked);
    *told = number_told(&answer);
    status_told(&answer)
}
