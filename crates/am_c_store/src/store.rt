//! A store is opened and closed, and counted.

ghost use Rattle.std.specs.Prelude.{◌≡◌, None, IfOk, length};
ghost use Rattle.am_c_store.specs.StoreSteps.{Opens, IsNew, Closes, IsNumberTold};

use crate::handle::Handle;
use am_c_steps::Status;
use am_index_btree::BTree;
use am_record::{HashKey, LAST_RUN, NoMemory};
use am_store::Store;
use std::alloc::Global;

/// Opens an empty store behind a handle that has none. It makes as many runs as there are numbers.
pub fn open_store(alloc: Global, store: &mut Handle, hash: HashKey) -> u32
    ensures { Opens store.old.held result store.new.held }
{
    if let Some(open) = store.take(alloc) {
        store.put(open);
        return Status::IsOpen.code();
    }
    match new_store(alloc, hash) {
        Ok(new) => {
            store.put(new);
            Status::Fine.code()
        }
        Err(NoMemory) => Status::NoMemory.code(),
    }
}

fn new_store(alloc: Global, hash: HashKey) -> Result<Box<Store<BTree>>, NoMemory>
    ensures { IfOk result (λ b. IsNew b.value) }
{
    let store = Store::open_for(alloc, BTree::new(alloc)?, hash, LAST_RUN)?;
    Ok(Box::new(alloc, store)?)
}

/// Gives back all memory of the store, whatever is open in it, and leaves the handle without one.
pub fn close_store(alloc: Global, store: &mut Handle) -> u32
    ensures told { Closes store.old.held result }
    ensures closed { store.new.held ≡ None }
{
    match store.take(alloc) {
        Some(open) => {
            drop(open);
            Status::Fine.code()
        }
        None => Status::NoStore.code(),
    }
}

/// How many transactions committed.
pub fn tell_commits(alloc: Global, store: &mut Handle, told: &mut u64) -> u32
    ensures count { IsNumberTold (λ p. p.commits) store.old.held result told.new }
    ensures kept { store.new.held ≡ store.old.held }
{
    let Some(open) = store.take(alloc) else {
        *told = 0;
        return Status::NoStore.code();
    };
    *told = open.commits();
    store.put(open);
    Status::Fine.code()
}

/// How many entries the index has, those marked as deleted too.
pub fn tell_entries(alloc: Global, store: &mut Handle, told: &mut u64) -> u32
    ensures count { IsNumberTold (λ p. length p.entries) store.old.held result told.new }
    ensures kept { store.new.held ≡ store.old.held }
{
    let Some(open) = store.take(alloc) else {
        *told = 0;
        return Status::NoStore.code();
    };
    *told = open.figures().entries;
    store.put(open);
    Status::Fine.code()
}
