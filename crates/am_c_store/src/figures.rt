//! How large a store is, as C is told it.

ghost use Rattle.std.specs.Prelude.{◌≡◌};
ghost use Rattle.am_c_store.specs.StoreFigures.{AreFiguresOf, TellsFigures};

use crate::handle::Handle;
use am_c_steps::Status;
use am_index_btree::BTree;
use am_store::Store;
use std::alloc::Global;

/// `tvk_figures_t` of the header.
#[repr(C)]
#[derive(Clone, Copy)]
pub struct StoreFigures {
    pub entries: u64,
    pub in_final: u64,
    pub in_runs: u64,
    pub runs: u64,
    pub ghosts: u64,
    pub active: u64,
    pub commits: u64,
}

/// How large the store is: the index isn't looked into.
pub fn tell_figures(alloc: Global, store: &mut Handle, figures: &mut StoreFigures) -> u32
    ensures told { TellsFigures store.old.held figures.old result figures.new }
    ensures kept { store.new.held ≡ store.old.held }
{
    let Some(open) = store.take(alloc) else {
        return Status::NoStore.code();
    };
    *figures = figures_of(&open);
    store.put(open);
    Status::Fine.code()
}

fn figures_of(store: &Box<Store<BTree>>) -> StoreFigures
    ensures { AreFiguresOf store.now.value result }
{
    let index = store.figures();
    StoreFigures {
        entries: index.entries,
        in_final: index.in_final,
        in_runs: index.in_runs,
        runs: index.runs,
        ghosts: index.ghosts,
        active: store.active(),
        commits: store.commits(),
    }
}
