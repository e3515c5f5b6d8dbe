//! The next piece of a range to merge, as C is told it.

ghost use Rattle.std.specs.Prelude.{◌≡◌};
ghost use Rattle.am_store_merge.specs.Fronts.{IsNextInRuns};
ghost use Rattle.am_c_store.specs.Fronts.{TellsFront, front_status, front_end};

use crate::handle::Handle;
use am_c_steps::{KeyText, Status};
use am_index_btree::BTree;
use am_record::Range;
use am_store::Store;
use std::alloc::Global;

/// Tells where the next piece of the range to merge ends, where nobody asked. Idle, where no run has an entry in the
/// range.
pub fn tell_next_in_runs(
    alloc: Global,
    store: &mut Handle,
    asked: Result<Range, Status>,
    end: &mut KeyText,
) -> u32
    ensures told { TellsFront store.old.held asked end.old result end.new }
    ensures kept { store.new.held ≡ store.old.held }
{
    let Some(open) = store.take(alloc) else {
        return Status::NoStore.code();
    };
    let status = match asked {
        Ok(range) => tell_front(next_in_runs(&open, range), end),
        Err(why) => why.code(),
    };
    store.put(open);
    status
}

fn next_in_runs(store: &Box<Store<BTree>>, range: Range) -> Option<Range>
    ensures { IsNextInRuns store.now.value.entries range result }
{
    store.next_in_runs(range)
}

fn tell_front(front: Option<Range>, end: &mut KeyText) -> u32
    ensures status { result ≡ front_status front }
    ensures end { end.new ≡ front_end front end.old }
{
    let Some(front) = front else {
        return Status::Idle.code();
    };
    *end = KeyText::of(&front.hi());
    Status::Fine.code()
}
