//! The calls of a store itself: it is opened and closed, merged and cleaned, and counted.

ghost use Rattle.std.specs.Prelude.{◌≡◌, None, Ok, length};
ghost use Rattle.am_record.specs.declared.step.Step.TheVariants.{Merge};
ghost use Rattle.am_c_steps.specs.AskedSteps.{clean_asked};
ghost use Rattle.am_c_steps.specs.Statuses.{status, number};
ghost use Rattle.am_c_steps.specs.Texts.{range_given};
ghost use Rattle.am_c_store.specs.Fronts.{TellsFront};
ghost use Rattle.am_c_store.specs.StoreSteps.{Tells, Opens, Closes, IsNumberTold};
ghost use Rattle.am_c_store.specs.StoreFigures.{TellsFigures};

use am_c_steps::{KeyText, clean_asked, range_given};
use am_c_store::{
    Handle, StoreFigures, close_store, open_store, tell, tell_commits, tell_entries, tell_figures,
    tell_next_in_runs,
};
use am_record::{HashKey, Step};
use std::alloc::Global;

/// Opens an empty store behind a handle that has none. The two words are its hash key's.
#[unsafe(no_mangle)]
pub extern "C" fn tiuvrokk_open(alloc: Global, store: &mut Handle, first: u64, second: u64) -> u32
    ensures { Opens store.old.held result store.new.held }
{
    open_store(alloc, store, HashKey::new(first, second))
}

/// Gives back all memory of the store, whatever is open in it, and leaves the handle without one.
#[unsafe(no_mangle)]
pub extern "C" fn tiuvrokk_close(alloc: Global, store: &mut Handle) -> u32
    ensures told { Closes store.old.held result }
    ensures closed { store.new.held ≡ None }
{
    close_store(alloc, store)
}

/// One merge step: the number told is how many entries were worked off, or who is in the way.
#[unsafe(no_mangle)]
pub extern "C" fn tiuvrokk_merge(
    alloc: Global,
    store: &mut Handle,
    limit: u64,
    told: &mut u64,
) -> u32
    ensures { Tells store.old.held (Ok (Merge limit)) store.new.held
        (λ answer. (result ≡ status answer) × (told.new ≡ number answer)) }
{
    tell(alloc, store, Ok(Step::Merge(limit)), told)
}

/// One clean step: the number told is how many ghosts are gone.
#[unsafe(no_mangle)]
pub extern "C" fn tiuvrokk_clean(
    alloc: Global,
    store: &mut Handle,
    lo: &[u8],
    hi: &[u8],
    limit: u64,
    told: &mut u64,
) -> u32
    ensures { Tells store.old.held (clean_asked lo.now hi.now limit) store.new.held
        (λ answer. (result ≡ status answer) × (told.new ≡ number answer)) }
{
    tell(alloc, store, clean_asked(lo, hi, limit), told)
}

/// Where the next piece of a range to merge ends, where nobody asked: each run has at most 16 entries up to that key.
#[unsafe(no_mangle)]
pub extern "C" fn tiuvrokk_next_in_runs(
    alloc: Global,
    store: &mut Handle,
    lo: &[u8],
    hi: &[u8],
    end: &mut KeyText,
) -> u32
    ensures told { TellsFront store.old.held (range_given lo.now hi.now) end.old result end.new }
    ensures kept { store.new.held ≡ store.old.held }
{
    tell_next_in_runs(alloc, store, range_given(lo, hi), end)
}

/// How many transactions committed.
#[unsafe(no_mangle)]
pub extern "C" fn tiuvrokk_commits(alloc: Global, store: &mut Handle, told: &mut u64) -> u32
    ensures count { IsNumberTold (λ p. p.commits) store.old.held result told.new }
    ensures kept { store.new.held ≡ store.old.held }
{
    tell_commits(alloc, store, told)
}

/// How many entries the index has, those marked as deleted too.
#[unsafe(no_mangle)]
pub extern "C" fn tiuvrokk_entries(alloc: Global, store: &mut Handle, told: &mut u64) -> u32
    ensures count { IsNumberTold (λ p. length p.entries) store.old.held result told.new }
    ensures kept { store.new.held ≡ store.old.held }
{
    tell_entries(alloc, store, told)
}

/// How large the store is: the index isn't looked into.
#[unsafe(no_mangle)]
pub extern "C" fn tiuvrokk_figures(
    alloc: Global,
    store: &mut Handle,
    figures: &mut StoreFigures,
) -> u32
    ensures told { TellsFigures store.old.held figures.old result figures.new }
    ensures kept { store.new.held ≡ store.old.held }
{
    tell_figures(alloc, store, figures)
}
