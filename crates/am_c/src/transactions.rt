//! The calls of a transaction as a whole.

ghost use Rattle.std.specs.Prelude.{◌≡◌, Ok};
ghost use Rattle.am_record.specs.declared.step.Step.TheVariants.{Begin, Do, Commit, Abort};
ghost use Rattle.am_record.specs.declared.step.Op.TheVariants.{Mark, Back};
ghost use Rattle.am_c_steps.specs.Statuses.{status, number};
ghost use Rattle.am_c_store.specs.StoreSteps.{Tells};

use am_c_store::{Handle, tell};
use am_record::{Op, Step};
use std::alloc::Global;

/// Begins a transaction: the number told is its number.
#[unsafe(no_mangle)]
pub extern "C" fn tiuvrokk_begin(alloc: Global, store: &mut Handle, told: &mut u64) -> u32
    ensures { Tells store.old.held (Ok Begin) store.new.held
        (λ answer. (result ≡ status answer) × (told.new ≡ number answer)) }
{
    tell(alloc, store, Ok(Step::Begin), told)
}

/// Commits a transaction: the number told is that of the commit.
#[unsafe(no_mangle)]
pub extern "C" fn tiuvrokk_commit(alloc: Global, store: &mut Handle, tx: u64, told: &mut u64) -> u32
    ensures { Tells store.old.held (Ok (Commit tx)) store.new.held
        (λ answer. (result ≡ status answer) × (told.new ≡ number answer)) }
{
    tell(alloc, store, Ok(Step::Commit(tx)), told)
}

/// Takes back what a transaction wrote, and ends it.
#[unsafe(no_mangle)]
pub extern "C" fn tiuvrokk_abort(alloc: Global, store: &mut Handle, tx: u64, told: &mut u64) -> u32
    ensures { Tells store.old.held (Ok (Abort tx)) store.new.held
        (λ answer. (result ≡ status answer) × (told.new ≡ number answer)) }
{
    tell(alloc, store, Ok(Step::Abort(tx)), told)
}

/// Sets a savepoint.
#[unsafe(no_mangle)]
pub extern "C" fn tiuvrokk_mark(alloc: Global, store: &mut Handle, tx: u64, told: &mut u64) -> u32
    ensures { Tells store.old.held (Ok (Do tx Mark)) store.new.held
        (λ answer. (result ≡ status answer) × (told.new ≡ number answer)) }
{
    tell(alloc, store, Ok(Step::Do(tx, Op::Mark)), told)
}

/// Goes back to the newest savepoint.
#[unsafe(no_mangle)]
pub extern "C" fn tiuvrokk_back(alloc: Global, store: &mut Handle, tx: u64, told: &mut u64) -> u32
    ensures { Tells store.old.held (Ok (Do tx Back)) store.new.held
        (λ answer. (result ≡ status answer) × (told.new ≡ number answer)) }
{
    tell(alloc, store, Ok(Step::Do(tx, Op::Back)), told)
}
