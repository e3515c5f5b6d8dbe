//! The calls of single records.

ghost use Rattle.std.specs.Prelude.{◌≡◌};
ghost use Rattle.am_c_steps.specs.AskedSteps.{get_asked, insert_asked, replace_asked, set_asked, delete_asked};
ghost use Rattle.am_c_steps.specs.AnswerParts.{value_told};
ghost use Rattle.am_c_steps.specs.Statuses.{status, number};
ghost use Rattle.am_c_store.specs.StoreSteps.{Tells};

use am_c_steps::{
    ValueText, delete_asked, get_asked, insert_asked, number_told, replace_asked, set_asked,
    status_told, tell_value,
};
use am_c_store::{Handle, take_step, tell};
use std::alloc::Global;

/// Reads a record: its value goes out where there is one.
#[unsafe(no_mangle)]
pub extern "C" fn tiuvrokk_get(
    alloc: Global,
    store: &mut Handle,
    tx: u64,
    key: &[u8],
    value: &mut ValueText,
    told: &mut u64,
) -> u32
    ensures { Tells store.old.held (get_asked tx key.now) store.new.held
        (λ answer. (result ≡ status answer) × (told.new ≡ number answer) × (value.new ≡ value_told answer value.old)) }
{
    let answer = take_step(alloc, store, get_asked(tx, key));
    tell_value(&answer, value);
    *told = number_told(&answer);
    status_told(&answer)
}

/// Adds a record where its key has none.
#[unsafe(no_mangle)]
pub extern "C" fn tiuvrokk_insert(
    alloc: Global,
    store: &mut Handle,
    tx: u64,
    key: &[u8],
    value: &[u8],
    told: &mut u64,
) -> u32
    ensures { Tells store.old.held (insert_asked tx key.now value.now) store.new.held
        (λ answer. (result ≡ status answer) × (told.new ≡ number answer)) }
{
    tell(alloc, store, insert_asked(tx, key, value), told)
}

/// Gives a record another value.
#[unsafe(no_mangle)]
pub extern "C" fn tiuvrokk_replace(
    alloc: Global,
    store: &mut Handle,
    tx: u64,
    key: &[u8],
    value: &[u8],
    told: &mut u64,
) -> u32
    ensures { Tells store.old.held (replace_asked tx key.now value.now) store.new.held
        (λ answer. (result ≡ status answer) × (told.new ≡ number answer)) }
{
    tell(alloc, store, replace_asked(tx, key, value), told)
}

/// Sets a record, whether or not its key has one.
#[unsafe(no_mangle)]
pub extern "C" fn tiuvrokk_set(
    alloc: Global,
    store: &mut Handle,
    tx: u64,
    key: &[u8],
    value: &[u8],
    told: &mut u64,
) -> u32
    ensures { Tells store.old.held (set_asked tx key.now value.now) store.new.held
        (λ answer. (result ≡ status answer) × (told.new ≡ number answer)) }
{
    tell(alloc, store, set_asked(tx, key, value), told)
}

/// Takes a record away.
#[unsafe(no_mangle)]
pub extern "C" fn tiuvrokk_delete(
    alloc: Global,
    store: &mut Handle,
    tx: u64,
    key: &[u8],
    told: &mut u64,
) -> u32
    ensures { Tells store.old.held (delete_asked tx key.now) store.new.held
        (λ answer. (result ≡ status answer) × (told.new ≡ number answer)) }
{
    tell(alloc, store, delete_asked(tx, key), told)
}
