//! The calls of ranges and of many records.

ghost use Rattle.std.specs.Prelude.{◌≡◌, ◌+◌, length};
ghost use Rattle.am_c_steps.specs.AnswerParts.{all, rows_behind, rows_told, count_told, key_told};
ghost use Rattle.am_c_steps.specs.AskedSteps.{scan_asked, scan_back_asked, delete_range_asked, lock_asked};
ghost use Rattle.am_c_steps.specs.Statuses.{status, number};
ghost use Rattle.am_c_store.specs.StoreSteps.{Tells, TellsRecords};
ghost use Rattle.am_c_steps.specs.declared.bringing.Bringing.TheVariants.{Load, Put};

use am_c_steps::{
    Bringing, KeyText, Record, delete_range_asked, lock_asked, number_told, records_asked,
    scan_asked, scan_back_asked, status_told, tell_key, tell_rows, tell_rows_behind,
};
use am_c_store::{Handle, take_step, tell};
use std::alloc::Global;

/// Scans a range, as many of its first records as there are rows: the number told is how many were written.
#[unsafe(no_mangle)]
pub extern "C" fn tiuvrokk_scan(
    alloc: Global,
    store: &mut Handle,
    tx: u64,
    lo: &[u8],
    hi: &[u8],
    rows: &mut [Record],
    told: &mut u64,
) -> u32
    ensures { Tells store.old.held (scan_asked tx lo.now hi.now (length rows.old)) store.new.held
        (λ answer. (result ≡ status answer) × (told.new ≡ count_told all answer)
        × (rows.new ≡ rows_told all answer rows.old)) }
{
    let answer = take_step(alloc, store, scan_asked(tx, lo, hi, rows.len() as u64));
    *told = tell_rows(&answer, rows);
    status_told(&answer)
}

/// Scans what lies after a key, up to another one, so that a scan goes on. There may be 999 rows: the record of the
/// key itself is read too.
#[unsafe(no_mangle)]
pub extern "C" fn tiuvrokk_scan_behind(
    alloc: Global,
    store: &mut Handle,
    tx: u64,
    key: &[u8],
    hi: &[u8],
    rows: &mut [Record],
    told: &mut u64,
) -> u32
    ensures { Tells store.old.held (scan_asked tx key.now hi.now (length rows.old + 1)) store.new.held
        (λ answer. (result ≡ status answer) × (told.new ≡ count_told (rows_behind key.now (length rows.old)) answer)
        × (rows.new ≡ rows_told (rows_behind key.now (length rows.old)) answer rows.old)) }
{
    let asked = scan_asked(tx, key, hi, rows.len() as u64 + 1);
    let answer = take_step(alloc, store, asked);
    *told = tell_rows_behind(key, &answer, rows);
    status_told(&answer)
}

/// Scans a range back, as many of its last records as there are rows, from the highest key down: the number told is how
/// many were written.
#[unsafe(no_mangle)]
pub extern "C" fn tiuvrokk_scan_back(
    alloc: Global,
    store: &mut Handle,
    tx: u64,
    lo: &[u8],
    hi: &[u8],
    rows: &mut [Record],
    told: &mut u64,
) -> u32
    ensures { Tells store.old.held (scan_back_asked tx lo.now hi.now (length rows.old)) store.new.held
        (λ answer. (result ≡ status answer) × (told.new ≡ count_told all answer)
        × (rows.new ≡ rows_told all answer rows.old)) }
{
    let answer = take_step(alloc, store, scan_back_asked(tx, lo, hi, rows.len() as u64));
    *told = tell_rows(&answer, rows);
    status_told(&answer)
}

/// Scans back what lies before a key, down to another one, so that a scan back goes on. There may be 999 rows: the
/// record of the key itself is read too.
#[unsafe(no_mangle)]
pub extern "C" fn tiuvrokk_scan_before(
    alloc: Global,
    store: &mut Handle,
    tx: u64,
    lo: &[u8],
    key: &[u8],
    rows: &mut [Record],
    told: &mut u64,
) -> u32
    ensures { Tells store.old.held (scan_back_asked tx lo.now key.now (length rows.old + 1)) store.new.held
        (λ answer. (result ≡ status answer) × (told.new ≡ count_told (rows_behind key.now (length rows.old)) answer)
        × (rows.new ≡ rows_told (rows_behind key.now (length rows.old)) answer rows.old)) }
{
    let asked = scan_back_asked(tx, lo, key, rows.len() as u64 + 1);
    let answer = take_step(alloc, store, asked);
    *told = tell_rows_behind(key, &answer, rows);
    status_told(&answer)
}

/// Takes the first records of a range away, as many as are asked for at most: the number told is how many went.
#[unsafe(no_mangle)]
pub extern "C" fn tiuvrokk_delete_range(
    alloc: Global,
    store: &mut Handle,
    tx: u64,
    lo: &[u8],
    hi: &[u8],
    limit: u64,
    told: &mut u64,
) -> u32
    ensures { Tells store.old.held (delete_range_asked tx lo.now hi.now limit) store.new.held
        (λ answer. (result ≡ status answer) × (told.new ≡ number answer)) }
{
    tell(alloc, store, delete_range_asked(tx, lo, hi, limit), told)
}

/// Asks for a lock alone.
#[unsafe(no_mangle)]
pub extern "C" fn tiuvrokk_lock(
    alloc: Global,
    store: &mut Handle,
    tx: u64,
    mode: u32,
    lo: &[u8],
    hi: &[u8],
    told: &mut u64,
) -> u32
    ensures { Tells store.old.held (lock_asked tx mode lo.now hi.now) store.new.held
        (λ answer. (result ≡ status answer) × (told.new ≡ number answer)) }
{
    tell(alloc, store, lock_asked(tx, mode, lo, hi), told)
}

/// Adds records as a new run, all of them or none: where the answer is Exists, the least key that has one goes out.
#[unsafe(no_mangle)]
pub extern "C" fn tiuvrokk_load(
    alloc: Global,
    store: &mut Handle,
    tx: u64,
    records: &[Record],
    exists: &mut KeyText,
    told: &mut u64,
) -> u32
    ensures { TellsRecords store.old.held tx Load records.now store.new.held
        (λ answer. (result ≡ status answer) × (told.new ≡ number answer) × (exists.new ≡ key_told answer exists.old)) }
{
    let asked = records_asked(alloc, tx, Bringing::Load, records);
    let answer = take_step(alloc, store, asked);
    tell_key(&answer, exists);
    *told = number_told(&answer);
    status_told(&answer)
}

/// Sets records, all of them or none: those whose keys have none make a new run.
#[unsafe(no_mangle)]
pub extern "C" fn tiuvrokk_put(
    alloc: Global,
    store: &mut Handle,
    tx: u64,
    records: &[Record],
    told: &mut u64,
) -> u32
    ensures { TellsRecords store.old.held tx Put records.now store.new.held
        (λ answer. (result ≡ status answer) × (told.new ≡ number answer)) }
{
    let asked = records_asked(alloc, tx, Bringing::Put, records);
    tell(alloc, store, asked, told)
}
