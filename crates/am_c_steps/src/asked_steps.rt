//! The steps that C asks for.

ghost use Rattle.std.specs.Prelude.{◌≡◌, []};
ghost use Rattle.am_c_steps.specs.AskedSteps.{get_asked, insert_asked, replace_asked, set_asked, delete_asked};
ghost use Rattle.am_c_steps.specs.AskedSteps.{scan_asked, scan_back_asked, delete_range_asked};
ghost use Rattle.am_c_steps.specs.AskedSteps.{mode_given, lock_asked, clean_asked};
ghost use Rattle.am_c_steps.specs.AskedSteps.{pairs_given, AreRecordsAsked, IsCopied, IsAdded};

use crate::bringing::Bringing;
use crate::status::Status;
use crate::text::{Record, key_given, range_given, value_given};
use am_record::{Key, Lock, Mode, Op, Records, Step, Value};
use std::alloc::Global;

/// Reads a record.
pub fn get_asked(tx: u64, key: &[u8]) -> Result<Step, Status>
    ensures { result ≡ get_asked tx key.now }
{
    Ok(Step::Do(tx, Op::Get(key_given(key)?)))
}

/// Adds a record where its key has none.
pub fn insert_asked(tx: u64, key: &[u8], value: &[u8]) -> Result<Step, Status>
    ensures { result ≡ insert_asked tx key.now value.now }
{
    Ok(Step::Do(tx, Op::Insert(key_given(key)?, value_given(value)?)))
}

/// Gives a record another value.
pub fn replace_asked(tx: u64, key: &[u8], value: &[u8]) -> Result<Step, Status>
    ensures { result ≡ replace_asked tx key.now value.now }
{
    Ok(Step::Do(tx, Op::Replace(key_given(key)?, value_given(value)?)))
}

/// Sets a record, whether or not its key has one.
pub fn set_asked(tx: u64, key: &[u8], value: &[u8]) -> Result<Step, Status>
    ensures { result ≡ set_asked tx key.now value.now }
{
    Ok(Step::Do(tx, Op::Set(key_given(key)?, value_given(value)?)))
}

/// Takes a record away.
pub fn delete_asked(tx: u64, key: &[u8]) -> Result<Step, Status>
    ensures { result ≡ delete_asked tx key.now }
{
    Ok(Step::Do(tx, Op::Delete(key_given(key)?)))
}

/// Reads the first records of a range, as many as are asked for at most.
pub fn scan_asked(tx: u64, lo: &[u8], hi: &[u8], max: u64) -> Result<Step, Status>
    ensures { result ≡ scan_asked tx lo.now hi.now max }
{
    Ok(Step::Do(tx, Op::Scan(range_given(lo, hi)?, max)))
}

/// Reads the last records of a range, from the highest key down, as many as are asked for at most.
pub fn scan_back_asked(tx: u64, lo: &[u8], hi: &[u8], max: u64) -> Result<Step, Status>
    ensures { result ≡ scan_back_asked tx lo.now hi.now max }
{
    Ok(Step::Do(tx, Op::ScanBack(range_given(lo, hi)?, max)))
}

/// Takes the first records of a range away, as many as are asked for at most.
pub fn delete_range_asked(tx: u64, lo: &[u8], hi: &[u8], max: u64) -> Result<Step, Status>
    ensures { result ≡ delete_range_asked tx lo.now hi.now max }
{
    Ok(Step::Do(tx, Op::DeleteRange(range_given(lo, hi)?, max)))
}

fn mode_given(mode: u32) -> Result<Mode, Status>
    ensures { result ≡ mode_given mode }
{
    if mode == 0 {
        Ok(Mode::Shared)
    } else if mode == 1 {
        Ok(Mode::Exclusive)
    } else {
        Err(Status::BadMode)
    }
}

/// Asks for a lock alone.
pub fn lock_asked(tx: u64, mode: u32, lo: &[u8], hi: &[u8]) -> Result<Step, Status>
    ensures { result ≡ lock_asked tx mode lo.now hi.now }
{
    let mode = mode_given(mode)?;
    let range = range_given(lo, hi)?;
    Ok(Step::Do(tx, Op::Lock(Lock { mode, range })))
}

/// Cleans a range of so many ghosts at most.
pub fn clean_asked(lo: &[u8], hi: &[u8], limit: u64) -> Result<Step, Status>
    ensures { result ≡ clean_asked lo.now hi.now limit }
{
    Ok(Step::Clean(range_given(lo, hi)?, limit))
}

/// Brings records in.
pub fn records_asked(
    alloc: Global,
    tx: u64,
    bringing: Bringing,
    records: &[Record],
) -> Result<Step, Status>
    ensures { AreRecordsAsked tx bringing records.now result }
{
    match pairs_asked(alloc, records) {
        Ok(pairs) => Ok(Step::Do(tx, bringing.op(pairs))),
        Err(why) => Err(why),
    }
}

// The pairs of the records, or what is wrong with the first that isn't one; or NoMemory.
fn pairs_asked(alloc: Global, records: &[Record]) -> Result<Records, Status>
    ensures { IsCopied (pairs_given records.now) result }
{
    let Ok(mut pairs) = Vec::with_capacity(alloc, records.len()) else {
        return Err(Status::NoMemory);
    };
    match add_pairs(records, &mut pairs) {
        Ok(()) => Ok(Records::new(pairs)),
        Err(why) => Err(why),
    }
}

// Adds the pairs of the records.
fn add_pairs(records: &[Record], pairs: &mut Vec<(Key, Value)>) -> Result<(), Status>
    requires { pairs.old.items ≡ [] }
    ensures { IsAdded records.now result pairs.new.items }
{
    for record in records {
        match record.pair() {
            Ok(pair) => {
                if pairs.push(pair).is_err() {
                    return Err(Status::NoMemory);
                }
            }
            Err(why) => return Err(why),
        }
    }
    Ok(())
}
