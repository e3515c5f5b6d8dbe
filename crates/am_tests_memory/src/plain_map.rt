//! The plain map.

use crate::fault::{Fault, expect, expect_unchanged};
use crate::numbers::{pairs_of, range, value};
use am_record::{Key, NoMemory, Op, Records, Reply};
use am_record_model::{Plain, alone};
use std::alloc::Global;

// Whether the map has the numbers below this one, of those below 20.
fn has_below(plain: &mut Plain, end: u64) -> Result<bool, Fault> {
    for number in 0..20 {
        let due = if number < end {
            Reply::Found(value())
        } else {
            Reply::Absent
        };
        if plain.answer(&Op::Get(Key::of_u64(number)))? != due {
            return Ok(false);
        }
    }
    Ok(true)
}

// The answer of a map that has the numbers below this one.
fn answer(plain: &mut Plain, op: &Op, end: u64) -> Result<Reply, Fault> {
    if let Ok(reply) = plain.answer(op) {
        return Ok(reply);
    }
    expect_unchanged(has_below(plain, end)?)?;
    Ok(plain.answer(op)?)
}

// To go back takes no memory, also where all records were deleted.
fn back(plain: &mut Plain) -> Result<Reply, Fault> {
    match plain.answer(&Op::Back) {
        Ok(reply) => Ok(reply),
        Err(NoMemory) => Err(Fault::Refused),
    }
}

// The operation is answered so, by a map that has the numbers below this one.
fn answers(plain: &mut Plain, op: &Op, end: u64, due: &Reply) -> Result<(), Fault> {
    let reply = answer(plain, op, end)?;
    expect(reply == *due)
}

// To go back is answered so.
fn goes_back(plain: &mut Plain, due: &Reply) -> Result<(), Fault> {
    let reply = back(plain)?;
    expect(reply == *due)
}

fn insert_all(plain: &mut Plain) -> Result<(), Fault> {
    for number in 0..20 {
        let insert = Op::Insert(Key::of_u64(number), value());
        answers(plain, &insert, number, &Reply::Done)?;
    }
    Ok(())
}

fn delete_all(plain: &mut Plain) -> Result<(), Fault> {
    for number in 0..20 {
        let delete = Op::Delete(Key::of_u64(19 - number));
        answers(plain, &delete, 20 - number, &Reply::Done)?;
    }
    Ok(())
}

fn scan_some(alloc: Global, plain: &mut Plain) -> Result<(), Fault> {
    let scan = Op::Scan(range(5, 14).ok_or(Fault::Differs)?, 100);
    let rows = Reply::Rows(Records::new(pairs_of(alloc, 5, 15)?));
    answers(plain, &scan, 20, &rows)
}

// Inserts, a scan, and deletes after a savepoint.
fn insert_and_go_back(alloc: Global, plain: &mut Plain) -> Result<(), Fault> {
    insert_all(plain)?;
    scan_some(alloc, plain)?;
    answers(plain, &Op::Mark, 20, &Reply::Done)?;
    delete_all(plain)?;
    goes_back(plain, &Reply::Done)?;
    goes_back(plain, &Reply::NoMark)?;
    expect(has_below(plain, 20)?)
}

/// Inserts, a scan, and deletes after a savepoint. After want of memory they are asked again.
pub(crate) fn plain_answers(alloc: Global) -> Result<(), Fault> {
    let mut plain = Plain::new(alloc);
    insert_and_go_back(alloc, &mut plain)
}

fn are_done(replies: &[Reply]) -> Result<(), Fault> {
    expect(replies.len() == 4 && replies.iter().all(|reply| *reply == Reply::Done))
}

// A load, and an insert that is taken back.
fn body(alloc: Global) -> Result<[Op; 4], NoMemory> {
    let load = Op::Load(Records::new(pairs_of(alloc, 0, 15)?));
    let insert = Op::Insert(Key::of_u64(15), value());
    Ok([load, Op::Mark, insert, Op::Back])
}

fn take_alone(alloc: Global, plain: &mut Plain, body: &[Op]) -> Result<(), Fault> {
    let replies = alone(alloc, plain, body)?;
    are_done(&replies)?;
    expect(has_below(plain, 15)?)
}

/// A body with a load. After want of memory it begins anew.
pub(crate) fn plain_alone(alloc: Global) -> Result<(), Fault> {
    let body = body(alloc)?;
    let mut plain = Plain::new(alloc);
    take_alone(alloc, &mut plain, &body)
}
