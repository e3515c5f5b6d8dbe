//! The records of a store, page by page.

ghost use Rattle.std.specs.Prelude.{◌≡◌, ◌++◌, ◌<◌, length, take, true, IfOk, OnOk, IfSome};
ghost use Rattle.std.specs.FinMap.{is_sorted};
ghost use Rattle.am_record.specs.OrderedKey.{key_cmp};
ghost use Rattle.am_replica_records.specs.Records.{all_rows, rows_from, page_len, left_from};

use am_record::{Key, NoMemory, Op, Range, Records, Reply, Value};
use am_replica::Machine;
use std::alloc::Global;

// The most records of a page: the most rows that a scan may ask for.
const PAGE_LEN: usize = 1000;

/// The first 1,000 records from a key on, or all that there are: fewer where these are the last.
///
/// # Errors
/// NoMemory, where the store said so. It is no use then.
pub fn page<M: Machine>(alloc: Global, machine: &mut M, from: Key) -> Result<Records, NoMemory>
    requires { M.idle machine.old }
    ensures rows { IfOk result (λ rows. rows ≡ take page_len (rows_from from (M.map machine.old))) }
    ensures same { OnOk result (M.map machine.new ≡ M.map machine.old) }
    ensures idle { OnOk result (M.idle machine.new) }
{
    let Some(range) = Range::all_from(from) else {
        return Ok(Records::new(Vec::new(alloc)));
    };
    let ops = [Op::Scan(range, PAGE_LEN as u64)];
    let mut replies = machine.run(&ops)?;
    machine.abort()?;
    let Some(Reply::Rows(rows)) = replies.pop() else {
        return Err(NoMemory);
    };
    Ok(rows)
}

/// All records, by rising key.
///
/// # Errors
/// NoMemory, where the store said so. It is no use then.
pub fn records<M: Machine>(alloc: Global, machine: &mut M) -> Result<Records, NoMemory>
    requires { M.idle machine.old }
    ensures all { IfOk result (λ rows. rows ≡ all_rows (M.map machine.old)) }
    ensures rising { IfOk result (λ rows. is_sorted key_cmp rows ≡ true) }
    ensures same { OnOk result (M.map machine.new ≡ M.map machine.old) }
    ensures idle { OnOk result (M.idle machine.new) }
{
    let mut all = Vec::new(alloc);
    let mut next = Some(Key::least());
    while let Some(from) = next {
        next = add_page(alloc, machine, &mut all, from)?;
    }
    Ok(Records::new(all))
}

// Adds the records of a page to those before it, all but the last where others may come: the key to go on from.
fn add_page<M: Machine>(
    alloc: Global,
    machine: &mut M,
    all: &mut Vec<(Key, Value)>,
    from: Key,
) -> Result<Option<Key>, NoMemory>
    requires idle { M.idle machine.old }
    requires so_far { all.old.items ++ rows_from from (M.map machine.old) ≡ all_rows (M.map machine.old) }
    ensures so_far { IfOk result (λ next. all.new.items ++ left_from next (M.map machine.old) ≡
        all_rows (M.map machine.old)) }
    ensures fewer { IfOk result (λ next. IfSome next (λ key.
        length (rows_from key (M.map machine.old)) < length (rows_from from (M.map machine.old)))) }
    ensures same { OnOk result (M.map machine.new ≡ M.map machine.old) }
    ensures idle { OnOk result (M.idle machine.new) }
{
    let mut rows = page(alloc, machine, from)?.into_vec();
    if rows.len() < PAGE_LEN {
        all.extend_from_slice(&rows)?;
        return Ok(None);
    }
    let Some(last) = rows.pop() else {
        unreachable!()
    };
    all.extend_from_slice(&rows)?;
    Ok(Some(last.0))
}
