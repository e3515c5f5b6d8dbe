//! Rows from the highest key down.

use crate::fault::{Fault, expect};
use crate::indexes::fill;
use crate::numbers::{entries_below, live, pairs_of, range};
use am_index::{Hint, PartIndex};
use am_index_list::ListIndex;
use am_index_parts::Parts;
use am_record::{Entry, HashKey, Key, NoMemory, Range, Value};
use am_store_scan::scan_back;
use std::alloc::Global;

// The rows of the numbers from one to another, the second not included, the last first.
fn rows_down(alloc: Global, from: u64, end: u64) -> Result<Vec<(Key, Value)>, NoMemory> {
    let mut rows = pairs_of(alloc, from, end)?;
    rows.reverse();
    Ok(rows)
}

// Copies these rows. What is refused memory is copied again.
fn copies(
    alloc: Global,
    index: &ListIndex,
    range: Range,
    max: u64,
    due: &[(Key, Value)],
) -> Result<(), Fault> {
    let mut rows = Vec::new(alloc);
    let none = Hint::none();
    if index
        .copy_rows_back(1, range, max, &mut rows, none)
        .is_err()
    {
        rows.clear();
        index.copy_rows_back(1, range, max, &mut rows, none)?;
    }
    expect(rows.as_slice() == due)
}

/// Rows of a list: the last three of a range, and all of it.
pub(crate) fn rows_back_of_a_list(alloc: Global) -> Result<(), Fault> {
    let entries = entries_below(alloc, 1, 9)?;
    let mut index = ListIndex::new(alloc);
    fill(&mut index, &entries)?;
    let some = range(2, 6).ok_or(Fault::Differs)?;
    copies(alloc, &index, some, 3, &rows_down(alloc, 4, 7)?)?;
    copies(alloc, &index, some, 99, &rows_down(alloc, 2, 7)?)
}

// Adds an entry whose key is live nowhere, unless it is a ghost.
fn add(parts: &mut Parts<ListIndex>, entry: Entry) -> Result<(), Fault> {
    expect(parts.find(entry.part, entry.key).is_none())?;
    expect(entry.is_ghost || parts.place_of(entry.key).is_none())?;
    parts.add(entry, Hint::none())?;
    Ok(())
}

// The numbers below that one, dealt to three partitions, each with a ghost in the next one.
fn dealt(alloc: Global, end: u32) -> Result<Parts<ListIndex>, Fault> {
    let mut parts = Parts::new(alloc, ListIndex::new(alloc), HashKey::known());
    for number in 0..end {
        let entry = live(number % 3, u64::from(number));
        add(&mut parts, entry)?;
        let mut shadow = live(number % 3 + 1, u64::from(number));
        shadow.is_ghost = true;
        add(&mut parts, shadow)?;
    }
    Ok(parts)
}

// Scans back these rows. What is refused memory is scanned again.
fn scans(
    alloc: Global,
    parts: &Parts<ListIndex>,
    range: Range,
    max: u64,
    due: &[(Key, Value)],
) -> Result<(), Fault> {
    let rows = match scan_back(alloc, parts, range, max) {
        Ok(rows) => rows,
        Err(NoMemory) => scan_back(alloc, parts, range, max)?,
    };
    expect(rows.as_slice() == due)
}

/// Scans over three partitions: the last three rows of a range, all of it, and one key.
pub(crate) fn scans_back(alloc: Global) -> Result<(), Fault> {
    let parts = dealt(alloc, 12)?;
    let some = range(2, 9).ok_or(Fault::Differs)?;
    scans(alloc, &parts, some, 3, &rows_down(alloc, 7, 10)?)?;
    scans(alloc, &parts, some, 99, &rows_down(alloc, 2, 10)?)?;
    let one = range(5, 5).ok_or(Fault::Differs)?;
    scans(alloc, &parts, one, 9, &rows_down(alloc, 5, 6)?)
}
