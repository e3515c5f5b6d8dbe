//! Indexes that are filled.

use crate::fault::{Fault, expect, expect_unchanged};
use crate::numbers::entries_below;
use am_index::{Hint, PartIndex};
use am_index_list::ListIndex;
use am_record::{Entry, Key, NoMemory};
use std::alloc::Global;

// The entry after this one.
fn behind<I: PartIndex>(index: &I, entry: &Entry) -> Option<Entry> {
    if let Some(next) = index.after(entry.part, entry.key) {
        return Some(next);
    }
    index.next_any(entry.part.checked_add(1)?, Key::least())
}

// Whether the index has just these entries.
fn has_just<I: PartIndex>(index: &I, entries: &[Entry]) -> bool {
    let mut next = index.next_any(0, Key::least());
    for entry in entries {
        if next != Some(*entry) {
            return false;
        }
        next = behind(index, entry);
    }
    next.is_none()
}

// Adds an entry to those that stand.
fn add<I: PartIndex>(index: &mut I, entry: &Entry, before: &[Entry]) -> Result<(), Fault> {
    expect(index.find(entry.part, entry.key).is_none())?;
    match index.insert(*entry, Hint::none()) {
        Ok(()) => Ok(()),
        Err(NoMemory) => add_again(index, entry, before),
    }
}

// Adds an entry that was refused memory.
fn add_again<I: PartIndex>(index: &mut I, entry: &Entry, before: &[Entry]) -> Result<(), Fault> {
    expect_unchanged(has_just(index, before))?;
    expect_unchanged(index.find(entry.part, entry.key).is_none())?;
    index.insert(*entry, Hint::none())?;
    Ok(())
}

/// Adds the entries, in their order, to an index that has none.
pub(crate) fn fill<I: PartIndex>(index: &mut I, entries: &[Entry]) -> Result<(), Fault> {
    for (count, entry) in entries.iter().enumerate() {
        add(index, entry, &entries[..count])?;
    }
    expect(has_just(index, entries))
}

/// Five entries of a list.
pub(crate) fn list_of_five(alloc: Global) -> Result<(), Fault> {
    let entries = entries_below(alloc, 1, 5)?;
    fill(&mut ListIndex::new(alloc), &entries)
}
