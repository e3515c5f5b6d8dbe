//! The list of all entries.

ghost use Rattle.std.specs.Prelude.{◌≡◌, ◌++◌, ◌∷◌, List, slice_get, IfOk};
ghost use Rattle.am_record.specs.declared.entry.Entry.{Entry as TheEntry};

use am_index::PartIndex;
use am_index_parts::Parts;
use am_record::{Entry, Key, NoMemory};
use std::alloc::Global;

/// The entries of all partitions, ghosts too, by partition and key.
///
/// # Errors
/// NoMemory, where memory was refused.
#[inline(never)]
pub(crate) fn all_entries<I: PartIndex + Drop>(
    alloc: Global,
    parts: &Parts<I>,
) -> Result<Vec<Entry>, NoMemory>
    ensures { IfOk result (λ entries. entries.items ≡ parts.now.entries) }
{
    let mut entries = Vec::new(alloc);
    let mut next = parts.next_any(0, Key::least());
    while let Some(entry) = next {
        entries.push(entry)?;
        next = next_entry(parts, &entry);
    }
    Ok(entries)
}

// The entry after this one, in its partition or the next one that has any.
fn next_entry<I: PartIndex + Drop>(parts: &Parts<I>, entry: &Entry) -> Option<Entry>
    ensures { (before behind : List TheEntry) → parts.now.entries ≡ before ++ entry.now ∷ behind →
        result ≡ slice_get behind 0 }
{
    if let Some(next) = parts.after(entry.part, entry.key) {
        return Some(next);
    }
    parts.next_any(entry.part.checked_add(1)?, Key::least())
}
