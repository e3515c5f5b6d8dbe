//! The numbers of the keys of a run.

ghost use Rattle.std.specs.Prelude.{◌≡◌, ◌++◌, map, OnOk, IfOk};
ghost use Rattle.am_record.specs.KeyNumber.{key_number};
ghost use Rattle.am_record.specs.OrderedKey.{key_least};
ghost use Rattle.am_record.specs.declared.entry.Entry.{Entry};
ghost use Rattle.am_index.specs.Entries.{all_from};

use am_index::{Batch, PartIndex};
use am_record::{Entry, HashKey, Key, NoMemory};
use std::alloc::Global;

/// The numbers of the keys of all entries of a run, live or ghosts, by rising keys. Sixteen are read at once.
///
/// # Errors
/// NoMemory, where memory was refused.
pub(crate) fn run_numbers<I: PartIndex + Drop>(
    index: &I,
    hash: HashKey,
    part: u32,
    alloc: Global,
) -> Result<Vec<u64>, NoMemory>
    ensures { IfOk result (λ numbers. numbers.items ≡
        map (λ (e : Entry). key_number hash e.key) (all_from (I.entries index.now) part key_least)) }
{
    let mut numbers = Vec::new(alloc);
    let mut batch = Batch::new();
    index.read_from(part, Key::least(), &mut batch);
    'read: while let Some(entry) = batch.entries().last() {
        let last = entry.key;
        push_numbers(batch.entries(), hash, &mut numbers)?;
        batch.clear();
        index.read_on(part, last, &mut batch);
    }
    Ok(numbers)
}

// Appends the numbers of the keys of entries.
fn push_numbers(entries: &[Entry], hash: HashKey, numbers: &mut Vec<u64>) -> Result<(), NoMemory>
    ensures { OnOk result (numbers.new.items ≡
        numbers.old.items ++ map (λ (e : Entry). key_number hash e.key) entries.now) }
{
    for entry in entries {
        numbers.push(entry.key.number(hash))?;
    }
    Ok(())
}
