//! Records of numbers.

use am_record::{Entry, Key, NoMemory, Range, Value};
use std::alloc::Global;

pub(crate) fn value() -> Value {
    Value::new(b"a").unwrap()
}

/// The entry of the number in the partition.
pub(crate) fn live(part: u32, number: u64) -> Entry {
    Entry {
        part,
        key: Key::of_u64(number),
        value: value(),
        is_ghost: false,
    }
}

/// The entries of the numbers below this one in the partition, in order.
pub(crate) fn entries_below(alloc: Global, part: u32, end: u64) -> Result<Vec<Entry>, NoMemory> {
    let mut entries = Vec::new(alloc);
    for number in 0..end {
        entries.push(live(part, number))?;
    }
    Ok(entries)
}

/// The pairs of the numbers from one to another, the second not included.
pub(crate) fn pairs_of(alloc: Global, from: u64, end: u64) -> Result<Vec<(Key, Value)>, NoMemory> {
    let mut pairs = Vec::new(alloc);
    for number in from..end {
        pairs.push((Key::of_u64(number), value()))?;
    }
    Ok(pairs)
}

/// The range of the numbers, where they stand in order.
pub(crate) fn range(from: u64, to: u64) -> Option<Range> {
    Range::new(Key::of_u64(from), Key::of_u64(to))
}
