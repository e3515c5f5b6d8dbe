//! Reading several entries at once.

ghost use Rattle.std.specs.Prelude.{◌≡◌, ◌==◌, ◌<◌, ◌≤◌, ◌++◌, [], ◌∷◌, length, take, take_while};

use am_record::{Entry, Key, Value};
use std::marker::Model;

// How many entries a batch has room for.
const ROOM: usize = 16;

/// Entries in the order in which they were read, sixteen at most.
#[derive(Debug, Drop)]
pub struct Batch {
    // Blanks from the length on, or what was read before.
    entries: [Entry; ROOM],
    len: usize,
}

impl Model for Batch {
    ghost use Rattle.std.specs.Prelude.{◌≡◌, ◌≤◌, List, length, take};
    ghost use Rattle.am_record.specs.declared.entry.Entry.{Entry};
    ghost use Rattle.am_index.specs.EntryCode.{entries_code};

    ghost Value = { List Entry };

    ghost coded = { entries_code };

    ghost view = { λ b. take b.len b.entries };

    ghost invariant = { λ b. (b.len ≤ 16) × (length b.entries ≡ 16) };
}

impl Batch {
    /// A batch with no entries.
    pub fn new() -> Batch
        ensures { result ≡ [] }
    {
        let blank = Entry {
            part: 0,
            key: Key::least(),
            value: Value::new(&[]).unwrap(),
            is_ghost: false,
        };
        Batch {
            entries: [blank; ROOM],
            len: 0,
        }
    }

    /// The entries that were read.
    pub fn entries(&self) -> &[Entry]
        ensures all { result.now ≡ self.now }
        ensures fits { length self.now ≤ 16 }
    {
        &self.entries[..self.len]
    }

    /// Whether there is no room left.
    pub fn is_full(&self) -> bool
        ensures full { result ≡ (length self.now == 16) }
        ensures fits { length self.now ≤ 16 }
    {
        self.len == ROOM
    }

    /// Appends an entry. The caller sees to it that there is room.
    pub fn push(&mut self, entry: Entry)
        requires { length self.old < 16 }
        ensures { self.new ≡ self.old ++ entry ∷ [] }
    {
        self.entries[self.len] = entry;
        self.len += 1;
    }

    /// Appends the entries of the partition with which the list begins, as many as there is room
    /// for.
    pub fn push_part(&mut self, part: u32, list: &[Entry])
        ensures { self.new ≡ take 16 (self.old ++ take_while (λ e. e.part == part) list.now) }
    {
        prove!(self.entries().len() <= ROOM);
        for entry in list {
            if self.is_full() || entry.part != part {
                return;
            }
            self.push(*entry);
        }
    }

    /// Drops the entries.
    pub fn clear(&mut self)
        ensures { self.new ≡ [] }
    {
        self.len = 0;
    }
}
