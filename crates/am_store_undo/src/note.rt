//! Undo notes.

use am_record::{Key, Value};
use std::alloc::Global;
use std::default::MadeWith;

/// What one operation changed. Each operation that changed an entry notes one thing, and the notes
/// are taken back from the newest to the oldest.
#[derive(Clone, Copy)]
pub enum Note {
    /// An entry was made in partition 0, where none of the key stood. Taken back, it is a ghost
    /// with the value that it then has.
    New(Key),
    /// The value and the ghost bit that an entry had. Taken back, it has them again.
    Before {
        part: u32,
        key: Key,
        value: Value,
        is_ghost: bool,
    },
    /// A run was made. Taken back, each of its entries is a ghost with its value.
    RunMade(u32),
}

// What the places of a log hold that have no note yet.
impl MadeWith<Global> for Note {
    fn made_with(_alloc: Global) -> Note {
        Note::RunMade(0)
    }
}
