//! Where the records of a run are read from.

ghost use Rattle.std.specs.Prelude.{◌≡◌, ◌<◌, [], length, get_or};
ghost use Rattle.am_record.specs.OrderedKey.{key_least};
ghost use Rattle.am_record.specs.Plain.{Records};

use am_record::{Key, Records, Value};

/// Records that are read one at a time, in any order. They needn't stand in memory as records: a caller's own structs,
/// of which keys and values are parts, are read where they lie, and each is copied once, to where it stays.
pub trait RecordSource {
    /// The records.
    ghost records: { Self → Records };

    /// How many there are.
    fn len(&self) -> usize
        ensures { result ≡ length (records self.now) };

    /// The key of the record at the place.
    fn key(&self, at: usize) -> Key
        requires { at < length (records self.now) }
        ensures { result ≡ (get_or (records self.now) at (key_least, [])).0 };

    /// The record at the place.
    fn get(&self, at: usize) -> (Key, Value)
        requires { at < length (records self.now) }
        ensures { result ≡ get_or (records self.now) at (key_least, []) };
}

/// Records that stand side by side.
#[derive(Clone, Copy)]
pub struct Listed<'a> {
    /// These are they.
    pub records: &'a [(Key, Value)],
}

impl<'a> RecordSource for Listed<'a> {
    ghost records = { λ listed. listed.records.now };

    fn len(&self) -> usize {
        self.records.len()
    }

    fn key(&self, at: usize) -> Key {
        self.records[at].0
    }

    fn get(&self, at: usize) -> (Key, Value) {
        self.records[at]
    }
}

impl RecordSource for Records {
    ghost records = { λ records. records };

    fn len(&self) -> usize {
        self.as_slice().len()
    }

    fn key(&self, at: usize) -> Key {
        self.as_slice()[at].0
    }

    fn get(&self, at: usize) -> (Key, Value) {
        self.as_slice()[at]
    }
}
