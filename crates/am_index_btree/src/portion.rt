//! A portion of a run, on its way to a leaf.

ghost use Rattle.std.specs.Prelude.{◌≡◌, ◌+◌, ◌-◌, ◌≤◌, [], length, take, drop};

use crate::room::ROOM;
use am_index::RecordSource;
use am_record::{Key, Value};
use std::marker::Model;

/// As many records as a leaf has room for, at most, in order. A load makes one, on the stack, and reads each leaf's
/// records to it: so none is copied to the heap but into its leaf.
#[derive(Drop)]
pub(crate) struct Portion {
    // Blanks from the length on, or what was read before.
    records: [(Key, Value); ROOM],
    len: usize,
}

impl Model for Portion {
    ghost use Rattle.std.specs.Prelude.{◌≡◌, ◌≤◌, length, take};
    ghost use Rattle.am_record.specs.Records.{Records, records_code};

    ghost Value = { Records };

    ghost coded = { records_code };

    ghost view = { λ p. take p.len p.records };

    ghost invariant = { λ p. (p.len ≤ 32) × (length p.records ≡ 32) };
}

impl Portion {
    /// A portion of no records.
    pub(crate) fn new() -> Portion
        ensures { result ≡ [] }
    {
        let blank = (Key::least(), Value::new(&[]).unwrap());
        Portion {
            records: [blank; ROOM],
            len: 0,
        }
    }

    /// The records that were read last.
    pub(crate) fn records(&self) -> &[(Key, Value)]
        ensures { result.now ≡ self.now }
    {
        &self.records[..self.len]
    }

    /// Reads the records from one place up to another, in place of those that were read before.
    pub(crate) fn read<S: RecordSource>(&mut self, records: &S, from: usize, to: usize)
        requires order { from ≤ to }
        requires room { to ≤ from + 32 }
        requires there { to ≤ length (S.records records.now) }
        ensures { self.new ≡ take (to - from) (drop from (S.records records.now)) }
    {
        read_to(&mut self.records, records, from, to);
        self.len = to - from;
    }
}

// Reads the records from one place up to another to the first places of an array.
fn read_to<S: RecordSource>(array: &mut [(Key, Value); ROOM], records: &S, from: usize, to: usize)
    requires order { from ≤ to }
    requires room { to ≤ from + 32 }
    requires there { to ≤ length (S.records records.now) }
    ensures read { take (to - from) array.new ≡ take (to - from) (drop from (S.records records.now)) }
    ensures whole { length array.new ≡ 32 }
{
    for at in from..to {
        array[at - from] = records.get(at);
    }
}
