//! Structs of the caller's own that are copied in another order.

ghost use Rattle.std.specs.Prelude.{◌≡◌, ◌*◌, true, length, IfOk};
ghost use Rattle.am_c_steps.specs.Structs.{structs_given, records_given, AreWholeStructs};
ghost use Rattle.am_store_runs.specs.RecordPlaces.{records_at, AreSpots};

use crate::structs::{Layout, Structs};
use am_record::{Key, Value};
use am_store_runs::{Arrange, RecordSource, Spot};
use std::alloc::{AllocError, Global};
use std::marker::Model;

/// Structs of more bytes are not copied: most of these are neither key nor value.
const MOST_BYTES: usize = 128;

/// Structs that all have a key and a value, seen as their records.
#[derive(Drop)]
pub struct StructsCopy {
    bytes: Vec<u8>,
    count: usize,
    layout: Layout,
}

impl Model for StructsCopy {
    ghost use Rattle.am_record.specs.Records.{Records, records_code};
    ghost use Rattle.am_c_steps.specs.Structs.{AreWholeStructs, records_given, structs_given};

    ghost Value = { Records };

    ghost coded = { records_code };

    ghost view = { λ s. records_given (structs_given s.layout s.bytes.items s.count) };

    ghost invariant = { λ s. AreWholeStructs s.layout s.bytes.items s.count };
}

impl StructsCopy {
    // The same, lent.
    fn lent(&self) -> Structs<'_>
        ensures { result ≡ self.now }
    {
        Structs::of_whole(&self.bytes, self.count, self.layout)
    }
}

impl RecordSource for StructsCopy {
    ghost records = { λ records. records };

    fn len(&self) -> usize {
        self.count
    }

    fn key(&self, at: usize) -> Key {
        self.lent().key(at)
    }

    fn get(&self, at: usize) -> (Key, Value) {
        self.lent().get(at)
    }
}

impl<'a> Arrange for Structs<'a> {
    type Copied = StructsCopy;

    fn arranged(&self, alloc: Global, spots: &[Spot]) -> Option<StructsCopy> {
        if self.layout.size > MOST_BYTES || spots.is_sorted_by(|a, b| a.place < b.place) {
            return None;
        }
        let Ok(bytes) = copied(alloc, self.bytes, self.count, &self.layout, spots) else {
            return None;
        };
        Some(StructsCopy {
            bytes,
            count: spots.len(),
            layout: self.layout,
        })
    }
}

// The structs that the spots name, in the spots' order. A loop that does nothing else waits for many at once.
fn copied(
    alloc: Global,
    structs: &[u8],
    count: usize,
    layout: &Layout,
    spots: &[Spot],
) -> Result<Vec<u8>, AllocError>
    requires whole { AreWholeStructs layout.now structs.now count }
    requires spots { AreSpots (records_given (structs_given layout.now structs.now count)) spots.now }
    ensures whole { IfOk result (λ copied. AreWholeStructs layout.now copied.items (length spots.now)) }
    ensures records { IfOk result (λ copied. records_given (structs_given layout.now copied.items (length spots.now)) ≡
        records_at (records_given (structs_given layout.now structs.now count)) spots.now) }
{
    let mut copied = Vec::with_capacity(alloc, spots.len().saturating_mul(layout.size))?;
    for spot in spots {
        copied.extend_from_slice(layout.struct_at(structs, spot.place))?;
    }
    Ok(copied)
}
