//! Records in an order.

ghost use Rattle.std.specs.Prelude.{◌≡◌, IfOk, IfSome};
ghost use Rattle.am_store_runs.specs.RecordPlaces.{records_at, IsOrder};

use crate::arrange::Arrange;
use crate::record_order::{Spot, gather};
use crate::run::Run;
use am_index::RecordSource;
use am_record::{Key, NoMemory, Value};
use std::alloc::Global;
use std::marker::Model;

/// Records of a source, by strictly rising key, one or more. They are read where they lie. Seen as these records.
#[derive(Drop)]
pub struct Ordered<'a, S: RecordSource> {
    source: &'a S,
    // Where the records stand in the source.
    spots: &'a [Spot],
}

impl<'a, S: RecordSource> Model for Ordered<'a, S> {
    ghost use Rattle.am_record.specs.Plain.{Records};
    ghost use Rattle.am_record.specs.Records.{records_code};
    ghost use Rattle.am_store_runs.specs.RecordPlaces.{records_at, IsOrder};

    ghost Value = { Records };

    ghost coded = { records_code };

    ghost view = { λ o. records_at (S.records o.source.now) o.spots.now };

    ghost invariant = { λ o. IsOrder (S.records o.source.now) o.spots.now };
}

impl<'a, S: RecordSource> Ordered<'a, S> {
    /// The records that the order names. Takes no memory.
    pub(crate) fn new(source: &'a S, spots: &'a [Spot]) -> Ordered<'a, S>
        requires { IsOrder (S.records source.now) spots.now }
        ensures { result ≡ records_at (S.records source.now) spots.now }
    {
        Ordered { source, spots }
    }

    /// A run of them, each copied once.
    ///
    /// # Errors
    /// NoMemory, where memory was refused.
    pub fn to_run(&self, alloc: Global) -> Result<Run, NoMemory>
        ensures { IfOk result (λ run. run ≡ self.now) }
    {
        Ok(Run::of_rising(gather(alloc, self.source, self.spots)?))
    }
}

impl<'a, S: Arrange> Ordered<'a, S> {
    /// The same records, copied as they lie, where the source has them so copied.
    pub fn arranged(&self, alloc: Global) -> Option<S::Copied>
        ensures { IfSome result (λ copied. S.Copied.records copied ≡ self.now) }
    {
        self.source.arranged(alloc, self.spots)
    }
}

impl<'a, S: RecordSource> RecordSource for Ordered<'a, S> {
    ghost records = { λ ordered. ordered };

    fn len(&self) -> usize {
        self.spots.len()
    }

    fn key(&self, at: usize) -> Key {
        self.source.key(self.spots[at].place)
    }

    fn get(&self, at: usize) -> (Key, Value) {
        self.source.get(self.spots[at].place)
    }
}
