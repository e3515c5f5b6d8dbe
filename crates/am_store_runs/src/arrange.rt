//! Records that are copied close together, in an order.

ghost use Rattle.std.specs.Prelude.{◌≡◌, IfSome};
ghost use Rattle.am_store_runs.specs.RecordPlaces.{records_at, AreSpots};

use crate::record_order::Spot;
use am_index::RecordSource;
use am_record::Records;
use std::alloc::Global;

/// A source whose records can be copied in an order, as they lie: whoever reads them in that order more than once waits
/// for memory in one pass alone, and that one does nothing else.
pub trait Arrange: RecordSource {
    /// The copy.
    type Copied: RecordSource + Drop;

    /// The records that the spots name, in the spots' order; or none, where they are better read where they lie, be it
    /// since memory was refused.
    fn arranged(&self, alloc: Global, spots: &[Spot]) -> Option<Self::Copied>
        requires { AreSpots (Self.records self.now) spots.now }
        ensures { IfSome result (λ copied. Self.Copied.records copied ≡ records_at (Self.records self.now) spots.now) };
}

impl Arrange for Records {
    type Copied = Records;

    fn arranged(&self, _alloc: Global, _spots: &[Spot]) -> Option<Records> {
        None
    }
}
