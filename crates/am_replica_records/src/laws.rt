//! What snapshots are: a theorem.

ghost use Rattle.std.specs.Prelude.{◌≡◌};
ghost use Rattle.std.specs.FinMap.{empty};
ghost use Rattle.am_record.specs.Plain.{PlainMap, insert_all};
ghost use Rattle.am_replica_records.specs.Records.{all_rows, HasKeys};

/// The records of a map, put into an empty one, make that map.
pub fn records_are_the_map()
    ensures { (m : PlainMap) → HasKeys m → insert_all (all_rows m) empty ≡ m }
{}
