//! Records as C holds them, read where they lie.

ghost use Rattle.std.specs.Prelude.{◌≡◌, ◌<◌, length, get_or};
ghost use Rattle.am_c_steps.specs.declared.text.Record.{Record as TheRecord};
ghost use Rattle.am_c_steps.specs.AskedSteps.{pairs_given};

use crate::status::Status;
use crate::text::Record;
use am_record::{Key, Records, Value};
use am_store_runs::{Arrange, RecordSource, Spot};
use std::alloc::Global;
use std::marker::Model;

/// Records of the caller's that all have a key and a value, seen as these. They are read where they lie.
#[derive(Drop)]
pub struct GivenRecords<'a> {
    records: &'a [Record],
}

impl<'a> Model for GivenRecords<'a> {
    ghost use Rattle.std.specs.Prelude.{◌≡◌, true, is_ok};
    ghost use Rattle.am_record.specs.Records.{Records, records_code};
    ghost use Rattle.am_c_steps.specs.AskedSteps.{pairs_given};
    ghost use Rattle.am_c_steps.specs.Structs.{records_given};

    ghost Value = { Records };

    ghost coded = { records_code };

    ghost view = { λ g. records_given (pairs_given g.records.now) };

    ghost invariant = { λ g. is_ok (pairs_given g.records.now) ≡ true };
}

impl<'a> GivenRecords<'a> {
    /// These records, or what is wrong with the first that isn't one. Takes no memory.
    pub fn new(records: &'a [Record]) -> Result<GivenRecords<'a>, Status>
        ensures { result ≡ pairs_given records.entry.now }
    {
        for record in records {
            if let Err(why) = record.pair() {
                return Err(why);
            }
        }
        Ok(GivenRecords { records })
    }
}

impl<'a> RecordSource for GivenRecords<'a> {
    ghost records = { λ records. records };

    fn len(&self) -> usize {
        self.records.len()
    }

    fn key(&self, at: usize) -> Key {
        let Ok(key) = record_at(self.records, at).key.key() else {
            unreachable!()
        };
        key
    }

    fn get(&self, at: usize) -> (Key, Value) {
        let Ok(pair) = record_at(self.records, at).pair() else {
            unreachable!()
        };
        pair
    }
}

impl<'a> Arrange for GivenRecords<'a> {
    type Copied = Records;

    fn arranged(&self, _alloc: Global, _spots: &[Spot]) -> Option<Records> {
        None
    }
}

fn record_at(records: &[Record], at: usize) -> &Record
    requires { at < length records.now }
    ensures { (other : TheRecord) → result.now ≡ get_or records.now at other }
{
    &records[at]
}
