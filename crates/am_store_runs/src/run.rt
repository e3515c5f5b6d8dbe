//! Runs: records that rise strictly by key.

ghost use Rattle.std.specs.Prelude.{◌≡◌, ◌↔◌, true, IsOk, IfOk, IfErr};
ghost use Rattle.am_record.specs.Plain.{is_rising};
ghost use Rattle.am_store_runs.specs.Cuts.{keys_of, IsSortedPiece, IsSortFault, NoneTwice};

use crate::fault::LoadFault;
use crate::ordered::Ordered;
use crate::record_order::order_of;
use crate::ties::over_all;
use am_index::{Listed, RecordSource};
use am_record::{Key, Value, is_rising};
use std::alloc::Global;
use std::marker::Model;

/// One record or more, their keys rising strictly.
#[derive(Debug)]
pub struct Run {
    records: Vec<(Key, Value)>,
}

// By hand: a crate above then need not prove once more how a run is dropped.
impl Drop for Run {
    fn drop(self) {
        let Run { records } = self;
        drop(records);
    }
}

impl Model for Run {
    ghost use Rattle.std.specs.Prelude.{◌≡◌, true};
    ghost use Rattle.am_record.specs.Plain.{Records, is_rising};
    ghost use Rattle.am_record.specs.Records.{records_code};

    ghost Value = { Records };

    ghost coded = { records_code };

    ghost view = { λ r. r.records.items };

    ghost invariant = { λ r. is_rising r.records.items ≡ true };
}

impl Run {
    /// The run of these records. Takes no memory.
    ///
    /// # Errors
    /// NotRising, where there is no pair or the keys don't rise strictly; the records are dropped.
    pub fn new(records: Vec<(Key, Value)>) -> Result<Run, LoadFault>
        ensures rising { IsOk result ↔ (is_rising records.items ≡ true) }
        ensures value { IfOk result (λ run. run ≡ records.items) }
        ensures fault { IfErr result (λ fault. fault ≡ LoadFault.NotRising) }
    {
        if !is_rising(&records) {
            return Err(LoadFault::NotRising);
        }
        Ok(Run { records })
    }

    /// The run of these records, which the caller knows to rise strictly, one or more. Takes no memory, and looks at
    /// none.
    pub fn of_rising(records: Vec<(Key, Value)>) -> Run
        requires { is_rising records.items ≡ true }
        ensures { result ≡ records.items }
    {
        Run { records }
    }

    /// The run of these records, which may stand in any order.
    ///
    /// # Errors
    /// NotRising, exactly where there is no record. Twice, where a key stands twice: the least such
    /// key. NoMemory, where memory was refused; it may come where Twice is due.
    pub fn sorted(alloc: Global, records: &[(Key, Value)]) -> Result<Run, LoadFault>
        ensures run { IfOk result (λ run. IsSortedPiece records.now run) }
        ensures apart { IfOk result (λ _. NoneTwice (keys_of records.now)) }
        ensures fault { IfErr result (IsSortFault records.now) }
    {
        if records.is_empty() {
            return Err(LoadFault::NotRising);
        }
        let listed = Listed { records };
        let order = match order_of(alloc, &listed, 0, records.len()) {
            Ok(order) => order,
            Err(fault) => return Err(over_all(alloc, &listed, fault)),
        };
        Ok(Ordered::new(&listed, &order).to_run(alloc)?)
    }

    /// The records, by rising key.
    pub fn records(&self) -> &[(Key, Value)]
        ensures all { result.now ≡ self.now }
        ensures rising { is_rising self.now ≡ true }
    {
        &self.records
    }

    /// The records, by rising key. Takes no memory.
    pub fn into_records(self) -> Vec<(Key, Value)>
        ensures { result.items ≡ self }
    {
        let Run { records } = self;
        records
    }
}

impl RecordSource for Run {
    ghost records = { λ run. run };

    fn len(&self) -> usize {
        self.records.len()
    }

    fn key(&self, at: usize) -> Key {
        self.records[at].0
    }

    fn get(&self, at: usize) -> (Key, Value) {
        self.records[at]
    }
}
