//! Lists of records.

ghost use Rattle.std.specs.Prelude.{◌≡◌, IfOk};
ghost use Rattle.am_record.specs.Plain.{is_rising};

use crate::key::Key;
use crate::memory::NoMemory;
use crate::value::Value;
use std::alloc::Global;
use std::marker::Model;

/// Keys with their values, in any order.
#[derive(Debug)]
pub struct Records {
    items: Vec<(Key, Value)>,
}

// By hand: a crate above then need not prove once more how records are dropped.
impl Drop for Records {
    fn drop(self) {
        let Records { items } = self;
        drop(items);
    }
}

impl Model for Records {
    ghost use Rattle.am_record.specs.Records.{Records, records_code};

    ghost Value = { Records };

    ghost coded = { records_code };

    ghost view = { λ p. p.items.items };
}

impl Records {
    /// The records of a vector. Takes no memory.
    pub fn new(items: Vec<(Key, Value)>) -> Records
        ensures { result ≡ items.items }
    {
        Records { items }
    }

    /// The vector of the records. Takes no memory.
    pub fn into_vec(self) -> Vec<(Key, Value)>
        ensures { result.items ≡ self }
    {
        let Records { items } = self;
        items
    }

    pub fn as_slice(&self) -> &[(Key, Value)]
        ensures { result.now ≡ self.now }
    {
        &self.items
    }

    /// The same records, in memory of their own.
    pub fn copy(&self, alloc: Global) -> Result<Records, NoMemory>
        ensures { IfOk result (λ records. records ≡ self.now) }
    {
        let mut items = Vec::with_capacity(alloc, self.items.len())?;
        items.extend_from_slice(&self.items)?;
        Ok(Records { items })
    }
}

/// Whether there is a pair and the keys rise strictly.
pub fn is_rising(records: &[(Key, Value)]) -> bool
    ensures { result ≡ is_rising records.now }
{
    if records.is_empty() {
        return false;
    }
    records.is_sorted_by(|a, b| a.0 < b.0)
}

impl PartialEq for Records {
    ghost use Rattle.std.specs.Cmp.{partial_equiv_from_equiv};
    ghost use Rattle.am_record.specs.Records.{same_records, same_records-equiv};

    ghost eq = { same_records };

    ghost laws = { partial_equiv_from_equiv same_records-equiv };

    fn eq(&self, other: &Records) -> bool {
        self.items == other.items
    }
}

impl Eq for Records {
    ghost use Rattle.am_record.specs.Records.{same_records-equiv};

    ghost laws = { same_records-equiv };
}
