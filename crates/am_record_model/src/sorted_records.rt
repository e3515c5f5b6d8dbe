//! SortedRecords by key.

ghost use Rattle.std.specs.Prelude.{◌≡◌, Option, None, Some, cond, not, is_some, unwrap_or, IfOk, OnOk, OnErr};
ghost use Rattle.std.specs.Prelude.{option_copied};
ghost use Rattle.std.specs.FinMap as map;
ghost use Rattle.am_record.specs.Plain.{scan_rows, scan_back_rows, least_taken};
ghost use Rattle.am_record_model.specs.Least.{lesser_key};
ghost use Rattle.am_record_model.specs.Slots.{live, IsNoPlace};
ghost use Rattle.am_record.specs.OrderedKey.{OrderedKey};
ghost use Rattle.am_record_model.specs.Notes.{undone, NoteHasPlace};

use crate::note::{Note, Slot};
use am_record::{Key, NoMemory, Range, Value};
use std::alloc::Global;
use std::collections::BTreeMap;
use std::marker::Model;

/// A finite map from keys to slots: records, and the places of deleted ones.
#[derive(Drop)]
pub(crate) struct SortedRecords {
    by_key: BTreeMap<Key, Slot>,
}

impl Model for SortedRecords {
    ghost use Rattle.std.specs.FinMap as map;
    ghost use Rattle.am_record_model.specs.Slots.{Cells};
    ghost use Rattle.am_record_model.specs.Code.{cells_code};

    ghost Value = { Cells };

    ghost coded = { cells_code };

    ghost view = { λ r. map.from_entries r.by_key.entries };
}

impl SortedRecords {
    pub(crate) fn new(alloc: Global) -> SortedRecords
        ensures { result ≡ map.empty }
    {
        SortedRecords {
            by_key: BTreeMap::new(alloc),
        }
    }

    /// The value under the key.
    pub(crate) fn get(&self, key: Key) -> Option<Value>
        ensures { result ≡ map.get (live self.now) key }
    {
        self.slot(key).flatten()
    }

    /// The same where it stands.
    pub(crate) fn value(&self, key: &Key) -> Option<&Value>
        ensures { option_copied result ≡ map.get (live self.now) key.now }
    {
        match self.by_key.get(key) {
            Some(slot) => slot.as_ref(),
            None => None,
        }
    }

    /// What stands under the key.
    pub(crate) fn slot(&self, key: Key) -> Option<Slot>
        ensures { result ≡ map.get self.now key }
    {
        self.by_key.get(&key).copied()
    }

    /// Puts a slot under the key, in place of any there. It wants memory only where none is there.
    pub(crate) fn set(&mut self, key: Key, slot: Slot) -> Result<(), NoMemory>
        ensures ok { OnOk result (self.new ≡ map.insert self.old key slot) }
        ensures err { OnErr result (self.new ≡ self.old) }
        ensures absent { OnErr result (map.get self.old key ≡ None) }
    {
        self.by_key.insert(key, slot)?;
        Ok(())
    }

    /// Takes what stands under the key away.
    pub(crate) fn remove(&mut self, key: Key)
        ensures { self.new ≡ map.remove self.old key }
    {
        let _ = self.by_key.remove(&key);
    }

    /// Puts a record under a key that has none, and tells whether it had none. It wants memory only where not even a
    /// place stands there.
    pub(crate) fn add(&mut self, key: Key, value: Value) -> Result<bool, NoMemory>
        ensures new { IfOk result (λ is_new. is_new ≡ not (map.contains_key (live self.old) key)) }
        ensures left { OnOk result (live self.new ≡
            cond (map.contains_key (live self.old) key) (live self.old) (map.insert (live self.old) key value)) }
        ensures err { OnErr result (self.new ≡ self.old) }
    {
        let slot = self.by_key.entry(key)?.or_insert(None);
        Ok(fill(slot, value))
    }

    /// Puts a value in place of the one under the key, and tells whether there was one. Takes no memory.
    pub(crate) fn replace(&mut self, key: Key, value: Value) -> bool
        ensures stood { result ≡ map.contains_key (live self.old) key }
        ensures left { live self.new ≡
            cond (map.contains_key (live self.old) key) (map.insert (live self.old) key value) (live self.old) }
    {
        match self.by_key.get_mut(&key) {
            Some(slot) => put_over(slot, value),
            None => false,
        }
    }

    /// Takes the record under the key away, and tells whether there was one. Its place goes too.
    pub(crate) fn take(&mut self, key: Key) -> bool
        ensures stood { result ≡ map.contains_key (live self.old) key }
        ensures left { live self.new ≡ map.remove (live self.old) key }
    {
        self.by_key.remove(&key).flatten().is_some()
    }

    /// Takes the place of a deleted record away.
    pub(crate) fn clean(&mut self, key: Key)
        ensures live { live self.new ≡ live self.old }
        ensures gone { IsNoPlace self.new key }
        ensures others { (k : OrderedKey) → IsNoPlace self.old k → IsNoPlace self.new k }
    {
        if self.get(key).is_none() {
            self.remove(key);
        }
    }

    /// Takes one change back. Takes no memory.
    pub(crate) fn take_back(&mut self, note: Note)
        requires { NoteHasPlace note self.old }
        ensures { self.new ≡ undone note self.old }
    {
        let Note { key, before } = note;
        match before {
            None => self.remove(key),
            Some(slot) => {
                let Ok(()) = self.set(key, slot) else {
                    unreachable!()
                };
            }
        }
    }

    /// The first records in the range by key, `max` at most.
    pub(crate) fn rows(
        &self,
        alloc: Global,
        range: Range,
        max: u64,
    ) -> Result<Vec<(Key, Value)>, NoMemory>
        ensures { IfOk result (λ rows. rows.items ≡ scan_rows range max (live self.now)) }
    {
        let mut rows = Vec::new(alloc);
        for (key, slot) in self.by_key.range(range.lo()..=range.hi()) {
            if rows.len() as u64 == max {
                break;
            }
            if let Some(value) = slot {
                rows.push((*key, *value))?;
            }
        }
        Ok(rows)
    }

    /// The last records in the range, from the highest key down, `max` at most.
    pub(crate) fn rows_back(
        &self,
        alloc: Global,
        range: Range,
        max: u64,
    ) -> Result<Vec<(Key, Value)>, NoMemory>
        ensures { IfOk result (λ rows. rows.items ≡ scan_back_rows range max (live self.now)) }
    {
        let mut rows = Vec::new(alloc);
        for (key, slot) in self.by_key.range(range.lo()..=range.hi()).rev() {
            if rows.len() as u64 == max {
                break;
            }
            if let Some(value) = slot {
                rows.push((*key, *value))?;
            }
        }
        Ok(rows)
    }

    /// All records by rising key.
    pub(crate) fn all(&self, alloc: Global) -> Result<Vec<(Key, Value)>, NoMemory>
        ensures { IfOk result (λ rows. rows.items ≡ map.entries (live self.now)) }
    {
        let mut rows = Vec::new(alloc);
        for (key, slot) in self.by_key.iter() {
            if let Some(value) = slot {
                rows.push((*key, *value))?;
            }
        }
        Ok(rows)
    }

    /// The least of the keys that has a record.
    pub(crate) fn least_taken(&self, pairs: &[(Key, Value)]) -> Option<Key>
        ensures { result ≡ least_taken pairs.now (live self.now) }
    {
        let mut least = None;
        for pair in pairs {
            if self.get(pair.0).is_some() {
                least = lesser(least, pair.0);
            }
        }
        least
    }
}

// Puts a value where none is, and tells whether none was.
fn fill(slot: &mut Slot, value: Value) -> bool
    ensures new { result ≡ not (is_some slot.old) }
    ensures left { slot.new ≡ Some (unwrap_or slot.old value) }
{
    if slot.is_some() {
        return false;
    }
    *slot = Some(value);
    true
}

// Puts a value where one is, and tells whether one was.
fn put_over(slot: &mut Slot, value: Value) -> bool
    ensures stood { result ≡ is_some slot.old }
    ensures left { slot.new ≡ cond (is_some slot.old) (Some value) None }
{
    if slot.is_none() {
        return false;
    }
    *slot = Some(value);
    true
}

// The lesser of the keys, of which there may be one alone.
fn lesser(least: Option<Key>, key: Key) -> Option<Key>
    ensures { result ≡ Some (lesser_key least key) }
{
    match least {
        Some(least) if least < key => Some(least),
        _ => Some(key),
    }
}
