//! The plain index: a sorted vector.

ghost use Rattle.std.specs.Prelude.{◌≡◌, ◌<◌, ◌^◌, List, [], length, slice_get, ◌++◌, IfOk, IfErr, OnOk, OnErr};
ghost use Rattle.am_index.specs.Entries.{IsRising};
ghost use Rattle.am_index.specs.Places.{IsPlaceOf, IsGapFor, IsLowerBound, IsUpperBound, only_of};
ghost use Rattle.am_index.specs.Runs.{run_entries};

use am_index::{Batch, Hint, PLACES_AT_ONCE, PartIndex, RecordSource};
use am_record::{Entry, Key, NoMemory, Range, Value};
use std::alloc::Global;
use std::marker::Model;

/// An index that is one sorted vector of entries, with binary search.
#[derive(Debug, Drop)]
pub struct ListIndex {
    items: Vec<Entry>,
}

impl Model for ListIndex {
    ghost use Rattle.std.specs.Prelude.{List};
    ghost use Rattle.am_record.specs.declared.entry.Entry.{Entry};
    ghost use Rattle.am_index.specs.EntryCode.{entries_code};
    ghost use Rattle.am_index.specs.Entries.{IsRising};

    ghost Value = { List Entry };

    ghost coded = { entries_code };

    ghost view = { λ a. a.items.items };

    ghost invariant = { λ a. IsRising a.items.items };
}

impl ListIndex {
    /// An index with no entries, which takes no memory.
    pub fn new(alloc: Global) -> ListIndex
        ensures { result ≡ [] }
    {
        ListIndex {
            items: Vec::new(alloc),
        }
    }

    /// The entries, in order.
    pub fn entries(&self) -> &[Entry]
        ensures all { result.now ≡ self.now }
        ensures rising { IsRising self.now }
    {
        &self.items
    }

    // Where the place is, or where it would go.
    fn search(&self, part: u32, key: Key) -> Result<usize, usize>
        ensures found { IfOk result (IsPlaceOf self.now part key) }
        ensures absent { IfErr result (IsGapFor self.now part key) }
        ensures rising { IsRising self.now }
        ensures fits { length self.now < 2 ^ 64 }
    {
        self.items.binary_search_by(|e| e.cmp_place(part, key))
    }

    // How many entries are below the place.
    fn lower_bound(&self, part: u32, key: Key) -> usize
        ensures bound { IsLowerBound self.now part key result }
        ensures rising { IsRising self.now }
    {
        match self.search(part, key) {
            Ok(at) => at,
            Err(at) => at,
        }
    }

    // How many entries are not above the place.
    fn upper_bound(&self, part: u32, key: Key) -> usize
        ensures bound { IsUpperBound self.now part key result }
        ensures rising { IsRising self.now }
    {
        match self.search(part, key) {
            Ok(at) => at + 1,
            Err(at) => at,
        }
    }

    // The entry at the index, if there is one.
    fn get(&self, at: usize) -> Option<Entry>
        ensures { result ≡ slice_get self.now at }
    {
        self.items.get(at).copied()
    }

    // The entry at the index, where it is one of the partition.
    fn of_part(&self, part: u32, at: usize) -> Option<Entry>
        ensures { result ≡ only_of part (slice_get self.now at) }
    {
        self.get(at).filter(|e| e.part == part)
    }
}

impl PartIndex for ListIndex {
    ghost entries = { λ es. es };

    ghost use Rattle.std.specs.Prelude.{map};
    ghost use Rattle.am_record.specs.declared.entry.Entry.{Entry};
    ghost use Rattle.am_record.specs.EntryOrder.{place_of};

    // A value of any length stands in its place.
    ghost roomy = { λ es. map (λ (e : Entry). place_of e) es };

    fn find(&self, part: u32, key: Key) -> Option<(Value, bool)> {
        match self.search(part, key) {
            Ok(at) => {
                let e = self.items[at];
                Some((e.value, e.is_ghost))
            }
            Err(_) => None,
        }
    }

    // A hint says nothing here.
    fn look(&self, part: u32, key: Key, _hint: Hint) -> (Option<(Value, bool)>, Hint) {
        (self.find(part, key), Hint::none())
    }

    fn hints(&self, _places: &[(u32, Key)]) -> [Hint; PLACES_AT_ONCE] {
        [Hint::none(); PLACES_AT_ONCE]
    }

    fn next_from(&self, part: u32, key: Key) -> Option<Entry> {
        self.of_part(part, self.lower_bound(part, key))
    }

    fn after(&self, part: u32, key: Key) -> Option<Entry> {
        self.of_part(part, self.upper_bound(part, key))
    }

    fn read_from(&self, part: u32, key: Key, batch: &mut Batch) {
        let from = self.lower_bound(part, key);
        batch.push_part(part, &self.items[from..]);
    }

    fn read_on(&self, part: u32, key: Key, batch: &mut Batch) {
        let from = self.upper_bound(part, key);
        batch.push_part(part, &self.items[from..]);
    }

    fn copy_rows(
        &self,
        part: u32,
        range: Range,
        max: u64,
        rows: &mut Vec<(Key, Value)>,
        _hint: Hint,
    ) -> Result<(), NoMemory> {
        let from = self.lower_bound(part, range.lo());
        let to = self.upper_bound(part, range.hi());
        for at in from..to {
            if rows.len() as u64 >= max {
                return Ok(());
            }
            let entry = &self.items[at];
            if !entry.is_ghost {
                rows.push((entry.key, entry.value))?;
            }
        }
        Ok(())
    }

    fn copy_rows_back(
        &self,
        part: u32,
        range: Range,
        max: u64,
        rows: &mut Vec<(Key, Value)>,
        _hint: Hint,
    ) -> Result<(), NoMemory> {
        let from = self.lower_bound(part, range.lo());
        let to = self.upper_bound(part, range.hi());
        for at in (from..to).rev() {
            if rows.len() as u64 >= max {
                return Ok(());
            }
            let entry = &self.items[at];
            if !entry.is_ghost {
                rows.push((entry.key, entry.value))?;
            }
        }
        Ok(())
    }

    fn next_any(&self, part: u32, key: Key) -> Option<Entry> {
        self.get(self.lower_bound(part, key))
    }

    fn next_ghost(&self, part: u32, key: Key) -> Option<Entry> {
        let from = self.lower_bound(part, key);
        self.items[from..].iter().copied().find(|e| e.is_ghost)
    }

    fn insert(&mut self, entry: Entry, _hint: Hint) -> Result<(), NoMemory> {
        let Err(at) = self.search(entry.part, entry.key) else {
            unreachable!()
        };
        self.items.insert(at, entry)?;
        Ok(())
    }

    // None: this index is plain.
    fn insert_among(&mut self, _more: &[Entry]) -> usize {
        0
    }

    fn append_run<S: RecordSource>(&mut self, part: u32, records: &S) -> Result<(), NoMemory> {
        push_run(&mut self.items, part, records)
    }

    fn make_room(
        &mut self,
        _part: u32,
        _key: Key,
        _bytes: usize,
        _hint: Hint,
    ) -> Result<(), NoMemory> {
        Ok(())
    }

    fn set(&mut self, part: u32, key: Key, value: Value, is_ghost: bool, _hint: Hint) -> bool {
        let Ok(at) = self.search(part, key) else {
            unreachable!()
        };
        let was_live = !self.items[at].is_ghost;
        let e = &mut self.items[at];
        e.value = value;
        e.is_ghost = is_ghost;
        was_live
    }

    fn remove(&mut self, part: u32, key: Key) -> Entry {
        let Ok(at) = self.search(part, key) else {
            unreachable!()
        };
        self.items.remove(at)
    }

    // One at a time: this index is plain.
    fn remove_from(&mut self, part: u32, key: Key, _most: usize) -> usize {
        self.remove(part, key);
        1
    }
}

// Appends the records as entries of the partition, or nothing where memory was refused.
fn push_run<S: RecordSource>(items: &mut Vec<Entry>, part: u32, records: &S) -> Result<(), NoMemory>
    ensures ok { OnOk result (items.new.items ≡ items.old.items ++ run_entries part (S.records records.now)) }
    ensures err { OnErr result (items.new.items ≡ items.old.items) }
{
    let was = items.len();
    for at in 0..records.len() {
        let (key, value) = records.get(at);
        let entry = Entry {
            part,
            key,
            value,
            is_ghost: false,
        };
        if items.push(entry).is_err() {
            items.truncate(was);
            return Err(NoMemory);
        }
    }
    Ok(())
}
