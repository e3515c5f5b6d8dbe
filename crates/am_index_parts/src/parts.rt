//! The partitions of an index, and the changes that keep each key live in at most one of them.

ghost use Rattle.std.specs.Prelude.{◌≡◌, ◌⊎◌, ◌+◌, ◌<◌, ◌≤◌, ◌++◌, ℕ, [], length, take, drop, reverse, true, false};
ghost use Rattle.std.specs.Prelude.{Some, None, IsSome, is_some, IfSome, IfNone, Err, OnOk, OnErr, IfOk, vec_capacity};
ghost use Rattle.std.specs.List.{AllByRecursion};
ghost use Rattle.std.specs.FinMap.{get};
ghost use Rattle.am_record.specs.Interval.{within};
ghost use Rattle.am_record.specs.Limits.{max_value_bytes, last_run};
ghost use Rattle.am_record.specs.OrderedKey.{OrderedKey};
ghost use Rattle.am_record.specs.Plain.{insert_all, is_rising};
ghost use Rattle.am_index.specs.Entries.{find, next_any, next_ghost, next_from, after, all_from, all_after};
ghost use Rattle.am_index.specs.Entries.{entry_at, insert_entry, set_entry, remove_entry};
ghost use Rattle.am_index.specs.Rooms.{HasRoom, HaveRoom, KeepRoom};
ghost use Rattle.am_index.specs.Runs.{run_entries};
ghost use Rattle.am_index.specs.Content.{content, rows_in, live_value, HasContent};
ghost use Rattle.am_index_parts.specs.Catalogs.{IsCatalog, runs_in, AllStandIn, PartsRise};
ghost use Rattle.am_index_parts.specs.MergedRanges.{HasNoneBefore};
ghost use Rattle.am_index_parts.specs.Partitions.{vacancy_over, NoneLiveIn, AreAllAbsent};

use crate::catalog::Catalog;
use crate::fault::RunFault;
use crate::key_look::{live_at, live_in_runs};
use crate::merged_ranges::MergedRanges;
use crate::parts_in::parts_in;
use crate::run_entry::enter_keys;
use crate::run_keys::RunKeys;
use crate::way_home::{forget_all, remove_all, settle_all};
use am_index::{Batch, Figures, Hint, PLACES_AT_ONCE, PartIndex, RecordSource};
use am_record::{Entry, HashKey, Key, NoMemory, Range, Value};
use std::alloc::Global;
use std::marker::Model;

/// What a new record of a key meets.
#[derive(Clone, Copy, PartialEq, Eq)]
pub enum Vacancy {
    /// The key is live: this entry has it.
    Taken(Entry),
    /// A ghost of it stands in the final partition, with this value.
    Ghost(Value),
    /// Nothing of it stands there.
    Free,
}

/// The partitions of an index, seen as its entries, the number of runs made, and the places of entries for which room
/// for a value of any length was got. Partition 0 is the final one, run n is partition n. No key is live, that is not a
/// ghost, in two partitions.
pub struct Parts<I: PartIndex + Drop> {
    index: I,
    catalog: Catalog,
    keys: RunKeys,
    merged: MergedRanges,
    runs: u32,
}

// By hand: a crate above then need not prove once more how an index with its partitions is dropped.
impl<I: PartIndex + Drop> Drop for Parts<I> {
    fn drop(self) {
        let Parts {
            index,
            catalog,
            keys,
            merged,
            runs: _,
        } = self;
        drop(index);
        drop(catalog);
        drop(keys);
        drop(merged);
    }
}

impl<I: PartIndex + Drop> Model for Parts<I> {
    ghost use Rattle.std.specs.Prelude.{◌≤◌};
    ghost use Rattle.am_index.specs.Rooms.{HaveRoom};
    ghost use Rattle.am_index_parts.specs.Catalogs.{IsCatalog};
    ghost use Rattle.am_index_parts.specs.MergedRanges.{AreMerged};
    ghost use Rattle.am_index_parts.specs.Partitions.{Partitions, partitions_code, AreWellFormed};
    ghost use Rattle.am_index_parts.specs.RunKeys.{AreKnown};
    ghost use Rattle.am_record.specs.Limits.{last_run};

    ghost Value = { Partitions };

    ghost coded = { partitions_code };

    ghost view = { λ p. record { entries = I.entries p.index; runs = p.runs; roomy = I.roomy p.index } };

    ghost invariant = { λ p. AreWellFormed (I.entries p.index) × (p.runs ≤ last_run) ×
        IsCatalog (I.entries p.index) p.catalog × AreKnown (I.entries p.index) p.keys ×
        AreMerged (I.entries p.index) p.runs p.merged.list.items × HaveRoom (I.entries p.index) (I.roomy p.index) };
}

impl<I: PartIndex + Drop> Parts<I> {
    ghost use Rattle.am_index_parts.specs.Partitions.{AreWellFormed, AreEmpty, AreEmptyFrom, LivesIn, LivesInNoRun};
    ghost use Rattle.am_index_parts.specs.Figures.{AreFigures};
    ghost use Rattle.am_index_parts.specs.Partitions.{LivesNowhereElse, IsLiveEntry, IsVacancy, content_with};
    ghost use Rattle.am_index_parts.specs.Partitions.{content_without, content_set, IsStretch, all_gone_home};
    ghost use Rattle.am_index_parts.specs.Partitions.{FirstNeedsRoom};

    /// The partitions of an empty index. By the hash key the keys of runs have their numbers: without it no way is
    /// known to choose keys that have one number.
    pub fn new(alloc: Global, index: I, hash: HashKey) -> Parts<I>
        requires { I.entries index ≡ [] }
        ensures entries { result.entries ≡ [] }
        ensures runs { result.runs ≡ 0 }
    {
        // Read here, the index is known to have no room for values that don't stand in it.
        let _ = index.find(0, Key::least());
        Parts {
            index,
            catalog: Catalog::new(alloc),
            keys: RunKeys::new(alloc, hash),
            merged: MergedRanges::new(alloc),
            runs: 0,
        }
    }

    /// How many runs were made, 4,294,967,294 at most.
    pub fn runs(&self) -> u32
        ensures runs { result ≡ self.now.runs }
        ensures limit { result ≤ last_run }
        ensures sound { AreWellFormed self.now.entries }
        ensures room { HaveRoom self.now.entries self.now.roomy }
    {
        self.runs
    }

    /// How many runs have entries. The index isn't searched.
    pub fn open_runs(&self) -> usize
        ensures counted { result ≡ runs_in self.now.entries }
        ensures sound { AreWellFormed self.now.entries }
    {
        self.catalog.open_runs()
    }

    /// The value that stands under a partition and key, and whether it is a ghost. Where the final partition is empty,
    /// it isn't searched.
    pub fn find(&self, part: u32, key: Key) -> Option<(Value, bool)>
        ensures found { result ≡ find self.now.entries part key }
        ensures sound { AreWellFormed self.now.entries }
        ensures room { HaveRoom self.now.entries self.now.roomy }
    {
        if part == 0 && !self.catalog.has_final() {
            return None;
        }
        self.index.find(part, key)
    }

    /// The value that stands under a partition and key, whether it is a ghost, and a hint for what comes next of that
    /// place.
    pub fn look(&self, part: u32, key: Key) -> (Option<(Value, bool)>, Hint)
        ensures found { result.0 ≡ find self.now.entries part key }
        ensures sound { AreWellFormed self.now.entries }
        ensures room { HaveRoom self.now.entries self.now.roomy }
    {
        self.index.look(part, key, Hint::none())
    }

    /// Hints for the keys of the first sixteen records, each for the partition in which the key may be live as far as
    /// is known: a run, and else the final partition. Where none may be live in a run and the final partition is empty,
    /// nothing is searched.
    pub fn hints(&self, records: &[(Key, Value)]) -> [Hint; PLACES_AT_ONCE] {
        let mut places = [(0, Key::least()); PLACES_AT_ONCE];
        for (place, pair) in places.iter_mut().zip(records) {
            *place = (self.keys.first_run(pair.0).unwrap_or(0), pair.0);
        }
        let places = &places[..records.len().min(PLACES_AT_ONCE)];
        if !self.catalog.has_final() && places.iter().all(|place| place.0 == 0) {
            return [Hint::none(); PLACES_AT_ONCE];
        }
        self.index.hints(places)
    }

    /// Hints for the key in each of the first sixteen of these partitions.
    pub fn hints_in(&self, parts: &[u32], key: Key) -> [Hint; PLACES_AT_ONCE] {
        let mut places = [(0, key); PLACES_AT_ONCE];
        for (place, part) in places.iter_mut().zip(parts) {
            place.0 = *part;
        }
        self.index.hints(&places[..parts.len().min(PLACES_AT_ONCE)])
    }

    /// The first entry of the partition at or above the key.
    pub fn next_from(&self, part: u32, key: Key) -> Option<Entry>
        ensures found { result ≡ next_from self.now.entries part key }
        ensures sound { AreWellFormed self.now.entries }
        ensures room { HaveRoom self.now.entries self.now.roomy }
    {
        self.index.next_from(part, key)
    }

    /// The first entry of the partition strictly above the key.
    pub fn after(&self, part: u32, key: Key) -> Option<Entry>
        ensures found { result ≡ after self.now.entries part key }
        ensures sound { AreWellFormed self.now.entries }
        ensures room { HaveRoom self.now.entries self.now.roomy }
    {
        self.index.after(part, key)
    }

    /// Appends the first entries of the partition at or above the key, as many as the batch has
    /// room for. Where it is not full afterwards, the partition has no further ones.
    pub fn read_from(&self, part: u32, key: Key, batch: &mut Batch)
        ensures read { batch.new ≡ take 16 (batch.old ++ all_from self.now.entries part key) }
        ensures sound { AreWellFormed self.now.entries }
    {
        self.index.read_from(part, key, batch);
    }

    /// Appends the next entries of the partition strictly above the key, as many as the batch has
    /// room for. Where it is not full afterwards, the partition has no further ones.
    pub fn read_on(&self, part: u32, key: Key, batch: &mut Batch)
        ensures read { batch.new ≡ take 16 (batch.old ++ all_after self.now.entries part key) }
        ensures sound { AreWellFormed self.now.entries }
    {
        self.index.read_on(part, key, batch);
    }

    /// Appends the live records of the partition in the range, by rising key, until there are `max`
    /// rows. The caller sees to it that there are no more than these. No memory is taken where there is room for
    /// `max` rows. The hint is for the range's first key.
    ///
    /// # Errors
    /// NoMemory, where memory was refused. Some rows may have been appended.
    pub fn copy_rows(
        &self,
        part: u32,
        range: Range,
        max: u64,
        rows: &mut Vec<(Key, Value)>,
        hint: Hint,
    ) -> Result<(), NoMemory>
        requires { length rows.old.items ≤ max }
        ensures copied { OnOk result (rows.new.items ≡ take max
            (rows.old.items ++ rows_in self.now.entries part range)) }
        ensures room { vec_capacity rows.old ≤ vec_capacity rows.new }
        ensures full { OnErr result (vec_capacity rows.old < max) }
        ensures sound { AreWellFormed self.now.entries }
    {
        self.index.copy_rows(part, range, max, rows, hint)
    }

    /// Appends the live records of the partition in the range, from the highest key down, until there are `max`
    /// rows. The caller sees to it that there are no more than these. No memory is taken where there is room for
    /// `max` rows. The hint is for the range's last key.
    ///
    /// # Errors
    /// NoMemory, where memory was refused. Some rows may have been appended.
    pub fn copy_rows_back(
        &self,
        part: u32,
        range: Range,
        max: u64,
        rows: &mut Vec<(Key, Value)>,
        hint: Hint,
    ) -> Result<(), NoMemory>
        requires { length rows.old.items ≤ max }
        ensures copied { OnOk result (rows.new.items ≡ take max
            (rows.old.items ++ reverse (rows_in self.now.entries part range))) }
        ensures room { vec_capacity rows.old ≤ vec_capacity rows.new }
        ensures full { OnErr result (vec_capacity rows.old < max) }
        ensures sound { AreWellFormed self.now.entries }
    {
        self.index.copy_rows_back(part, range, max, rows, hint)
    }

    /// The first partition from that one on that has entries. The index isn't searched.
    pub fn next_part(&self, from: u32) -> Option<u32>
        ensures further { IfSome result (λ part. from ≤ part) }
        ensures passed { IfSome result (λ part. AreEmpty self.now.entries from part) }
        ensures none { IfNone result (AreEmptyFrom self.now.entries from) }
        ensures sound { AreWellFormed self.now.entries }
    {
        self.catalog.next_part(from)
    }

    /// The first entry at or above the place of a partition and key. It may be one of a later
    /// partition.
    pub fn next_any(&self, part: u32, key: Key) -> Option<Entry>
        ensures found { result ≡ next_any self.now.entries part key }
        ensures sound { AreWellFormed self.now.entries }
    {
        self.index.next_any(part, key)
    }

    /// The first ghost at or above the place of a partition and key. It may be one of a later
    /// partition.
    pub fn next_ghost(&self, part: u32, key: Key) -> Option<Entry>
        ensures found { result ≡ next_ghost self.now.entries part key }
        ensures sound { AreWellFormed self.now.entries }
    {
        self.index.next_ghost(part, key)
    }

    /// The partition in which the key is live.
    pub fn place_of(&self, key: Key) -> Option<u32>
        ensures live { IfSome result (λ part. LivesIn self.now.entries part key) }
        ensures absent { IfNone result (get (content self.now.entries) key ≡ None) }
        ensures sound { AreWellFormed self.now.entries }
    {
        Some(self.live_entry(key, Hint::none()).0?.part)
    }

    /// How many entries there are. The index isn't searched.
    pub fn figures(&self) -> Figures
        ensures counted { AreFigures self.now.entries result }
        ensures sound { AreWellFormed self.now.entries }
    {
        self.catalog.figures()
    }

    /// The entry that has the key live, and a hint for it, or for its place in the final partition. Of the runs those
    /// alone are searched in which the key may be.
    pub fn live_entry(&self, key: Key, hint: Hint) -> (Option<Entry>, Hint)
        ensures live { IfSome result.0 (λ e. IsLiveEntry self.now.entries key e) }
        ensures absent { IfNone result.0 (get (content self.now.entries) key ≡ None) }
        ensures sound { AreWellFormed self.now.entries }
        ensures room { HaveRoom self.now.entries self.now.roomy }
    {
        let (vacancy, there) = self.vacancy(key, hint);
        match vacancy {
            Vacancy::Taken(entry) => (Some(entry), there),
            Vacancy::Ghost(_) | Vacancy::Free => (None, there),
        }
    }

    /// The entry of a run that has the key live.
    pub fn live_in_runs(&self, key: Key) -> Option<Entry>
        ensures live { IfSome result (λ e. IsLiveEntry self.now.entries key e) }
        ensures absent { IfNone result (LivesInNoRun self.now.entries key) }
        ensures sound { AreWellFormed self.now.entries }
    {
        live_in_runs(&self.index, &self.keys, key, Hint::none()).0
    }

    /// What a new record of the key meets, and a hint for its live entry, or for its place in the final partition. The
    /// runs in which it may be are searched first.
    pub fn vacancy(&self, key: Key, hint: Hint) -> (Vacancy, Hint)
        ensures met { IsVacancy self.now.entries key result.0 }
        ensures sound { AreWellFormed self.now.entries }
        ensures room { HaveRoom self.now.entries self.now.roomy }
    {
        let (found, next) = live_in_runs(&self.index, &self.keys, key, hint);
        match found {
            Some(entry) => (Vacancy::Taken(entry), next),
            None => self.vacancy_in_final(key, next),
        }
    }

    // What stands under a key in the final partition, and a hint for it. Where that is empty, it isn't searched.
    fn look_in_final(&self, key: Key, hint: Hint) -> (Option<(Value, bool)>, Hint)
        ensures found { result.0 ≡ find self.now.entries 0 key }
        ensures sound { AreWellFormed self.now.entries }
        ensures room { HaveRoom self.now.entries self.now.roomy }
    {
        if !self.catalog.has_final() {
            return (None, Hint::none());
        }
        self.index.look(0, key, hint)
    }

    // What a record meets whose key is live in no run.
    fn vacancy_in_final(&self, key: Key, hint: Hint) -> (Vacancy, Hint)
        requires dead { LivesInNoRun self.now.entries key }
        ensures met { IsVacancy self.now.entries key result.0 }
        ensures sound { AreWellFormed self.now.entries }
        ensures room { HaveRoom self.now.entries self.now.roomy }
    {
        let (slot, there) = self.look_in_final(key, hint);
        if let Some(entry) = live_at(0, key, slot) {
            return (Vacancy::Taken(entry), there);
        }
        (vacancy_over(&slot), there)
    }

    /// Adds an entry. The caller sees to it that no entry has its partition and key, and where it
    /// is live, that its key is live nowhere. The hint is for its place.
    ///
    /// # Errors
    /// NoMemory, where memory was refused; the entries are as before.
    pub fn add(&mut self, entry: Entry, hint: Hint) -> Result<(), NoMemory>
        requires absent { find self.old.entries entry.part entry.key ≡ None }
        requires dead { entry.is_ghost ≡ false → get (content self.old.entries) entry.key ≡ None }
        ensures entries { OnOk result (self.new.entries ≡ insert_entry self.old.entries entry) }
        ensures content { OnOk result (HasContent self.new.entries (content_with self.old.entries entry)) }
        ensures err { OnErr result (self.new.entries ≡ self.old.entries) }
        ensures runs { self.new.runs ≡ self.old.runs }
        ensures rooms { KeepRoom self.old.roomy self.new.roomy self.new.entries }
    {
        // Read here, the number is known to fit its type.
        prove!(entry.part <= u32::MAX);
        self.keys.make_room_for(entry.part, entry.key)?;
        self.catalog.add(entry.part, entry.is_ghost)?;
        self.merged.add(entry.part);
        insert_or_forget(&mut self.index, &mut self.catalog, entry, hint)
    }

    /// Gets room for a value of so many bytes at an entry. The caller sees to it that it is there. A value of 16 bytes
    /// or fewer has room everywhere, and where room was got once, it stays until the entry is taken out. The hint is
    /// for the entry.
    ///
    /// # Errors
    /// NoMemory, where such a value had no room there and memory was refused.
    pub fn make_room(
        &mut self,
        part: u32,
        key: Key,
        bytes: usize,
        hint: Hint,
    ) -> Result<(), NoMemory>
        requires present { IsSome (find self.old.entries part key) }
        requires most { bytes ≤ max_value_bytes }
        ensures ok { OnOk result (HasRoom self.new.roomy part key bytes) }
        ensures full { OnErr result (¬ HasRoom self.old.roomy part key bytes) }
        ensures entries { self.new.entries ≡ self.old.entries }
        ensures runs { self.new.runs ≡ self.old.runs }
        ensures rooms { KeepRoom self.old.roomy self.new.roomy self.new.entries }
    {
        self.index.make_room(part, key, bytes, hint)
    }

    /// Writes over the value of an entry, and whether it is a ghost. The caller sees to it that it is there, that the
    /// value has room there, and where it is to be live, that its key is live in no other partition. Takes no memory.
    /// The hint is for the entry.
    pub fn set(&mut self, part: u32, key: Key, value: Value, is_ghost: bool, hint: Hint)
        requires present { IsSome (find self.old.entries part key) }
        requires room { HasRoom self.old.roomy part key (length value) }
        requires alone { is_ghost ≡ false → LivesNowhereElse self.old.entries part key }
        ensures entries { self.new.entries ≡ set_entry self.old.entries part key value is_ghost }
        ensures content { HasContent self.new.entries (content_set self.old.entries part key value is_ghost) }
        ensures runs { self.new.runs ≡ self.old.runs }
        ensures rooms { KeepRoom self.old.roomy self.new.roomy self.new.entries }
    {
        let was_live = self.index.set(part, key, value, is_ghost, hint);
        self.catalog.mark(part, was_live, is_ghost);
        self.keys.set(part, was_live, is_ghost, &self.catalog);
    }

    /// Takes an entry out. The caller sees to it that it is there. Takes no memory.
    pub fn take(&mut self, part: u32, key: Key) -> Entry
        requires { IsSome (find self.old.entries part key) }
        ensures entry { entry_at self.old.entries part key ≡ Some result }
        ensures entries { self.new.entries ≡ remove_entry self.old.entries part key }
        ensures content { HasContent self.new.entries (content_without self.old.entries part key) }
        ensures runs { self.new.runs ≡ self.old.runs }
        ensures rooms { KeepRoom self.old.roomy self.new.roomy self.new.entries }
    {
        let entry = self.index.remove(part, key);
        self.catalog.take(part, !entry.is_ghost);
        entry
    }

    /// Brings entries of a run home, one after another: a live one goes to the final partition, over a ghost that
    /// stands there, and a ghost just goes. The caller sees to it that they are the first ones of the run from some key
    /// on. How many went home: all, or fewer where memory was refused for the next one's place, or for its value over a
    /// ghost there.
    pub fn bring_home(&mut self, entries: &[Entry]) -> usize
        requires { IsStretch self.old.entries entries.now }
        ensures most { result ≤ length entries.now }
        ensures entries { self.new.entries ≡ all_gone_home (take result entries.now) self.old.entries }
        ensures content { HasContent self.new.entries (content self.old.entries) }
        ensures sound { AreWellFormed self.old.entries }
        ensures greatest { (result ≡ length entries.now) ⊎
            FirstNeedsRoom self.old.entries (drop result entries.now) }
        ensures runs { self.new.runs ≡ self.old.runs }
        ensures rooms { KeepRoom self.old.roomy self.new.roomy self.new.entries }
    {
        let count = settle_all(&mut self.index, &mut self.catalog, entries);
        let gone = &entries[..count];
        remove_all(&mut self.index, gone);
        forget_all(&mut self.catalog, gone);
        self.keys.let_go(&self.catalog);
        count
    }

    /// The first run that may have an entry with a key in the range, as far as is known.
    pub fn first_run(&self, range: Range) -> u32
        ensures is_run { 0 < result }
        ensures none_before { HasNoneBefore self.now.entries range result }
        ensures sound { AreWellFormed self.now.entries }
    {
        self.merged.first_run(&range)
    }

    /// The partitions in which something may stand in the range, rising, as far as that is known without a look into
    /// the index.
    ///
    /// # Errors
    /// NoMemory, where memory was refused.
    pub fn parts_in(&self, alloc: Global, range: Range) -> Result<Vec<u32>, NoMemory>
        ensures every { IfOk result (λ parts. AllStandIn self.now.entries range parts.items) }
        ensures rising { IfOk result (λ parts. PartsRise parts.items) }
        ensures sound { AreWellFormed self.now.entries }
    {
        let first_run = self.merged.first_run(&range);
        parts_in(alloc, &self.catalog, &self.keys, first_run, range)
    }

    /// A range of that one's keys, from the same lowest key, in which runs that stand apart have `max` live entries or
    /// more, and which is as short as it can be; the range itself, where they don't have so many. The index isn't
    /// searched.
    pub fn first_piece(&self, range: Range, max: u64) -> Range
        ensures within { (key : OrderedKey) → within result key ≡ true → within range key ≡ true }
        ensures begins { result.lo ≡ range.lo }
    {
        self.keys.apart().first_piece(&self.catalog, range, max)
    }

    /// The same up to the same highest key.
    pub fn last_piece(&self, range: Range, max: u64) -> Range
        ensures within { (key : OrderedKey) → within result key ≡ true → within range key ≡ true }
        ensures ends { result.hi ≡ range.hi }
    {
        self.keys.apart().last_piece(&self.catalog, range, max)
    }

    /// Puts a range down as merged in all runs before that one. The caller sees to it that none of these that was made
    /// so far has an entry with a key in it. What is known of other ranges may be let go, as where memory is refused.
    pub fn note_merged(&mut self, range: Range, first_run: u32)
        requires { HasNoneBefore self.old.entries range first_run }
        ensures same { self.new ≡ self.old }
    {
        let next_run = self.runs + 1;
        self.merged
            .note(range, first_run.min(next_run), first_run >= next_run);
    }

    /// Counts one more run. The caller sees to it that fewer than 4,294,967,294 were made.
    pub fn count_run(&mut self)
        requires { self.old.runs < last_run }
        ensures runs { self.new.runs ≡ self.old.runs + 1 }
        ensures entries { self.new.entries ≡ self.old.entries }
        ensures rooms { self.new.roomy ≡ self.old.roomy }
    {
        self.runs += 1;
    }

    /// Makes the records the next run, all of them live in it, and counts it. The caller sees to it that fewer than
    /// 4,294,967,294 runs were made, that no entry stands above them, that there is a record, that the records
    /// rise, and that none of their keys is live in the final partition. Where no run has a key between the first and
    /// the last of them, no key is looked for. Else a key costs a look in a filter of each generation of runs, and
    /// where one of these may have it, in those of its runs, and a descent in each that may. Each record is read from
    /// the source, and copied to where it stays.
    ///
    /// # Errors
    /// Taken, where one of the keys is live in a run; NoMemory, where memory was refused. Entries and runs are as
    /// before.
    pub fn append_run<S: RecordSource>(&mut self, records: &S) -> Result<(), RunFault>
        requires room { self.old.runs < last_run }
        requires above { AllByRecursion (λ e. e.part ≤ self.old.runs) self.old.entries }
        requires rising { is_rising (S.records records.now) ≡ true }
        requires in_final { NoneLiveIn self.old.entries 0 (S.records records.now) }
        ensures entries { OnOk result (self.new.entries ≡ self.old.entries ++
            run_entries (self.old.runs + 1) (S.records records.now)) }
        ensures content { OnOk result (HasContent self.new.entries
            (insert_all (S.records records.now) (content self.old.entries))) }
        ensures dead { OnOk result (AreAllAbsent self.old.entries (S.records records.now)) }
        ensures runs { OnOk result (self.new.runs ≡ self.old.runs + 1) }
        ensures taken { result ≡ Err RunFault.Taken → ¬ AreAllAbsent self.old.entries (S.records records.now) }
        ensures err { OnErr result ((self.new.entries ≡ self.old.entries) × (self.new.runs ≡ self.old.runs)) }
        ensures rooms { KeepRoom self.old.roomy self.new.roomy self.new.entries }
    {
        let part = self.runs + 1;
        self.merged.reserve()?;
        self.catalog.make_room(records.len())?;
        self.keys.let_go(&self.catalog);
        enter_keys(&self.index, &self.catalog, &mut self.keys, part, records)?;
        self.index.append_run(part, records)?;
        self.catalog.push(part, records.len());
        self.runs = part;
        Ok(())
    }
}

// Adds an entry that is counted, or counts it as gone where memory is refused.
fn insert_or_forget<I: PartIndex + Drop>(
    index: &mut I,
    catalog: &mut Catalog,
    entry: Entry,
    hint: Hint,
) -> Result<(), NoMemory>
    requires absent { find (I.entries index.old) entry.part entry.key ≡ None }
    requires counted { IsCatalog (insert_entry (I.entries index.old) entry) catalog.old }
    ensures ok { OnOk result (I.entries index.new ≡ insert_entry (I.entries index.old) entry) }
    ensures err { OnErr result (I.entries index.new ≡ I.entries index.old) }
    ensures catalog { IsCatalog (I.entries index.new) catalog.new }
    ensures rooms { KeepRoom (I.roomy index.old) (I.roomy index.new) (I.entries index.new) }
{
    let part = entry.part;
    let is_live = !entry.is_ghost;
    let added = index.insert(entry, hint);
    if added.is_err() {
        catalog.take(part, is_live);
    }
    added
}

// What a new record meets, whose key is live nowhere, by what stands in the final partition.
fn vacancy_over(slot: &Option<(Value, bool)>) -> Vacancy
    ensures { result ≡ vacancy_over slot.now }
{
    match slot {
        Some((value, _)) => Vacancy::Ghost(*value),
        None => Vacancy::Free,
    }
}
