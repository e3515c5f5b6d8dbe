//! What every index over partitions does.

ghost use Rattle.std.specs.Prelude.{◌≡◌, ◌+◌, ◌<◌, ◌≤◌, ◌++◌, List, length, take, reverse, Some, None, IsSome};
ghost use Rattle.std.specs.Prelude.{OnOk, OnErr, is_some, vec_capacity};
ghost use Rattle.std.specs.List.{AllByRecursion};
ghost use Rattle.am_record.specs.Limits.{max_value_bytes};
ghost use Rattle.am_record.specs.declared.entry.Entry.{Entry};
ghost use Rattle.am_index.specs.Entries.{find, next_any, next_ghost, next_from, after, all_from, all_after, entry_at};
ghost use Rattle.am_index.specs.Entries.{insert_entry, all_inserted, set_entry, remove_entry, remove_from, IsRising};
ghost use Rattle.am_index.specs.Runs.{run_entries};
ghost use Rattle.am_index.specs.Content.{rows_in, live_value};
ghost use Rattle.am_index.specs.Rooms.{HasRoom, HaveRoom, KeepRoom};
ghost use Rattle.am_record.specs.EntryOrder.{Place};

use crate::hint::PLACES_AT_ONCE;
use crate::{Batch, Hint, RecordSource};
use am_record::{Entry, Key, NoMemory, Range, Value};

/// An index over partitions, seen as the list of its entries. They rise strictly by partition and
/// then by key, so no two entries have the same partition and key. Ghosts are entries as all others.
pub trait PartIndex {
    /// The entries, in order.
    ghost entries: { Self → List Entry };

    /// The places of entries for which room was got, so that a value of any length can be set there.
    ghost roomy: { Self → List Place };

    /// The value that stands under a partition and key, and whether it is a ghost.
    fn find(&self, part: u32, key: Key) -> Option<(Value, bool)>
        ensures found { result ≡ find (entries self.now) part key }
        ensures rising { IsRising (entries self.now) }
        ensures room { HaveRoom (entries self.now) (roomy self.now) };

    /// The same where the hint is, and a better hint for what comes next of that place.
    fn look(&self, part: u32, key: Key, hint: Hint) -> (Option<(Value, bool)>, Hint)
        ensures found { result.0 ≡ find (entries self.now) part key }
        ensures rising { IsRising (entries self.now) }
        ensures room { HaveRoom (entries self.now) (roomy self.now) };

    /// Hints for places, sixteen at most. They are looked for side by side, so that the memory of all comes at once.
    fn hints(&self, places: &[(u32, Key)]) -> [Hint; PLACES_AT_ONCE];

    /// The first entry of the partition at or above the key.
    fn next_from(&self, part: u32, key: Key) -> Option<Entry>
        ensures found { result ≡ next_from (entries self.now) part key }
        ensures rising { IsRising (entries self.now) }
        ensures room { HaveRoom (entries self.now) (roomy self.now) };

    /// The first entry of the partition strictly above the key.
    fn after(&self, part: u32, key: Key) -> Option<Entry>
        ensures found { result ≡ after (entries self.now) part key }
        ensures rising { IsRising (entries self.now) }
        ensures room { HaveRoom (entries self.now) (roomy self.now) };

    /// Appends the first entries of the partition at or above the key, as many as the batch has
    /// room for. Where it is not full afterwards, the partition has no further ones.
    fn read_from(&self, part: u32, key: Key, batch: &mut Batch)
        ensures read { batch.new ≡ take 16 (batch.old ++ all_from (entries self.now) part key) }
        ensures rising { IsRising (entries self.now) };

    /// Appends the next entries of the partition strictly above the key, as many as the batch has
    /// room for. Where it is not full afterwards, the partition has no further ones.
    fn read_on(&self, part: u32, key: Key, batch: &mut Batch)
        ensures read { batch.new ≡ take 16 (batch.old ++ all_after (entries self.now) part key) }
        ensures rising { IsRising (entries self.now) };

    /// Appends the live records of the partition in the range, by rising key, until there are `max`
    /// rows. The caller sees to it that there are no more than these. No memory is taken where there is room for
    /// `max` rows. The hint is for the range's first key.
    ///
    /// # Errors
    /// NoMemory, where memory was refused. Some rows may have been appended.
    fn copy_rows(
        &self,
        part: u32,
        range: Range,
        max: u64,
        rows: &mut Vec<(Key, Value)>,
        hint: Hint,
    ) -> Result<(), NoMemory>
        requires { length rows.old.items ≤ max }
        ensures copied { OnOk result (rows.new.items ≡ take max
            (rows.old.items ++ rows_in (entries self.now) part range)) }
        ensures room { vec_capacity rows.old ≤ vec_capacity rows.new }
        ensures full { OnErr result (vec_capacity rows.old < max) }
        ensures rising { IsRising (entries self.now) };

    /// Appends the live records of the partition in the range, from the highest key down, until there are `max`
    /// rows. The caller sees to it that there are no more than these. No memory is taken where there is room for
    /// `max` rows. The hint is for the range's last key.
    ///
    /// # Errors
    /// NoMemory, where memory was refused. Some rows may have been appended.
    fn copy_rows_back(
        &self,
        part: u32,
        range: Range,
        max: u64,
        rows: &mut Vec<(Key, Value)>,
        hint: Hint,
    ) -> Result<(), NoMemory>
        requires { length rows.old.items ≤ max }
        ensures copied { OnOk result (rows.new.items ≡ take max
            (rows.old.items ++ reverse (rows_in (entries self.now) part range))) }
        ensures room { vec_capacity rows.old ≤ vec_capacity rows.new }
        ensures full { OnErr result (vec_capacity rows.old < max) }
        ensures rising { IsRising (entries self.now) };

    /// The first entry of the whole index at or above the place of a partition and key. It may be
    /// one of a later partition.
    fn next_any(&self, part: u32, key: Key) -> Option<Entry>
        ensures found { result ≡ next_any (entries self.now) part key }
        ensures rising { IsRising (entries self.now) };

    /// The first ghost of the whole index at or above the place of a partition and key. It may be
    /// one of a later partition.
    fn next_ghost(&self, part: u32, key: Key) -> Option<Entry>
        ensures found { result ≡ next_ghost (entries self.now) part key }
        ensures rising { IsRising (entries self.now) };

    /// Adds an entry. The caller sees to it that no entry has its partition and key.
    ///
    /// # Errors
    /// NoMemory, where memory was refused; the entries are as before.
    fn insert(&mut self, entry: Entry, hint: Hint) -> Result<(), NoMemory>
        requires { find (entries self.old) entry.part entry.key ≡ None }
        ensures ok { OnOk result (entries self.new ≡ insert_entry (entries self.old) entry) }
        ensures err { OnErr result (entries self.new ≡ entries self.old) }
        ensures rooms { KeepRoom (roomy self.old) (roomy self.new) (entries self.new) };

    /// Adds the first of several entries that rise, as many as is at hand where nothing is in the way: their places are
    /// free, and no memory is taken. How many it added, perhaps none. Which number is at hand depends on how the index
    /// keeps them.
    fn insert_among(&mut self, more: &[Entry]) -> usize
        requires rising { IsRising more.now }
        ensures most { result ≤ length more.now }
        ensures free { AllByRecursion (λ e. find (entries self.old) e.part e.key ≡ None) (take result more.now) }
        ensures added { entries self.new ≡ all_inserted (take result more.now) (entries self.old) }
        ensures rooms { KeepRoom (roomy self.old) (roomy self.new) (entries self.new) };

    /// Appends a run: its records, all live, in a partition above those of all entries.
    ///
    /// # Errors
    /// NoMemory, where memory was refused; the entries are as before.
    fn append_run<S: RecordSource>(&mut self, part: u32, records: &S) -> Result<(), NoMemory>
        requires above { AllByRecursion (λ e. e.part < part) (entries self.old) }
        requires rising { IsRising (run_entries part (S.records records.now)) }
        ensures ok { OnOk result (entries self.new ≡ entries self.old ++ run_entries part (S.records records.now)) }
        ensures err { OnErr result (entries self.new ≡ entries self.old) }
        ensures rooms { KeepRoom (roomy self.old) (roomy self.new) (entries self.new) };

    /// Gets room for a value of so many bytes at an entry. The caller sees to it that it is there. A value of 16 bytes
    /// or fewer has room everywhere, and where room was got once, it stays until the entry is taken out.
    ///
    /// # Errors
    /// NoMemory, where such a value had no room there and memory was refused.
    fn make_room(&mut self, part: u32, key: Key, bytes: usize, hint: Hint) -> Result<(), NoMemory>
        requires present { IsSome (find (entries self.old) part key) }
        requires most { bytes ≤ max_value_bytes }
        ensures ok { OnOk result (HasRoom (roomy self.new) part key bytes) }
        ensures full { OnErr result (¬ HasRoom (roomy self.old) part key bytes) }
        ensures same { entries self.new ≡ entries self.old }
        ensures rooms { KeepRoom (roomy self.old) (roomy self.new) (entries self.new) };

    /// Writes over the value and the ghost bit of an entry. Whether it was live before. The caller sees to it that it
    /// is there, and that the value has room there.
    fn set(&mut self, part: u32, key: Key, value: Value, is_ghost: bool, hint: Hint) -> bool
        requires present { IsSome (find (entries self.old) part key) }
        requires room { HasRoom (roomy self.old) part key (length value) }
        ensures was_live { result ≡ is_some (live_value (find (entries self.old) part key)) }
        ensures set { entries self.new ≡ set_entry (entries self.old) part key value is_ghost }
        ensures rooms { KeepRoom (roomy self.old) (roomy self.new) (entries self.new) };

    /// Takes an entry out. The caller sees to it that it is there.
    fn remove(&mut self, part: u32, key: Key) -> Entry
        requires { IsSome (find (entries self.old) part key) }
        ensures entry { entry_at (entries self.old) part key ≡ Some result }
        ensures others { entries self.new ≡ remove_entry (entries self.old) part key }
        ensures rooms { KeepRoom (roomy self.old) (roomy self.new) (entries self.new) };

    /// Takes several entries out at once: one that the caller sees to is there, and those that follow it, `most` in all
    /// or fewer. How many it took, at least that one. Which number is at hand depends on how the index keeps them.
    fn remove_from(&mut self, part: u32, key: Key, most: usize) -> usize
        requires present { IsSome (find (entries self.old) part key) }
        requires some { 1 ≤ most }
        ensures some { 1 ≤ result }
        ensures most { result ≤ most }
        ensures counted { length (entries self.new) + result ≡ length (entries self.old) }
        ensures others { entries self.new ≡ remove_from (entries self.old) part key result }
        ensures rooms { KeepRoom (roomy self.old) (roomy self.new) (entries self.new) };
}
