//! An index to which some inserts are refused.

ghost use Rattle.am_record.specs.Limits.{max_value_bytes};
ghost use Rattle.std.specs.Prelude.{◌≡◌, ◌<◌, ◌≤◌, ◌+◌, ◌-◌, ◌^◌, ◌++◌, length, take, min, Some, None};
ghost use Rattle.std.specs.Prelude.{IsSome, is_some, IsErr, OnOk, OnErr};
ghost use Rattle.std.specs.List.{AllByRecursion, Contains};
ghost use Rattle.am_index.specs.Entries.{find, entry_at, insert_entry, all_inserted, set_entry, remove_entry};
ghost use Rattle.am_index.specs.Entries.{remove_from, IsRising};
ghost use Rattle.am_index.specs.Content.{live_value};
ghost use Rattle.am_index.specs.Runs.{run_entries};
ghost use Rattle.am_index.specs.Rooms.{HasRoom, KeepRoom};

use am_index::{Batch, Hint, PLACES_AT_ONCE, PartIndex, RecordSource};
use am_record::{Entry, Key, NoMemory, Range, Value};
use std::marker::Model;

/// An index over another one, whose inserts are counted from 1: those of the refused numbers answer NoMemory and change
/// nothing. It stands for a machine that is short of memory.
#[derive(Drop)]
pub struct Tight<I: PartIndex + Drop> {
    index: I,
    refused: Vec<u64>,
    // How many inserts were asked for. From 2^64 - 1 on they are not counted further.
    inserts: u64,
}

impl<I: PartIndex + Drop> Model for Tight<I> {
    ghost use Rattle.am_index_list.specs.RefusingIndex.{Refusing, refusing_code};

    ghost Value = { Refusing };

    ghost coded = { refusing_code };

    ghost view = { λ t. record {
      entries = I.entries t.index;
      roomy = I.roomy t.index;
      refused = t.refused.items;
      inserts = t.inserts;
    } };
}

impl<I: PartIndex + Drop> Tight<I> {
    /// The index, with no insert counted yet. It takes no memory.
    pub fn new(index: I, refused: Vec<u64>) -> Tight<I>
        ensures entries { result.entries ≡ I.entries index }
        ensures roomy { result.roomy ≡ I.roomy index }
        ensures refused { result.refused ≡ refused.items }
        ensures none { result.inserts ≡ 0 }
    {
        Tight {
            index,
            refused,
            inserts: 0,
        }
    }
}

#[tactic(auto, using(am_index::proofs::Rooms::keep_all))]
impl<I: PartIndex + Drop> PartIndex for Tight<I> {
    ghost entries = { λ t. t.entries };

    ghost roomy = { λ t. t.roomy };

    fn find(&self, part: u32, key: Key) -> Option<(Value, bool)> {
        self.index.find(part, key)
    }

    fn look(&self, part: u32, key: Key, hint: Hint) -> (Option<(Value, bool)>, Hint) {
        self.index.look(part, key, hint)
    }

    fn hints(&self, places: &[(u32, Key)]) -> [Hint; PLACES_AT_ONCE] {
        self.index.hints(places)
    }

    fn next_from(&self, part: u32, key: Key) -> Option<Entry> {
        self.index.next_from(part, key)
    }

    fn after(&self, part: u32, key: Key) -> Option<Entry> {
        self.index.after(part, key)
    }

    fn read_from(&self, part: u32, key: Key, batch: &mut Batch) {
        self.index.read_from(part, key, batch);
    }

    fn read_on(&self, part: u32, key: Key, batch: &mut Batch) {
        self.index.read_on(part, key, batch);
    }

    fn copy_rows(
        &self,
        part: u32,
        range: Range,
        max: u64,
        rows: &mut Vec<(Key, Value)>,
        hint: Hint,
    ) -> Result<(), NoMemory> {
        self.index.copy_rows(part, range, max, rows, hint)
    }

    fn copy_rows_back(
        &self,
        part: u32,
        range: Range,
        max: u64,
        rows: &mut Vec<(Key, Value)>,
        hint: Hint,
    ) -> Result<(), NoMemory> {
        self.index.copy_rows_back(part, range, max, rows, hint)
    }

    fn next_any(&self, part: u32, key: Key) -> Option<Entry> {
        self.index.next_any(part, key)
    }

    fn next_ghost(&self, part: u32, key: Key) -> Option<Entry> {
        self.index.next_ghost(part, key)
    }

    fn insert(&mut self, entry: Entry, hint: Hint) -> Result<(), NoMemory>
        requires { find self.old.entries entry.part entry.key ≡ None }
        ensures ok { OnOk result (self.new.entries ≡ insert_entry self.old.entries entry) }
        ensures err { OnErr result (self.new.entries ≡ self.old.entries) }
        ensures rooms { KeepRoom self.old.roomy self.new.roomy self.new.entries }
        ensures counted { self.new.inserts ≡ min (self.old.inserts + 1) (2 ^ 64 - 1) }
        ensures same_refused { self.new.refused ≡ self.old.refused }
        ensures refused { Contains self.old.refused self.new.inserts → IsErr result }
    {
        self.inserts = self.inserts.saturating_add(1);
        if self.refused.contains(&self.inserts) {
            // Asked here, the room of what stands is known.
            self.index.find(entry.part, entry.key);
            return Err(NoMemory);
        }
        self.index.insert(entry, hint)
    }

    // No insert is counted: this one wants no memory.
    fn insert_among(&mut self, more: &[Entry]) -> usize
        requires rising { IsRising more.now }
        ensures most { result ≤ length more.now }
        ensures free { AllByRecursion (λ e. find self.old.entries e.part e.key ≡ None) (take result more.now) }
        ensures added { self.new.entries ≡ all_inserted (take result more.now) self.old.entries }
        ensures rooms { KeepRoom self.old.roomy self.new.roomy self.new.entries }
        ensures no_insert { self.new.inserts ≡ self.old.inserts }
        ensures same_refused { self.new.refused ≡ self.old.refused }
    {
        self.index.insert_among(more)
    }

    fn append_run<S: RecordSource>(&mut self, part: u32, records: &S) -> Result<(), NoMemory>
        requires above { AllByRecursion (λ e. e.part < part) self.old.entries }
        requires rising { IsRising (run_entries part (S.records records.now)) }
        ensures ok { OnOk result (self.new.entries ≡ self.old.entries ++ run_entries part (S.records records.now)) }
        ensures err { OnErr result (self.new.entries ≡ self.old.entries) }
        ensures rooms { KeepRoom self.old.roomy self.new.roomy self.new.entries }
        ensures counted { self.new.inserts ≡ min (self.old.inserts + 1) (2 ^ 64 - 1) }
        ensures same_refused { self.new.refused ≡ self.old.refused }
        ensures refused { Contains self.old.refused self.new.inserts → IsErr result }
    {
        self.inserts = self.inserts.saturating_add(1);
        if self.refused.contains(&self.inserts) {
            // Asked here, the room of what stands is known.
            self.index.find(part, Key::least());
            return Err(NoMemory);
        }
        self.index.append_run(part, records)
    }

    fn make_room(&mut self, part: u32, key: Key, bytes: usize, hint: Hint) -> Result<(), NoMemory>
        requires present { IsSome (find self.old.entries part key) }
        requires most { bytes ≤ max_value_bytes }
        ensures ok { OnOk result (HasRoom self.new.roomy part key bytes) }
        ensures full { OnErr result (¬ HasRoom self.old.roomy part key bytes) }
        ensures same { self.new.entries ≡ self.old.entries }
        ensures rooms { KeepRoom self.old.roomy self.new.roomy self.new.entries }
        ensures no_insert { self.new.inserts ≡ self.old.inserts }
        ensures same_refused { self.new.refused ≡ self.old.refused }
    {
        self.index.make_room(part, key, bytes, hint)
    }

    fn set(&mut self, part: u32, key: Key, value: Value, is_ghost: bool, hint: Hint) -> bool
        requires present { IsSome (find self.old.entries part key) }
        requires room { HasRoom self.old.roomy part key (length value) }
        ensures was_live { result ≡ is_some (live_value (find self.old.entries part key)) }
        ensures set { self.new.entries ≡ set_entry self.old.entries part key value is_ghost }
        ensures rooms { KeepRoom self.old.roomy self.new.roomy self.new.entries }
        ensures counted { self.new.inserts ≡ self.old.inserts }
        ensures same_refused { self.new.refused ≡ self.old.refused }
    {
        self.index.set(part, key, value, is_ghost, hint)
    }

    fn remove(&mut self, part: u32, key: Key) -> Entry
        requires { IsSome (find self.old.entries part key) }
        ensures entry { entry_at self.old.entries part key ≡ Some result }
        ensures others { self.new.entries ≡ remove_entry self.old.entries part key }
        ensures rooms { KeepRoom self.old.roomy self.new.roomy self.new.entries }
        ensures counted { self.new.inserts ≡ self.old.inserts }
        ensures same_refused { self.new.refused ≡ self.old.refused }
    {
        self.index.remove(part, key)
    }

    fn remove_from(&mut self, part: u32, key: Key, most: usize) -> usize
        requires present { IsSome (find self.old.entries part key) }
        requires some { 1 ≤ most }
        ensures some { 1 ≤ result }
        ensures most { result ≤ most }
        ensures counted { length self.new.entries + result ≡ length self.old.entries }
        ensures others { self.new.entries ≡ remove_from self.old.entries part key result }
        ensures rooms { KeepRoom self.old.roomy self.new.roomy self.new.entries }
        ensures no_insert { self.new.inserts ≡ self.old.inserts }
        ensures same_refused { self.new.refused ≡ self.old.refused }
    {
        self.index.remove_from(part, key, most)
    }
}
