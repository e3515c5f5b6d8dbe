//! Which keys are in which run, as far as it is known.

ghost use Rattle.std.specs.Prelude.{◌≡◌, ◌⊎◌, ◌<◌, ◌&&◌, ℕ, Bool, List, [], true, length, get_or, Some, IsSome};
ghost use Rattle.std.specs.Prelude.{is_some, OnOk, IfOk};
ghost use Rattle.am_record.specs.Interval.{within, key_le};
ghost use Rattle.am_record.specs.KeyNumber.{key_number, numbers_of};
ghost use Rattle.am_record.specs.OrderedKey.{OrderedKey};
ghost use Rattle.am_record.specs.declared.entry.Entry.{Entry};
ghost use Rattle.am_index.specs.Content.{live_value};
ghost use Rattle.am_index.specs.Entries.{find, set_entry};
ghost use Rattle.am_index_parts.specs.ApartRuns.{StandsApart, AreInOrder, NoneMeets};
ghost use Rattle.am_index_parts.specs.Catalogs.{IsCatalog, is_one_of};
ghost use Rattle.am_index_parts.specs.RunFilters.{newest_run};
ghost use Rattle.am_index_parts.specs.RunKeys.{LiesBetween, IsFiltered, IsKnown, KnowsOf, AreKnown, KnowsNoLess};

use crate::apart_runs::{ApartRun, ApartRuns};
use crate::catalog::Catalog;
use crate::run_filters::RunFilters;
use am_record::{HashKey, Key, NoMemory, Range};
use std::alloc::Global;

/// The ends of a range of keys.
#[derive(Clone, Copy)]
pub(crate) struct Ends {
    lo: Key,
    hi: Key,
}

impl Ends {
    // Those of the range.
    fn of(range: Range) -> Ends
        ensures lo { result.lo ≡ range.lo }
        ensures hi { result.hi ≡ range.hi }
    {
        Ends {
            lo: range.lo(),
            hi: range.hi(),
        }
    }

    // Those of a range that has all keys of this one, and all of the other.
    fn with(self, range: Range) -> Ends
        ensures own { (key : OrderedKey) → LiesBetween (Some self) key → LiesBetween (Some result) key }
        ensures others { (key : OrderedKey) → within range key ≡ true → LiesBetween (Some result) key }
    {
        Ends {
            lo: least(self.lo, range.lo()),
            hi: greatest(self.hi, range.hi()),
        }
    }

    // Whether the range has a key between them.
    fn meet(self, range: Range) -> bool
        ensures { result ≡ (key_le self.lo range.hi && key_le range.lo self.hi) }
    {
        self.lo <= range.hi() && range.lo() <= self.hi
    }
}

// The least of two keys.
fn least(one: Key, other: Key) -> Key
    ensures first { key_le result one ≡ true }
    ensures second { key_le result other ≡ true }
{
    if one <= other { one } else { other }
}

// The greatest of two keys.
fn greatest(one: Key, other: Key) -> Key
    ensures first { key_le one result ≡ true }
    ensures second { key_le other result ≡ true }
{
    if one <= other { other } else { one }
}

/// The ranges of runs that stand apart from all others, and filters of the others' keys. A key lies in the range of one
/// run at most, so no look for it and no filter is needed where loads rise.
#[derive(Drop)]
pub(crate) struct RunKeys {
    apart: ApartRuns,
    // Between which all keys of the other runs lie.
    ends: Option<Ends>,
    filters: RunFilters,
}

impl RunKeys {
    /// What is known where there is no run. It takes no memory.
    pub(crate) fn new(alloc: Global, hash: HashKey) -> RunKeys
        ensures { AreKnown [] result }
    {
        RunKeys {
            apart: ApartRuns::new(alloc),
            ends: None,
            filters: RunFilters::new(alloc, hash),
        }
    }

    /// The runs that stand apart.
    pub(crate) fn apart(&self) -> &ApartRuns
        ensures { result.now ≡ self.now.apart }
    {
        &self.apart
    }

    /// The filters of the keys of all others.
    pub(crate) fn filters(&self) -> &RunFilters
        ensures { result.now ≡ self.now.filters }
    {
        &self.filters
    }

    /// Whether the key may be in a run that doesn't stand apart, by their ends.
    pub(crate) fn spans(&self, key: Key) -> bool
        ensures { LiesBetween self.now.ends key → result ≡ true }
    {
        match self.ends {
            Some(ends) => ends.lo <= key && key <= ends.hi,
            None => false,
        }
    }

    /// Whether no run has a key in the range, as far as ends tell, and one of that range comes in at little cost.
    pub(crate) fn is_clear(&self, range: Range) -> bool
        requires { AreInOrder self.now.apart.list.items }
        ensures apart { result ≡ true → NoneMeets self.now.apart.list.items range }
        ensures others { result ≡ true → (key : OrderedKey) → within range key ≡ true → LiesBetween self.now.ends key
            → ⊥ }
    {
        if !self.is_beside(range) || !self.apart.takes(range) {
            return false;
        }
        self.apart.first_meeting(range).is_none()
    }

    // Whether no run that doesn't stand apart has a key in the range, by their ends.
    fn is_beside(&self, range: Range) -> bool
        ensures { result ≡ true → (key : OrderedKey) → within range key ≡ true → LiesBetween self.now.ends key → ⊥ }
    {
        match self.ends {
            Some(ends) => !ends.meet(range),
            None => true,
        }
    }

    /// Appends the runs that may have a key in the range.
    ///
    /// # Errors
    /// NoMemory, where memory was refused. Some may have been appended.
    pub(crate) fn add_runs_in(&self, range: Range, parts: &mut Vec<u32>) -> Result<(), NoMemory>
        requires { AreInOrder self.now.apart.list.items }
        ensures { OnOk result ((live : Bool) (part : ℕ) (key : OrderedKey) → within range key ≡ true →
            IsKnown self.now live part key → is_one_of parts.new.items part ≡ true) }
    {
        if !self.is_beside(range) {
            self.filters.add_runs(parts)?;
        }
        self.apart.add_meeting(range, parts)
    }

    /// Notes that a run has keys in that range alone, in which no other run has any.
    ///
    /// # Errors
    /// NoMemory, where memory was refused.
    pub(crate) fn enter_apart(&mut self, part: u32, range: Range) -> Result<(), NoMemory>
        requires order { AreInOrder self.old.apart.list.items }
        requires clear { NoneMeets self.old.apart.list.items range }
        ensures order { AreInOrder self.new.apart.list.items }
        ensures kept { KnowsNoLess self.old self.new }
        ensures entered { OnOk result ((key : OrderedKey) → within range key ≡ true → IsKnown self.new true part key) }
    {
        self.apart.insert(ApartRun { part, range })
    }

    /// Enters the keys of these numbers as those of a run, which lie in the range, all of them live.
    ///
    /// # Errors
    /// NoMemory, where memory was refused.
    pub(crate) fn enter_run(
        &mut self,
        part: u32,
        range: Range,
        numbers: &[u64],
    ) -> Result<(), NoMemory>
        ensures entered { OnOk result ((key : OrderedKey) (k d : ℕ) → within range key ≡ true →
            k < length numbers.now → get_or numbers.now k d ≡ key_number self.new.filters.hash key →
            IsFiltered self.new true part key) }
        ensures kept { KnowsNoLess self.old self.new }
        ensures apart { self.new.apart ≡ self.old.apart }
        ensures hash { self.new.filters.hash ≡ self.old.filters.hash }
    {
        self.filters.enter_run(part, numbers)?;
        self.ends = match self.ends {
            Some(ends) => Some(ends.with(range)),
            None => Some(Ends::of(range)),
        };
        Ok(())
    }

    /// Takes the run at the index for one that doesn't stand apart, all of whose keys are known so already.
    pub(crate) fn end_apart(&mut self, at: usize)
        requires order { AreInOrder self.old.apart.list.items }
        requires in_range { at < length self.old.apart.list.items }
        ensures order { AreInOrder self.new.apart.list.items }
        ensures fewer { length self.new.apart.list.items < length self.old.apart.list.items }
        ensures others { (part : ℕ) (key : OrderedKey) (d : ApartRun) → StandsApart self.old.apart.list.items part key →
            StandsApart self.new.apart.list.items part key ⊎ (((get_or self.old.apart.list.items at d).part ≡ part) ×
            (within (get_or self.old.apart.list.items at d).range key ≡ true)) }
        ensures ends { self.new.ends ≡ self.old.ends }
        ensures filters { self.new.filters ≡ self.old.filters }
    {
        self.apart.remove(at);
    }

    /// Gets room for an entry of the partition, by entering its key. The final one needs none.
    ///
    /// # Errors
    /// NoMemory, where memory was refused.
    pub(crate) fn make_room_for(&mut self, part: u32, key: Key) -> Result<(), NoMemory>
        ensures entered { OnOk result (KnowsOf self.new true part key) }
        ensures kept { KnowsNoLess self.old self.new }
        ensures apart { self.new.apart ≡ self.old.apart }
    {
        if part == 0 {
            return Ok(());
        }
        let number = self.filters.number(key);
        self.enter_run(part, Range::point(key), &[number])
    }

    /// Notes that an entry is written over, which was live or a ghost. The catalog counts the entries as they are then.
    /// Takes no memory.
    pub(crate) fn set(&mut self, part: u32, was_live: bool, is_ghost: bool, catalog: &Catalog)
        requires { (es : List Entry) × IsCatalog es catalog.now }
        ensures { (es : List Entry) (key : OrderedKey) (value : List ℕ) → IsSome (find es part key) →
            was_live ≡ is_some (live_value (find es part key)) →
            IsCatalog (set_entry es part key value is_ghost) catalog.now → AreKnown es self.old →
            AreKnown (set_entry es part key value is_ghost) self.new }
    {
        if part == 0 {
            return;
        }
        if was_live != is_ghost {
            return;
        }
        if !is_ghost {
            self.filters.wake(part);
        } else if !catalog.has_live(part) {
            self.filters.sleep(part);
        }
    }

    /// Lets go what is known of runs that have no entries, where it is much. Takes no memory.
    pub(crate) fn let_go(&mut self, catalog: &Catalog)
        requires counted { (es : List Entry) × IsCatalog es catalog.now }
        requires order { AreInOrder self.old.apart.list.items }
        ensures { (es : List Entry) → IsCatalog es catalog.now → AreKnown es self.old → AreKnown es self.new }
    {
        self.apart.let_go(catalog);
        self.filters.let_go(catalog);
        if self.filters.generations().is_empty() {
            self.ends = None;
        }
    }

    /// The run in which the key is looked for first.
    pub(crate) fn first_run(&self, key: Key) -> Option<u32>
        requires { AreInOrder self.now.apart.list.items }
        ensures apart { (part : ℕ) → StandsApart self.now.apart.list.items part key → result ≡ Some part }
        ensures others { ((part : ℕ) → StandsApart self.now.apart.list.items part key → ⊥) →
            result ≡ newest_run self.now.filters.generations.items (key_number self.now.filters.hash key) }
    {
        let holder = self.apart.holder(key);
        if holder.is_some() {
            return holder;
        }
        self.filters.newest_run(key)
    }
}
