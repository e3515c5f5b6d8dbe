//! Which keys may be in which run.

ghost use Rattle.std.specs.Prelude.{◌≡◌, ◌≢◌, ◌<◌, ◌≤◌, ◌↔◌, ◌&&◌, ℕ, Bool, List, [], true, false, length, get_or};
ghost use Rattle.std.specs.Prelude.{IsSome, is_some};
ghost use Rattle.std.specs.Prelude.{OnOk, IfOk, IfSome, IfNone};
ghost use Rattle.std.specs.List.{All, list_any};
ghost use Rattle.am_record.specs.KeyNumber.{key_number, numbers_of};
ghost use Rattle.am_record.specs.OrderedKey.{OrderedKey};
ghost use Rattle.am_record.specs.declared.entry.Entry.{Entry};
ghost use Rattle.am_index.specs.Content.{live_value};
ghost use Rattle.am_index.specs.Entries.{find, set_entry};
ghost use Rattle.am_index_filter.specs.Covers.{is_marked};
ghost use Rattle.am_index_parts.specs.Catalogs.{PartsRise, parts_of, is_one_of};
ghost use Rattle.am_index_parts.specs.RunFilters.{IsNamedIn, MayBeIn, may_have_any};
ghost use Rattle.am_index_parts.specs.RunFilters.{newest_of, newest_run};

use crate::catalog::Catalog;
use am_index::RecordSource;
use am_index_filter::Filter;
use am_record::{HashKey, Key, NoMemory};
use std::alloc::Global;

/// A generation has no more runs.
const MOST_RUNS: usize = 64;

/// A generation is made for so many keys at least.
const FEWEST_KEYS: usize = 1_024;

/// A generation that has no room for a run is followed by one for so many times its keys.
const GROWTH: usize = 4;

/// So many filters of runs without entries are kept, and one beside each of a run that has some.
const FEWEST_GONE: usize = 16;

/// A run, and a filter of its keys. It sleeps while none of the run's entries is live.
#[derive(Drop)]
pub(crate) struct RunFilter {
    pub(crate) part: u32,
    pub(crate) is_awake: bool,
    pub(crate) filter: Filter,
}

impl RunFilter {
    /// Whether the key of the number may be live in the run.
    pub(crate) fn may_have(&self, number: u64) -> bool
        ensures { result ≡ (self.now.is_awake && is_marked self.now.filter number) }
    {
        self.is_awake && self.filter.may_have(number)
    }

    // Puts it to sleep.
    fn sleep(&mut self)
        ensures part { self.new.part ≡ self.old.part }
        ensures filter { self.new.filter ≡ self.old.filter }
        ensures asleep { self.new.is_awake ≡ false }
    {
        self.is_awake = false;
    }

    // Wakes it, if it is that of the run.
    fn wake(&mut self, part: u32)
        ensures part { self.new.part ≡ self.old.part }
        ensures filter { self.new.filter ≡ self.old.filter }
        ensures woken { self.new.part ≡ part → self.new.is_awake ≡ true }
        ensures kept { self.old.is_awake ≡ true → self.new.is_awake ≡ true }
    {
        if self.part == part {
            self.is_awake = true;
        }
    }
}

/// Runs that were made one after another. A filter of all their keys tells of a key that it is in none of them, and
/// that of each run, in which it may be. It sleeps while all of them do.
#[derive(Drop)]
pub(crate) struct Generation {
    pub(crate) all: Filter,
    // For how many keys more that one is made, and how many it has.
    room: usize,
    entered: usize,
    pub(crate) is_awake: bool,
    // Of its runs the numbers lie between these.
    first: u32,
    last: u32,
    pub(crate) runs: Vec<RunFilter>,
}

impl Generation {
    // Without runs, made for so many keys.
    fn new(alloc: Global, keys: usize) -> Result<Generation, NoMemory> {
        let all = Filter::new(alloc, keys)?;
        Ok(Generation {
            all,
            room: keys,
            entered: 0,
            is_awake: false,
            first: u32::MAX,
            last: 0,
            runs: Vec::new(alloc),
        })
    }

    // For how many keys the next one is made, where a run of so many belongs to it.
    fn next_size(&self, keys: usize) -> Option<usize> {
        if self.runs.len() >= MOST_RUNS {
            return Some(self.entered);
        }
        if self.room < keys {
            return Some(self.entered.saturating_mul(GROWTH));
        }
        None
    }

    /// Whether the key of the number may be live in one of its runs.
    pub(crate) fn may_have(&self, number: u64) -> bool
        ensures { result ≡ (self.now.is_awake && is_marked self.now.all number) }
    {
        self.is_awake && self.all.may_have(number)
    }

    // Whether one of the numbers may be that of a live entry. It goes through all, so their words come from memory at
    // once.
    fn may_have_any(&self, numbers: &[u64]) -> bool
        ensures { result ≡ (self.now.is_awake && list_any (λ n. is_marked self.now.all n) numbers.now) }
    {
        if !self.is_awake {
            return false;
        }
        let mut may_have_any = false;
        for number in numbers {
            may_have_any |= self.all.may_have(*number);
        }
        may_have_any
    }

    // One run more, with a filter of the numbers of its keys.
    fn push(&mut self, run: RunFilter, numbers: &[u64]) -> Result<(), NoMemory>
        requires covered { All (λ n. is_marked run.filter n ≡ true) numbers.now }
        requires awake { run.is_awake ≡ true }
        ensures entered { OnOk result (All (λ n. IsNamedIn true self.new run.part n) numbers.now) }
        ensures kept { (live : Bool) (part n : ℕ) → IsNamedIn live self.old part n → IsNamedIn live self.new part n }
    {
        let part = run.part;
        self.runs.push(run)?;
        self.all.enter_all(numbers);
        self.is_awake = true;
        self.first = self.first.min(part);
        self.last = self.last.max(part);
        self.entered = self.entered.saturating_add(numbers.len());
        self.room = self.room.saturating_sub(numbers.len());
        Ok(())
    }

    // Whether the number of a run lies between those of its runs.
    fn spans(&self, part: u32) -> bool
        ensures { (result ≡ true) ↔ ((self.now.first ≤ part) × (part ≤ self.now.last)) }
    {
        self.first <= part && part <= self.last
    }

    // Puts the run to sleep, which has no live entry. Whether it was there.
    fn sleep(&mut self, part: u32) -> bool
        ensures { (live : Bool) (run n : ℕ) → (live ≡ true → run ≢ part) → IsNamedIn live self.old run n →
            IsNamedIn live self.new run n }
    {
        if !self.spans(part) {
            return false;
        }
        let Some(at) = place_of(&self.runs, part) else {
            return false;
        };
        self.runs[at].sleep();
        self.is_awake = is_any_awake(&self.runs);
        true
    }

    // Wakes the run.
    fn wake(&mut self, part: u32)
        ensures woken { (n : ℕ) → IsNamedIn false self.new part n → IsNamedIn true self.new part n }
        ensures kept { (live : Bool) (run n : ℕ) → IsNamedIn live self.old run n → IsNamedIn live self.new run n }
    {
        if !self.spans(part) {
            return;
        }
        self.is_awake = true;
        for at in 0..self.runs.len() {
            self.runs[at].wake(part);
        }
    }

    // Appends its runs.
    fn add_runs(&self, parts: &mut Vec<u32>) -> Result<(), NoMemory>
        ensures added { OnOk result ((live : Bool) (part n : ℕ) → IsNamedIn live self.now part n →
            is_one_of parts.new.items part ≡ true) }
        ensures kept { (part : ℕ) → is_one_of parts.old.items part ≡ true → is_one_of parts.new.items part ≡ true }
    {
        for run in &self.runs {
            parts.push(run.part)?;
        }
        Ok(())
    }

    // Lets filters go of runs that have no entries.
    fn let_go(&mut self, catalog: &Catalog)
        requires { PartsRise (parts_of catalog.now.runs.items) }
        ensures { (live : Bool) (run n : ℕ) → is_one_of (parts_of catalog.now.runs.items) run ≡ true →
            IsNamedIn live self.old run n → IsNamedIn live self.new run n }
    {
        self.runs.retain(|run| catalog.has_run(run.part));
    }
}

/// In which runs keys may be. Keys are known by their numbers, and the numbers are made by a hash key, on which no
/// answer depends. What was entered is never forgotten while its run has entries.
#[derive(Drop)]
pub(crate) struct RunFilters {
    hash: HashKey,
    // The last has the newest runs.
    generations: Vec<Generation>,
    // How many runs they have.
    runs: usize,
    alloc: Global,
}

impl RunFilters {
    /// Those of no run. It takes no memory.
    pub(crate) fn new(alloc: Global, hash: HashKey) -> RunFilters {
        RunFilters {
            hash,
            generations: Vec::new(alloc),
            runs: 0,
            alloc,
        }
    }

    /// The generations, the newest last.
    pub(crate) fn generations(&self) -> &[Generation]
        ensures { result.now ≡ self.now.generations.items }
    {
        &self.generations
    }

    /// By what the numbers are made.
    pub(crate) fn hash(&self) -> HashKey
        ensures { result ≡ self.now.hash }
    {
        self.hash
    }

    /// Where their memory comes from.
    pub(crate) fn alloc(&self) -> Global {
        self.alloc
    }

    /// The number of the key.
    pub(crate) fn number(&self, key: Key) -> u64
        ensures { result ≡ key_number self.now.hash key }
    {
        key.number(self.hash)
    }

    /// The numbers of the records' keys.
    ///
    /// # Errors
    /// NoMemory, where memory was refused.
    pub(crate) fn numbers<S: RecordSource>(&self, records: &S) -> Result<Vec<u64>, NoMemory>
        ensures { IfOk result (λ numbers. numbers.items ≡ numbers_of self.now.hash (S.records records.now)) }
    {
        let mut numbers = Vec::new(self.alloc);
        numbers.reserve(records.len())?;
        for at in 0..records.len() {
            numbers.push(records.key(at).number(self.hash))?;
        }
        Ok(numbers)
    }

    /// Whether the key of one of the numbers may be live in a run.
    pub(crate) fn may_have_any(&self, numbers: &[u64]) -> bool
        ensures { result ≡ may_have_any self.now.generations.items numbers.now }
    {
        let mut any = false;
        for generation in &self.generations {
            any |= generation.may_have_any(numbers);
        }
        any
    }

    /// Enters the keys of these numbers as those of a run, all of them live.
    ///
    /// # Errors
    /// NoMemory, where memory was refused.
    pub(crate) fn enter_run(&mut self, part: u32, numbers: &[u64]) -> Result<(), NoMemory>
        ensures entered { OnOk result (All (λ n. MayBeIn true self.new.generations.items part n) numbers.now) }
        ensures kept { (live : Bool) (run n : ℕ) → MayBeIn live self.old.generations.items run n →
            MayBeIn live self.new.generations.items run n }
        ensures hash { self.new.hash ≡ self.old.hash }
    {
        let mut filter = Filter::new(self.alloc, numbers.len())?;
        filter.enter_all(numbers);
        self.make_room(numbers.len())?;
        let newest = self.generations.len() - 1;
        let run = RunFilter {
            part,
            is_awake: true,
            filter,
        };
        self.generations[newest].push(run, numbers)?;
        self.runs = self.runs.saturating_add(1);
        Ok(())
    }

    // Begins a generation, where a run of so many keys belongs to the next one.
    fn make_room(&mut self, keys: usize) -> Result<(), NoMemory>
        ensures some { OnOk result (0 < length self.new.generations.items) }
        ensures kept { (live : Bool) (run n : ℕ) → MayBeIn live self.old.generations.items run n →
            MayBeIn live self.new.generations.items run n }
        ensures hash { self.new.hash ≡ self.old.hash }
    {
        let Some(size) = self.next_size(keys) else {
            return Ok(());
        };
        let next = Generation::new(self.alloc, size)?;
        self.generations.push(next)?;
        Ok(())
    }

    // For how many keys a generation is made, where a run of so many belongs to the next one. No filter is ever made
    // anew.
    fn next_size(&self, keys: usize) -> Option<usize>
        ensures { IfNone result (0 < length self.now.generations.items) }
    {
        let more = match self.generations.last() {
            Some(newest) => newest.next_size(keys)?,
            None => 0,
        };
        Some(more.max(keys).max(FEWEST_KEYS))
    }

    /// Puts the run to sleep, which has no live entry.
    pub(crate) fn sleep(&mut self, part: u32)
        ensures kept { (live : Bool) (run n : ℕ) → (live ≡ true → run ≢ part) →
            MayBeIn live self.old.generations.items run n → MayBeIn live self.new.generations.items run n }
        ensures hash { self.new.hash ≡ self.old.hash }
    {
        for at in (0..self.generations.len()).rev() {
            if self.generations[at].sleep(part) {
                return;
            }
        }
    }

    /// Wakes the run.
    pub(crate) fn wake(&mut self, part: u32)
        ensures woken { (n : ℕ) → MayBeIn false self.new.generations.items part n →
            MayBeIn true self.new.generations.items part n }
        ensures kept { (live : Bool) (run n : ℕ) → MayBeIn live self.old.generations.items run n →
            MayBeIn live self.new.generations.items run n }
        ensures hash { self.new.hash ≡ self.old.hash }
    {
        for at in 0..self.generations.len() {
            self.generations[at].wake(part);
        }
    }

    /// Lets filters go of runs that have no entries, where they are many. Takes no memory.
    pub(crate) fn let_go(&mut self, catalog: &Catalog)
        requires { PartsRise (parts_of catalog.now.runs.items) }
        ensures kept { (live : Bool) (run n : ℕ) → is_one_of (parts_of catalog.now.runs.items) run ≡ true →
            MayBeIn live self.old.generations.items run n → MayBeIn live self.new.generations.items run n }
        ensures hash { self.new.hash ≡ self.old.hash }
    {
        let open = catalog.runs().len();
        if open > 0 && self.runs <= open.saturating_mul(2).saturating_add(FEWEST_GONE) {
            return;
        }
        for at in 0..self.generations.len() {
            self.generations[at].let_go(catalog);
        }
        self.generations
            .retain(|generation| !generation.runs.is_empty());
        self.runs = open;
    }

    /// Appends the runs of all generations.
    ///
    /// # Errors
    /// NoMemory, where memory was refused. Some may have been appended.
    pub(crate) fn add_runs(&self, parts: &mut Vec<u32>) -> Result<(), NoMemory>
        ensures added { OnOk result ((live : Bool) (part n : ℕ) → MayBeIn live self.now.generations.items part n →
            is_one_of parts.new.items part ≡ true) }
        ensures kept { (part : ℕ) → is_one_of parts.old.items part ≡ true → is_one_of parts.new.items part ≡ true }
    {
        for generation in &self.generations {
            generation.add_runs(parts)?;
        }
        Ok(())
    }

    /// The newest run in which the key may be live.
    pub(crate) fn newest_run(&self, key: Key) -> Option<u32>
        ensures { result ≡ newest_run self.now.generations.items (key_number self.now.hash key) }
    {
        let number = self.number(key);
        for at in (0..self.generations.len()).rev() {
            let generation = &self.generations[at];
            if generation.may_have(number) {
                let newest = newest_of(&generation.runs, number);
                if newest.is_some() {
                    return newest;
                }
            }
        }
        None
    }
}

// The newest of these runs in which the key of a number may be live.
fn newest_of(runs: &[RunFilter], number: u64) -> Option<u32>
    ensures { result ≡ newest_of runs.now number }
{
    for at in (0..runs.len()).rev() {
        let run = &runs[at];
        if run.may_have(number) {
            return Some(run.part);
        }
    }
    None
}

// Where the run stands among these.
fn place_of(runs: &[RunFilter], part: u32) -> Option<usize>
    ensures { IfSome result (λ at. (at < length runs.now) × ((d : RunFilter) → (get_or runs.now at d).part ≡ part)) }
{
    for at in (0..runs.len()).rev() {
        if runs[at].part == part {
            return Some(at);
        }
    }
    None
}

// Whether one of these runs is awake.
fn is_any_awake(runs: &[RunFilter]) -> bool
    ensures { result ≡ list_any (λ (f : RunFilter). f.is_awake) runs.now }
{
    for run in runs {
        if run.is_awake {
            return true;
        }
    }
    false
}
