//! The runs that have entries left, and how many entries there are.

ghost use Rattle.std.specs.Prelude.{◌≡◌, ◌+◌, ◌<◌, ◌≤◌, ◌++◌, ◌^◌, ℕ, List, [], ◌∷◌, length, take, drop, true, false};
ghost use Rattle.std.specs.Prelude.{not, is_some, IsSome, IsTrue, IfSome, IfNone, IfOk, IfErr, OnOk, OnErr, vec_len};
ghost use Rattle.std.specs.Prelude.{◌↔◌};
ghost use Rattle.std.specs.Prelude.{vec_capacity, nat_lt};
ghost use Rattle.std.specs.List.{AllByRecursion};
ghost use Rattle.am_record.specs.OrderedKey.{OrderedKey};
ghost use Rattle.am_record.specs.Plain.{Records};
ghost use Rattle.am_record.specs.declared.entry.Entry.{Entry};
ghost use Rattle.am_index.specs.Entries.{find, insert_entry, all_inserted, set_entry, remove_entry, IsRising};
ghost use Rattle.am_index.specs.Content.{live_value};
ghost use Rattle.am_index.specs.Runs.{run_entries};
ghost use Rattle.am_index_parts.specs.GoingHome.{IsHome};
ghost use Rattle.am_index_parts.specs.Catalogs.{parts_of, PartsRise, IsRunAt, IsGapAt, HasCounted, HasMore, IsNext};
ghost use Rattle.am_index_parts.specs.Catalogs.{runs_in, is_one_of, left_in, live_of, HasTurned};

use am_index::Figures;
use am_record::NoMemory;
use std::alloc::Global;

/// A run that has entries left.
#[derive(Clone, Copy)]
pub(crate) struct OpenRun {
    pub(crate) part: u32,
    // How many entries are left in it, and how many of these are live.
    left: u64,
    live: u64,
}

impl OpenRun {
    fn add(&mut self, is_live: bool) -> Result<(), NoMemory>
        ensures ok { OnOk result (HasMore self.old is_live self.new) }
        ensures err { OnErr result (self.new ≡ self.old) }
    {
        // No memory holds 2^64 entries.
        let left = self.left.checked_add(1).ok_or(NoMemory)?;
        let live = self.live.checked_add(u64::from(is_live)).ok_or(NoMemory)?;
        self.left = left;
        self.live = live;
        Ok(())
    }

    // Counts an entry as gone.
    fn take(&mut self, was_live: bool)
        requires left { 0 < self.old.left }
        requires live { was_live ≡ true → 0 < self.old.live }
        ensures { HasMore self.new was_live self.old }
    {
        self.left -= 1;
        self.live -= u64::from(was_live);
    }

    // Counts a live entry as a ghost from now on, or a ghost as live.
    fn turn(&mut self, was_live: bool)
        requires live { was_live ≡ true → 0 < self.old.live }
        requires other { was_live ≡ false → self.old.live < self.old.left }
        ensures { HasTurned self.old was_live self.new }
    {
        if was_live {
            self.live -= 1;
        } else {
            prove!(self.live < self.left);
            self.live += 1;
        }
    }
}

/// How many entries stand in the final partition and in all, how many of all are live, and the runs that have entries
/// left. A run that is not among them has none.
#[derive(Drop)]
pub(crate) struct Catalog {
    in_final: u64,
    entries: u64,
    live: u64,
    // By rising partition.
    runs: Vec<OpenRun>,
}

impl Catalog {
    ghost use Rattle.am_index_parts.specs.Catalogs.{AreCountedIn, IsCatalog};
    ghost use Rattle.am_index_parts.specs.Partitions.{AreEmpty, AreEmptyFrom};
    ghost use Rattle.am_index_parts.specs.Figures.{AreFigures};

    /// That of an empty index. It takes no memory.
    pub(crate) fn new(alloc: Global) -> Catalog
        ensures { IsCatalog [] result }
    {
        Catalog {
            in_final: 0,
            entries: 0,
            live: 0,
            runs: Vec::new(alloc),
        }
    }

    /// Whether the final partition has entries.
    pub(crate) fn has_final(&self) -> bool
        ensures { result ≡ false → self.now.in_final ≡ 0 }
    {
        self.in_final > 0
    }

    /// The runs that have entries left, by rising partition.
    pub(crate) fn runs(&self) -> &[OpenRun]
        ensures { result.now ≡ self.now.runs.items }
    {
        &self.runs
    }

    /// Whether the run has entries left.
    pub(crate) fn has_run(&self, part: u32) -> bool
        requires { PartsRise (parts_of self.now.runs.items) }
        ensures { result ≡ is_one_of (parts_of self.now.runs.items) part }
    {
        search(&self.runs, part).is_ok()
    }

    /// How many entries are left in the run.
    pub(crate) fn left_in(&self, part: u32) -> u64
        requires { PartsRise (parts_of self.now.runs.items) }
        ensures { (es : List Entry) → IsCatalog es self.now → 0 < part → result ≡ left_in part es }
    {
        match search(&self.runs, part) {
            Ok(at) => self.runs[at].left,
            Err(_) => 0,
        }
    }

    /// How many entries of the run are live.
    pub(crate) fn live_in(&self, part: u32) -> u64
        requires { PartsRise (parts_of self.now.runs.items) }
        ensures { (es : List Entry) → IsCatalog es self.now → 0 < part → result ≡ live_of part es }
    {
        match search(&self.runs, part) {
            Ok(at) => self.runs[at].live,
            Err(_) => 0,
        }
    }

    /// Whether the run has live entries.
    pub(crate) fn has_live(&self, part: u32) -> bool
        requires { PartsRise (parts_of self.now.runs.items) }
        ensures { (es : List Entry) → IsCatalog es self.now → 0 < part → result ≡ nat_lt 0 (live_of part es) }
    {
        self.live_in(part) > 0
    }

    /// How many runs have entries left.
    pub(crate) fn open_runs(&self) -> usize
        ensures { (es : List Entry) → IsRising es → IsCatalog es self.now → result ≡ runs_in es }
    {
        self.runs().len()
    }

    /// How many entries there are.
    pub(crate) fn figures(&self) -> Figures
        requires { (es : List Entry) × IsCatalog es self.now }
        ensures { (es : List Entry) → IsCatalog es self.now → AreFigures es result }
    {
        let runs = self.runs();
        Figures {
            entries: self.entries,
            in_final: self.in_final,
            in_runs: self.entries - self.in_final,
            runs: runs.len() as u64,
            ghosts: self.entries - self.live,
        }
    }

    /// The first partition from that one on that has entries.
    pub(crate) fn next_part(&self, from: u32) -> Option<u32>
        requires rising { PartsRise (parts_of self.now.runs.items) }
        ensures further { IfSome result (λ part. from ≤ part) }
        ensures passed { IfSome result (λ part. (es : List Entry) → IsCatalog es self.now → AreEmpty es from part) }
        ensures none { IfNone result ((es : List Entry) → IsCatalog es self.now → AreEmptyFrom es from) }
    {
        if from == 0 && self.has_final() {
            return Some(0);
        }
        let at = count_below(&self.runs, u64::from(from));
        Some(self.runs.get(at)?.part)
    }

    /// Counts an entry of that partition.
    ///
    /// # Errors
    /// NoMemory, where memory was refused; it is the same entries' as before.
    pub(crate) fn add(&mut self, part: u32, is_ghost: bool) -> Result<(), NoMemory>
        requires { PartsRise (parts_of self.old.runs.items) }
        ensures ok { OnOk result ((es : List Entry) (x : Entry) → x.part ≡ part → x.is_ghost ≡ is_ghost →
            IsCatalog es self.old → IsCatalog (insert_entry es x) self.new) }
        ensures err { OnErr result ((es : List Entry) → IsCatalog es self.old → IsCatalog es self.new) }
    {
        // No memory holds 2^64 entries.
        let entries = self.entries.checked_add(1).ok_or(NoMemory)?;
        let live = self.live.checked_add(u64::from(!is_ghost)).ok_or(NoMemory)?;
        self.add_to_part(part, is_ghost)?;
        self.entries = entries;
        self.live = live;
        Ok(())
    }

    /// Whether so many entries more can be counted.
    pub(crate) fn has_count_for(&self, more: usize) -> bool
        ensures { IsTrue result ↔ (self.now.entries + more < 2 ^ 64) }
    {
        // No memory holds 2^64 entries.
        self.entries.checked_add(more as u64).is_some()
    }

    /// Counts so many live entries of the final partition. Takes no memory.
    pub(crate) fn add_homes(&mut self, count: usize)
        requires catalog { (es : List Entry) × IsCatalog es self.old }
        requires counts { self.old.entries + count < 2 ^ 64 }
        ensures { (es xs : List Entry) → count ≡ length xs → AllByRecursion IsHome xs → IsCatalog es self.old →
            IsCatalog (all_inserted xs es) self.new }
    {
        let more = count as u64;
        self.in_final += more;
        self.entries += more;
        self.live += more;
    }

    // Counts an entry in its partition.
    fn add_to_part(&mut self, part: u32, is_ghost: bool) -> Result<(), NoMemory>
        requires { PartsRise (parts_of self.old.runs.items) }
        ensures ok { OnOk result ((es : List Entry) (x : Entry) → x.part ≡ part → x.is_ghost ≡ is_ghost →
            AreCountedIn es self.old → AreCountedIn (insert_entry es x) self.new) }
        ensures err { OnErr result ((es : List Entry) → AreCountedIn es self.old → AreCountedIn es self.new) }
        ensures all { (self.new.entries ≡ self.old.entries) × (self.new.live ≡ self.old.live) }
    {
        if part == 0 {
            self.in_final = self.in_final.checked_add(1).ok_or(NoMemory)?;
            return Ok(());
        }
        match search(&self.runs, part) {
            Ok(at) => self.runs[at].add(!is_ghost),
            Err(at) => self.open(at, part, is_ghost),
        }
    }

    // Opens a run of one entry at the index.
    fn open(&mut self, at: usize, part: u32, is_ghost: bool) -> Result<(), NoMemory>
        requires is_run { 0 < part }
        requires gap { IsGapAt self.old.runs.items part at }
        ensures ok { OnOk result ((es : List Entry) (x : Entry) → x.part ≡ part → x.is_ghost ≡ is_ghost →
            AreCountedIn es self.old → AreCountedIn (insert_entry es x) self.new) }
        ensures err { OnErr result ((es : List Entry) → AreCountedIn es self.old → AreCountedIn es self.new) }
        ensures all { (self.new.entries ≡ self.old.entries) × (self.new.live ≡ self.old.live) }
    {
        let run = OpenRun {
            part,
            left: 1,
            live: u64::from(!is_ghost),
        };
        self.runs.insert(at, run)?;
        Ok(())
    }

    /// Counts that an entry of the partition is live or a ghost from now on. Takes no memory.
    pub(crate) fn mark(&mut self, part: u32, was_live: bool, is_ghost: bool)
        requires { HasCounted self.old part was_live }
        ensures { (es : List Entry) (key : OrderedKey) (value : List ℕ) → IsCatalog es self.old →
            IsSome (find es part key) → is_some (live_value (find es part key)) ≡ was_live →
            IsCatalog (set_entry es part key value is_ghost) self.new }
    {
        if was_live != is_ghost {
            return;
        }
        self.turn_in_part(part, was_live);
        if was_live {
            self.live -= 1;
        } else {
            prove!(self.live < self.entries);
            self.live += 1;
        }
    }

    // Counts a live entry of its partition as a ghost from now on, or a ghost as live.
    fn turn_in_part(&mut self, part: u32, was_live: bool)
        requires { HasCounted self.old part was_live }
        ensures listed { (es : List Entry) (key : OrderedKey) (value : List ℕ) → AreCountedIn es self.old →
            IsSome (find es part key) → is_some (live_value (find es part key)) ≡ was_live →
            AreCountedIn (set_entry es part key value was_live) self.new }
        ensures all { (self.new.entries ≡ self.old.entries) × (self.new.live ≡ self.old.live) }
    {
        if part == 0 {
            return;
        }
        let Ok(at) = search(&self.runs, part) else {
            unreachable!()
        };
        self.runs[at].turn(was_live);
    }

    /// Counts an entry of the partition as gone. A run without entries leaves. Takes no memory.
    pub(crate) fn take(&mut self, part: u32, was_live: bool)
        requires { HasCounted self.old part was_live }
        ensures { (es : List Entry) (key : OrderedKey) → IsCatalog es self.old → IsSome (find es part key) →
            is_some (live_value (find es part key)) ≡ was_live → IsCatalog (remove_entry es part key) self.new }
    {
        self.take_from_part(part, was_live);
        self.entries -= 1;
        self.live -= u64::from(was_live);
    }

    // Counts an entry as gone in its partition.
    fn take_from_part(&mut self, part: u32, was_live: bool)
        requires counted { HasCounted self.old part was_live }
        ensures listed { (es : List Entry) (key : OrderedKey) → AreCountedIn es self.old →
            IsSome (find es part key) → is_some (live_value (find es part key)) ≡ was_live →
            AreCountedIn (remove_entry es part key) self.new }
        ensures all { (self.new.entries ≡ self.old.entries) × (self.new.live ≡ self.old.live) }
    {
        if part == 0 {
            self.in_final -= 1;
            return;
        }
        let Ok(at) = search(&self.runs, part) else {
            unreachable!()
        };
        if self.runs[at].left > 1 {
            self.runs[at].take(was_live);
            return;
        }
        let _ = self.runs.remove(at);
    }

    /// Gets room for one more run, of so many entries.
    ///
    /// # Errors
    /// NoMemory, where memory was refused; it is the same entries' as before.
    pub(crate) fn make_room(&mut self, entries: usize) -> Result<(), NoMemory>
        ensures room { OnOk result (vec_len self.new.runs < vec_capacity self.new.runs) }
        ensures counts { OnOk result ((self.new.entries + entries < 2 ^ 64) × (self.new.live + entries < 2 ^ 64)) }
        ensures same { (es : List Entry) → IsCatalog es self.old → IsCatalog es self.new }
    {
        // No memory holds 2^64 entries.
        let _entries = self.entries.checked_add(entries as u64).ok_or(NoMemory)?;
        let _live = self.live.checked_add(entries as u64).ok_or(NoMemory)?;
        self.runs.reserve(1)?;
        Ok(())
    }

    /// Puts a run after all others, for which room was got, with so many entries, all of them live. Takes no memory.
    pub(crate) fn push(&mut self, part: u32, entries: usize)
        requires room { vec_len self.old.runs < vec_capacity self.old.runs }
        requires counts { (self.old.entries + entries < 2 ^ 64) × (self.old.live + entries < 2 ^ 64) }
        ensures { (es : List Entry) (rs : Records) → entries ≡ length rs → IsCatalog es self.old → IsNext es part rs →
            IsCatalog (es ++ run_entries part rs) self.new }
    {
        let left = entries as u64;
        let run = OpenRun {
            part,
            left,
            live: left,
        };
        let Ok(()) = self.runs.push(run) else {
            unreachable!()
        };
        self.entries += left;
        self.live += left;
    }
}

// Where the partition's run is, or where it would go.
fn search(runs: &[OpenRun], part: u32) -> Result<usize, usize>
    requires { PartsRise (parts_of runs.now) }
    ensures found { IfOk result (IsRunAt runs.now part) }
    ensures absent { IfErr result (IsGapAt runs.now part) }
{
    let at = count_below(runs, u64::from(part));
    match runs.get(at) {
        Some(run) if run.part == part => Ok(at),
        _ => Err(at),
    }
}

// The number of runs below the partition.
fn count_below(runs: &[OpenRun], part: u64) -> usize
    requires { PartsRise (parts_of runs.now) }
    ensures in_range { result ≤ length runs.now }
    ensures below { AllByRecursion (λ r. r.part < part) (take result runs.now) }
    ensures others { AllByRecursion (λ r. part ≤ r.part) (drop result runs.now) }
{
    runs.partition_point(|run| u64::from(run.part) < part)
}
