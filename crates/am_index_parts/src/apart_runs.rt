//! Runs whose keys lie apart: no two of their ranges meet.

ghost use Rattle.std.specs.Prelude.{◌≡◌, ◌<◌, ◌≤◌, ◌+◌, ◌⊎◌, ℕ, [], Some, true, false, length, get_or, take, drop};
ghost use Rattle.std.specs.Prelude.{IfSome, IfNone, OnOk, OnErr};
ghost use Rattle.std.specs.List.{AllByRecursion};
ghost use Rattle.am_record.specs.OrderedKey.{OrderedKey};
ghost use Rattle.am_record.specs.Interval.{key_le, within, meets};
ghost use Rattle.am_index_parts.specs.Catalogs.{PartsRise, parts_of, is_one_of};

use crate::catalog::Catalog;
use am_record::{Key, NoMemory, Range};
use std::alloc::Global;

/// While fewer stand apart, one may come between them. Where more do, one stands apart only behind all others, since it
/// would move all that are behind it.
const MOST_AMONG: usize = 1_024;

/// So many runs without entries are kept, and one beside each that has some: to look at all at each load would take as
/// long as all loads before it.
const FEWEST_GONE: usize = 16;

/// A run, and a range in which its keys lie.
#[derive(Clone, Copy)]
pub(crate) struct ApartRun {
    pub(crate) part: u32,
    pub(crate) range: Range,
}

/// Runs whose ranges meet none of each other's, by rising keys.
#[derive(Drop)]
pub(crate) struct ApartRuns {
    list: Vec<ApartRun>,
}

impl ApartRuns {
    ghost use Rattle.am_index_parts.specs.ApartRuns.{StandsApart, AreInOrder, NoneMeets};

    /// None. It takes no memory.
    pub(crate) fn new(alloc: Global) -> ApartRuns
        ensures { result.list.items ≡ [] }
    {
        ApartRuns {
            list: Vec::new(alloc),
        }
    }

    /// The runs, by rising keys.
    pub(crate) fn runs(&self) -> &[ApartRun]
        ensures { result.now ≡ self.now.list.items }
    {
        &self.list
    }

    /// Whether a run of that range comes in at little cost.
    pub(crate) fn takes(&self, range: Range) -> bool
        requires { AreInOrder self.now.list.items }
    {
        self.list.len() < MOST_AMONG || self.first_from(range.lo()) == self.list.len()
    }

    /// The last one from the index on that begins at or below the key; the one at the index where none does.
    pub(crate) fn last_to(&self, key: Key, from: usize) -> usize
        requires order { AreInOrder self.now.list.items }
        requires in_range { from < length self.now.list.items }
        ensures { result < length self.now.list.items }
    {
        let end = self.list.partition_point(|run| run.range.lo() <= key);
        end.max(from + 1) - 1
    }

    /// Where the first of them stands whose range meets this one.
    pub(crate) fn first_meeting(&self, range: Range) -> Option<usize>
        requires { AreInOrder self.now.list.items }
        ensures met { IfSome result (λ at. (at < length self.now.list.items) ×
            ((d : ApartRun) → meets (get_or self.now.list.items at d).range range ≡ true)) }
        ensures none { IfNone result (NoneMeets self.now.list.items range) }
    {
        let at = self.first_from(range.lo());
        let run = self.list.get(at)?;
        if run.range.meets(&range) {
            Some(at)
        } else {
            None
        }
    }

    /// Appends those whose ranges meet this one.
    ///
    /// # Errors
    /// NoMemory, where memory was refused. Some may have been appended.
    pub(crate) fn add_meeting(&self, range: Range, parts: &mut Vec<u32>) -> Result<(), NoMemory>
        requires { AreInOrder self.now.list.items }
        ensures added { OnOk result ((part : ℕ) (key : OrderedKey) → within range key ≡ true →
            StandsApart self.now.list.items part key → is_one_of parts.new.items part ≡ true) }
        ensures kept { (part : ℕ) → is_one_of parts.old.items part ≡ true → is_one_of parts.new.items part ≡ true }
    {
        let mut at = self.first_from(range.lo());
        while at < self.list.len() && self.list[at].range.meets(&range) {
            parts.push(self.list[at].part)?;
            at += 1;
        }
        Ok(())
    }

    /// The range up to where those that lie in it, from the first one on, have so many live entries; all of it where
    /// they don't have so many.
    pub(crate) fn first_piece(&self, catalog: &Catalog, range: Range, max: u64) -> Range
        requires { PartsRise (parts_of catalog.now.runs.items) }
        ensures within { (key : OrderedKey) → within result key ≡ true → within range key ≡ true }
        ensures begins { result.lo ≡ range.lo }
    {
        let mut live: u64 = 0;
        let first = self.list.partition_point(|run| run.range.lo() < range.lo());
        for at in first..self.list.len() {
            let run = self.list[at];
            if run.range.hi() > range.hi() {
                break;
            }
            live = live.saturating_add(catalog.live_in(run.part));
            if live >= max {
                return up_to(range, run.range.hi());
            }
        }
        range
    }

    /// The same from where they have so many, from the last one down.
    pub(crate) fn last_piece(&self, catalog: &Catalog, range: Range, max: u64) -> Range
        requires { PartsRise (parts_of catalog.now.runs.items) }
        ensures within { (key : OrderedKey) → within result key ≡ true → within range key ≡ true }
        ensures ends { result.hi ≡ range.hi }
    {
        let mut live: u64 = 0;
        let end = self
            .list
            .partition_point(|run| run.range.hi() <= range.hi());
        for at in (0..end).rev() {
            let run = self.list[at];
            if run.range.lo() < range.lo() {
                break;
            }
            live = live.saturating_add(catalog.live_in(run.part));
            if live >= max {
                return down_to(range, run.range.lo());
            }
        }
        range
    }

    /// The run in whose range the key lies.
    pub(crate) fn holder(&self, key: Key) -> Option<u32>
        requires { AreInOrder self.now.list.items }
        ensures held { IfSome result (λ part. StandsApart self.now.list.items part key) }
        ensures only { (part : ℕ) → StandsApart self.now.list.items part key → result ≡ Some part }
    {
        let at = self.first_meeting(Range::point(key))?;
        Some(self.list[at].part)
    }

    // Where the first one stands that doesn't end before the key.
    fn first_from(&self, key: Key) -> usize
        requires { AreInOrder self.now.list.items }
        ensures in_range { result ≤ length self.now.list.items }
        ensures before { AllByRecursion (λ (a : ApartRun). key_le key a.range.hi ≡ false)
            (take result self.now.list.items) }
        ensures from { AllByRecursion (λ (a : ApartRun). key_le key a.range.hi ≡ true)
            (drop result self.now.list.items) }
    {
        self.list.partition_point(|run| run.range.hi() < key)
    }

    /// Adds a run whose range meets none of theirs.
    ///
    /// # Errors
    /// NoMemory, where memory was refused; nothing is changed.
    pub(crate) fn insert(&mut self, run: ApartRun) -> Result<(), NoMemory>
        requires order { AreInOrder self.old.list.items }
        requires clear { NoneMeets self.old.list.items run.range }
        ensures order { AreInOrder self.new.list.items }
        ensures kept { (part : ℕ) (key : OrderedKey) → StandsApart self.old.list.items part key →
            StandsApart self.new.list.items part key }
        ensures stands { OnOk result ((key : OrderedKey) → within run.range key ≡ true →
            StandsApart self.new.list.items run.part key) }
        ensures err { OnErr result (self.new.list.items ≡ self.old.list.items) }
    {
        let at = self.first_from(run.range.lo());
        self.list.insert(at, run)?;
        Ok(())
    }

    /// Takes out the one at the index.
    pub(crate) fn remove(&mut self, at: usize)
        requires order { AreInOrder self.old.list.items }
        requires in_range { at < length self.old.list.items }
        ensures order { AreInOrder self.new.list.items }
        ensures fewer { length self.new.list.items + 1 ≡ length self.old.list.items }
        ensures others { (part : ℕ) (key : OrderedKey) (d : ApartRun) → StandsApart self.old.list.items part key →
            StandsApart self.new.list.items part key ⊎ (((get_or self.old.list.items at d).part ≡ part) ×
            (within (get_or self.old.list.items at d).range key ≡ true)) }
    {
        let _ = self.list.remove(at);
    }

    /// Lets runs go that have no entries, where they are as many as the others and some more. Takes no memory.
    pub(crate) fn let_go(&mut self, catalog: &Catalog)
        requires order { AreInOrder self.old.list.items }
        requires rising { PartsRise (parts_of catalog.now.runs.items) }
        ensures order { AreInOrder self.new.list.items }
        ensures kept { (part : ℕ) (key : OrderedKey) → is_one_of (parts_of catalog.now.runs.items) part ≡ true →
            StandsApart self.old.list.items part key → StandsApart self.new.list.items part key }
    {
        let few = catalog
            .runs()
            .len()
            .saturating_mul(2)
            .saturating_add(FEWEST_GONE);
        if self.list.len() > few {
            self.list.retain(|run| catalog.has_run(run.part));
        }
    }
}

// The range up to that key, where it has the key.
fn up_to(range: Range, key: Key) -> Range
    ensures within { (k : OrderedKey) → within result k ≡ true → within range k ≡ true }
    ensures begins { result.lo ≡ range.lo }
{
    match Range::new(range.lo(), key) {
        Some(piece) if range.encloses(&piece) => piece,
        _ => range,
    }
}

// The range from that key on, where it has the key.
fn down_to(range: Range, key: Key) -> Range
    ensures within { (k : OrderedKey) → within result k ≡ true → within range k ≡ true }
    ensures ends { result.hi ≡ range.hi }
{
    match Range::new(key, range.hi()) {
        Some(piece) if range.encloses(&piece) => piece,
        _ => range,
    }
}
