//! The ranges that were merged, and the runs that have nothing left in them.

ghost use Rattle.std.specs.Prelude.{ℕ, ◌≡◌, ◌∷◌, ◌||◌, ◌<◌, ◌≤◌, [], List, true, false, IfSome, vec_len};
ghost use Rattle.std.specs.List.{cons_option};
ghost use Rattle.am_record.specs.OrderedKey.{OrderedKey};
ghost use Rattle.am_record.specs.Interval.{within};
ghost use Rattle.am_record.specs.declared.entry.Entry.{Entry};
ghost use Rattle.am_index_parts.specs.MergedRanges.{HasNoneBefore, AreMerged, SayNoMore};

use am_record::{Key, NoMemory, Range};
use std::alloc::Global;

// How many ranges are known at most. A range that a query asks for mostly meets others, and becomes one with them.
const MOST_RANGES: usize = 4096;

// Room for so many ranges is got when a run is loaded, and for more when they come.
const FIRST_RANGES: usize = 64;

/// A range, and the first run that may have an entry in it.
#[derive(Clone, Copy)]
pub(crate) struct MergedRange {
    range: Range,
    first_run: u32,
}

impl MergedRange {
    // Both as one, where one range says what both do.
    fn with(&self, other: &MergedRange) -> Option<MergedRange>
        ensures { IfSome result (λ both. SayNoMore (self.now ∷ other.now ∷ []) (both ∷ [])) }
    {
        if self.is_marked(other) {
            return Some(*self);
        }
        if other.is_marked(self) {
            return Some(*other);
        }
        if self.first_run != other.first_run {
            return None;
        }
        let range = union(self.range, other.range)?;
        Some(MergedRange {
            range,
            first_run: self.first_run,
        })
    }

    // Whether it says what the other says, or more.
    fn is_marked(&self, other: &MergedRange) -> bool {
        self.range.encloses(&other.range) && self.first_run >= other.first_run
    }

    // What it says of its keys up to that one, where it begins below it.
    fn up_to(&self, key: Key) -> Option<MergedRange>
        ensures { IfSome result (λ part. SayNoMore (self.now ∷ []) (part ∷ [])) }
    {
        if self.range.lo() >= key {
            return None;
        }
        self.part(self.range.lo(), key)
    }

    // What it says of its keys from that one on, where it ends above it.
    fn from(&self, key: Key) -> Option<MergedRange>
        ensures { IfSome result (λ part. SayNoMore (self.now ∷ []) (part ∷ [])) }
    {
        if self.range.hi() <= key {
            return None;
        }
        self.part(key, self.range.hi())
    }

    // What it says of the keys between two of its own.
    fn part(&self, lo: Key, hi: Key) -> Option<MergedRange>
        ensures { IfSome result (λ part. SayNoMore (self.now ∷ []) (part ∷ [])) }
    {
        let range = Range::new(lo, hi)?;
        if !self.range.encloses(&range) {
            return None;
        }
        Some(MergedRange { range, ..*self })
    }
}

/// The ranges that were merged: the one noted last, and after it, by rising keys, those in which no run had an entry
/// left.
///
/// A run that was merged in a range never gets an entry there again, unless one is added to it by hand. So a look for
/// the entries of such a range begins after it.
#[derive(Drop)]
pub(crate) struct MergedRanges {
    list: Vec<MergedRange>,
}

impl MergedRanges {
    /// None. It takes no memory.
    pub(crate) fn new(alloc: Global) -> MergedRanges
        ensures { result.list.items ≡ [] }
    {
        MergedRanges {
            list: Vec::new(alloc),
        }
    }

    /// The first run that may have an entry in the range.
    pub(crate) fn first_run(&self, range: &Range) -> u32
        ensures is_run { 0 < result }
        ensures none_before { (es : List Entry) (runs : ℕ) → AreMerged es runs self.now.list.items →
            HasNoneBefore es range.now result }
    {
        let end = self.end_of(range.lo());
        let newest = first_run_by(&self.list[..self.list.len().min(1)], range);
        let near = first_run_by(&self.list[end.saturating_sub(1)..end], range);
        if near < newest { newest } else { near }
    }

    // How many ranges stand before the first one that begins above the key, but for the newest.
    fn end_of(&self, key: Key) -> usize
        ensures { result ≤ vec_len self.now.list }
    {
        let first = self.list.len().min(1);
        first + self.list[first..].partition_point(|merged| merged.range.lo() <= key)
    }

    // How many stand before the first one that ends at the key or above it, the newest among them.
    fn place_of(&self, key: Key) -> usize
        ensures { result ≤ vec_len self.now.list }
    {
        let first = self.list.len().min(1);
        first + self.list[first..].partition_point(|merged| merged.range.hi() < key)
    }

    /// Gets room for the first ranges that may become known.
    ///
    /// # Errors
    /// NoMemory, where memory was refused.
    pub(crate) fn reserve(&mut self) -> Result<(), NoMemory>
        ensures { self.new.list.items ≡ self.old.list.items }
    {
        self.list
            .reserve(FIRST_RANGES.saturating_sub(self.list.len()))?;
        Ok(())
    }

    /// Puts down a range as merged in all runs before that one; it may be that no run has an entry left there. Such
    /// ranges that meet become one. Where there are too many, or memory is refused, some are let go.
    pub(crate) fn note(&mut self, range: Range, first_run: u32, is_whole: bool)
        ensures { SayNoMore (record { range = range; first_run = first_run } ∷ self.old.list.items)
            self.new.list.items }
    {
        self.renew(MergedRange { range, first_run });
        if is_whole {
            self.join(MergedRange { range, first_run });
        }
    }

    // It is the newest.
    fn renew(&mut self, merged: MergedRange)
        ensures { SayNoMore (merged ∷ self.old.list.items) self.new.list.items }
    {
        if self.list.is_empty() {
            self.put(0, merged);
        } else {
            self.list[0] = merged;
        }
    }

    // Puts it among those after the newest.
    fn join(&mut self, merged: MergedRange)
        ensures { SayNoMore (merged ∷ self.old.list.items) self.new.list.items }
    {
        self.list.truncate(MOST_RANGES - 3);
        let at = self.place_of(merged.range.lo());
        if !self.widen(at, &merged) {
            self.unite(at, merged);
        }
    }

    // Lets the range there become one with it, where these two meet and no other does. Whether they did.
    fn widen(&mut self, at: usize, merged: &MergedRange) -> bool
        ensures says { SayNoMore (merged.now ∷ self.old.list.items) self.new.list.items }
        ensures same { result ≡ false → self.new ≡ self.old }
    {
        if at >= self.list.len() || !self.list[at].range.meets(&merged.range) {
            return false;
        }
        let Some(both) = merged.with(&self.list[at]) else {
            return false;
        };
        if at + 1 < self.list.len() && self.list[at + 1].range.meets(&both.range) {
            return false;
        }
        self.list[at] = both;
        true
    }

    // Lets it become one with those from that place on that it meets, and take the place of what says less of its keys.
    fn unite(&mut self, at: usize, merged: MergedRange)
        ensures { SayNoMore (merged ∷ self.old.list.items) self.new.list.items }
    {
        let mut merged = merged;
        let mut at = at;
        'met: for _ in 0..self.list.len() {
            if at >= self.list.len() || !self.list[at].range.meets(&merged.range) {
                break 'met;
            }
            let other = self.list.remove(at);
            if let Some(both) = merged.with(&other) {
                merged = both;
            } else {
                self.put_part(at, other.from(merged.range.hi()));
                self.put_part(at, other.up_to(merged.range.lo()));
                at += usize::from(other.range.lo() < merged.range.lo());
                if other.range.hi() > merged.range.hi() {
                    break 'met;
                }
            }
        }
        self.put(at, merged);
    }

    // Puts a part of a range there, if there is one.
    fn put_part(&mut self, at: usize, part: Option<MergedRange>)
        ensures { SayNoMore (cons_option part self.old.list.items) self.new.list.items }
    {
        if let Some(part) = part {
            self.put(at, part);
        }
    }

    // Puts a range there, or at the end, where there is room.
    fn put(&mut self, at: usize, merged: MergedRange)
        ensures { SayNoMore (merged ∷ self.old.list.items) self.new.list.items }
    {
        let at = at.min(self.list.len());
        let _ = self.list.insert(at, merged);
    }

    /// Lets all go, where an entry is added to a run.
    pub(crate) fn add(&mut self, part: u32)
        ensures kept { part ≡ 0 → self.new.list.items ≡ self.old.list.items }
        ensures let_go { 0 < part → self.new.list.items ≡ [] }
    {
        if part > 0 {
            self.list.clear();
        }
    }
}

// The first run that may have an entry in the range, by what these say.
fn first_run_by(list: &[MergedRange], range: &Range) -> u32
    ensures is_run { 0 < result }
    ensures none_before { (es : List Entry) (runs : ℕ) → AreMerged es runs list.now →
        HasNoneBefore es range.now result }
{
    let mut first = 1;
    for merged in list {
        if first < merged.first_run && merged.range.encloses(range) {
            first = merged.first_run;
        }
    }
    first
}

// The keys of both ranges, where they meet.
fn union(a: Range, b: Range) -> Option<Range>
    ensures { IfSome result (λ both. (key : OrderedKey) → within both key ≡ true →
        (within a key || within b key) ≡ true) }
{
    if !a.meets(&b) {
        return None;
    }
    Range::new(a.lo().min(b.lo()), a.hi().max(b.hi()))
}
