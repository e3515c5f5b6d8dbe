//! The separators of a node.

ghost use Rattle.std.specs.Prelude.{◌≡◌, ◌+◌, ◌<◌, ◌≤◌, [], length, take, drop, nat_eq, nat_lt, slice_get};
ghost use Rattle.std.specs.Prelude.{slice_index_or, IfOk, option_copied, true};
ghost use Rattle.std.specs.List.{AllByRecursion, count_by, prefix_len, insert, remove};
ghost use Rattle.am_index_btree.specs.Fronts.{fronts_of, FrontsRise};
ghost use Rattle.am_index_btree.specs.Separators.{IsReach, IsChildFor, SeparatorsRise, lowered};
ghost use Rattle.am_index_btree.specs.Splits.{lower_size};

use crate::room;
use crate::separator::{Separator, reached};
use am_record::{Entry, Key, fronts_follow_keys};
use std::alloc::{AllocError, Global};
use std::marker::Model;

/// How many fronts make a group, of which the last is asked first.
const GROUP: usize = 8;

/// The places at which the children of a node begin, with room for those of a full node.
#[derive(Drop)]
pub(crate) struct Separators {
    places: Vec<Separator>,
    // The front of each: nearly always a search looks at these alone, which stand side by side.
    fronts: Vec<u64>,
}

impl Model for Separators {
    ghost use Rattle.std.specs.Prelude.{◌≡◌, ◌≤◌, List, vec_capacity};
    ghost use Rattle.am_index_btree.specs.declared.separator.Separator.{Separator};
    ghost use Rattle.am_index_btree.specs.SeparatorCode.{separators_code};
    ghost use Rattle.am_index_btree.specs.Fronts.{fronts_of};

    ghost Value = { List Separator };

    ghost coded = { separators_code };

    ghost view = { λ s. s.places.items };

    ghost invariant = { λ s. (s.fronts.items ≡ fronts_of s.places.items) × (32 ≤ vec_capacity s.places) ×
        (32 ≤ vec_capacity s.fronts) };
}

impl Separators {
    /// None, with room for a node's.
    pub(crate) fn with_room(alloc: Global) -> Result<Separators, AllocError>
        ensures { IfOk result (λ separators. separators ≡ []) }
    {
        Ok(Separators {
            places: room::with_room(alloc)?,
            fronts: room::with_room(alloc)?,
        })
    }

    /// The separator at the index.
    pub(crate) fn get(&self, at: usize) -> Separator
        requires { at < length self.now }
        ensures { result ≡ slice_index_or self.now at result }
    {
        self.places[at]
    }

    /// Where the child after that one begins, if there is one.
    pub(crate) fn behind(&self, at: usize) -> Option<&Separator>
        requires { at < length self.now }
        ensures { option_copied result ≡ slice_get self.now (at + 1) }
    {
        self.places.get(at + 1)
    }

    /// How many children begin at or below the place.
    pub(crate) fn reached(&self, part: u32, key: Key) -> usize
        requires { SeparatorsRise self.now }
        ensures { IsReach self.now part key result }
    {
        search(&self.places, &self.fronts, part, key)
    }

    /// The same, where the child may be that one: it is looked at before.
    pub(crate) fn reached_near(&self, child: usize, part: u32, key: Key) -> usize
        requires { SeparatorsRise self.now }
        ensures { IsReach self.now part key result }
    {
        if begins_last(&self.places, &self.fronts, child, part, key) {
            return child + 1;
        }
        self.reached(part, key)
    }

    /// The child in which the place is to be looked for: the last one that begins at or below it, and
    /// the first one where none does.
    pub(crate) fn child_for(&self, part: u32, key: Key) -> usize
        requires rising { SeparatorsRise self.now }
        requires some { 0 < length self.now }
        ensures { IsChildFor self.now part key result }
    {
        self.reached(part, key).saturating_sub(1)
    }

    /// The same, where it may be that one: it is looked at before.
    pub(crate) fn child_near(&self, child: usize, part: u32, key: Key) -> usize
        requires rising { SeparatorsRise self.now }
        requires some { 0 < length self.now }
        ensures { IsChildFor self.now part key result }
    {
        self.reached_near(child, part, key).saturating_sub(1)
    }

    /// How many of the first children begin at or below that front, as far as the last of each eight tells.
    pub(crate) fn pass_groups(&self, front: u64) -> usize
        requires { SeparatorsRise self.now }
    {
        fronts_follow_keys();
        pass_groups(&self.fronts, front.saturating_add(1))
    }

    /// A child in which a place of that front may have to be looked for, behind the children that were passed. It may
    /// be wrong: fronts alone are looked at, those of eight children.
    pub(crate) fn guess(&self, passed: usize, front: u64) -> usize
        ensures { 0 < length self.now → result < length self.now }
    {
        let from = passed.min(self.fronts.len());
        let lower = count_in_group(&self.fronts[from..], front.saturating_add(1));
        from.saturating_add(lower).saturating_sub(1)
    }

    /// Lets the first child begin at the entry, where none begins at or below it.
    pub(crate) fn lower(&mut self, reach: usize, entry: &Entry)
        requires { 0 < length self.old }
        ensures { self.new ≡ lowered self.old reach entry.now }
    {
        if reach == 0 {
            let separator = Separator::of(entry);
            self.places[0] = separator;
            self.fronts[0] = separator.front();
        }
    }

    /// Puts a separator at the index, where there is room.
    pub(crate) fn put(&mut self, at: usize, separator: Separator)
        requires in_range { at ≤ length self.old }
        requires room { length self.old < 32 }
        ensures { self.new ≡ insert self.old at separator }
    {
        room::put(&mut self.places, at, separator);
        room::put(&mut self.fronts, at, separator.front());
    }

    /// Drops the separator at the index.
    pub(crate) fn take_out(&mut self, at: usize)
        requires { at < length self.old }
        ensures { self.new ≡ remove self.old at }
    {
        room::take_out(&mut self.places, at);
        room::take_out(&mut self.fronts, at);
    }

    /// Puts a separator at the index of 32, the upper part of which is moved to where there are none.
    pub(crate) fn split_put(
        &mut self,
        keep: usize,
        at: usize,
        separator: Separator,
        upper: &mut Separators,
    )
        requires full { length self.old ≡ 32 }
        requires in_range { at ≤ 32 }
        requires keeps { (0 < keep) × (keep ≤ 32) }
        requires room { at < keep → keep < 32 }
        requires empty { upper.old ≡ [] }
        ensures front { self.new ≡ take (lower_size keep at) (insert self.old at separator) }
        ensures back { upper.new ≡ drop (lower_size keep at) (insert self.old at separator) }
    {
        room::split_put(&mut self.places, keep, at, separator, &mut upper.places);
        room::split_put(
            &mut self.fronts,
            keep,
            at,
            separator.front(),
            &mut upper.fronts,
        );
    }
}

// How many of the separators, which have these fronts, stand at or below the place. The fronts tell all apart but the
// separators of the place's own front, of which mostly there is none. The last front is asked first, since a load goes
// there.
fn search(separators: &[Separator], fronts: &[u64], part: u32, key: Key) -> usize
    requires fronts { fronts.now ≡ fronts_of separators.now }
    requires rising { SeparatorsRise separators.now }
    ensures { IsReach separators.now part key result }
{
    fronts_follow_keys();
    let front = Separator { part, key }.front();
    let len = fronts.len();
    if len > 0 {
        let last = fronts[len - 1];
        if last < front {
            return len;
        }
        // Then all of them are the place's front, as of texts that begin alike.
        if last == front && fronts[0] == front {
            return reached(separators, part, key);
        }
    }
    let lower = count_lower(fronts, front);
    let alike = count_alike(&fronts[lower..], front);
    lower + reached(&separators[lower..lower + alike], part, key)
}

// Whether the fronts tell that the child is the last one that begins at or below the place.
fn begins_last(separators: &[Separator], fronts: &[u64], child: usize, part: u32, key: Key) -> bool
    requires fronts { fronts.now ≡ fronts_of separators.now }
    requires rising { SeparatorsRise separators.now }
    ensures { result ≡ true → IsReach separators.now part key (child + 1) }
{
    fronts_follow_keys();
    let front = Separator { part, key }.front();
    let len = fronts.len();
    if child >= len || fronts[child] >= front {
        return false;
    }
    child + 1 == len || front < fronts[child + 1]
}

// How many of the fronts are below the one: those of the groups that are below it, and some of the next.
fn count_lower(fronts: &[u64], front: u64) -> usize
    requires rising { FrontsRise fronts.now }
    ensures { result ≡ count_by (λ other. nat_lt other front) fronts.now }
{
    let passed = pass_groups(fronts, front);
    passed + count_in_group(&fronts[passed..], front)
}

// How many stand in groups whose last front is below the one.
fn pass_groups(fronts: &[u64], front: u64) -> usize
    requires rising { FrontsRise fronts.now }
    ensures within { result ≤ length fronts.now }
    ensures below { AllByRecursion (λ other. other < front) (take result fronts.now) }
    ensures above { AllByRecursion (λ other. front ≤ other) (drop 8 (drop result fronts.now)) }
{
    let mut passed = 0;
    let mut end = GROUP;
    'group: while end <= fronts.len() {
        if fronts[end - 1] < front {
            passed = end;
        }
        end += GROUP;
    }
    passed
}

// How many of the first group are below the one. No step depends on what a comparison says.
fn count_in_group(fronts: &[u64], front: u64) -> usize
    ensures { result ≡ count_by (λ other. nat_lt other front) (take 8 fronts.now) }
{
    let mut lower = 0;
    for other in &fronts[..fronts.len().min(GROUP)] {
        lower += usize::from(*other < front);
    }
    lower
}

// How many of the first fronts are the one.
fn count_alike(fronts: &[u64], front: u64) -> usize
    ensures { result ≡ prefix_len (λ other. nat_eq other front) fronts.now }
{
    fronts.iter().take_while(|other| **other == front).count()
}
