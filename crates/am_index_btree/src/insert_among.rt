//! Adding entries among others.

ghost use Rattle.std.specs.Prelude.{◌≡◌, ◌≤◌, length, take, None, option_copied};
ghost use Rattle.std.specs.List.{AllByRecursion};
ghost use Rattle.am_index.specs.Entries.{find, all_inserted, IsRising};
ghost use Rattle.am_index_leaf.specs.LeafCode.{ValuesHaveRoom};
ghost use Rattle.am_index_btree.specs.EntriesBetween.{is_below, GoesAmong, HasPut};
ghost use Rattle.am_index_btree.specs.Rooms.{KeepsRoom};

use crate::ghosts::mark;
use crate::node::{Node, Subtree};
use crate::room::ROOM;
use crate::separator::Separator;
use am_index_leaf::RawLeaf;
use am_record::Entry;

impl Subtree {
    /// Adds the first of several entries that rise and go below the bound, each after another of its leaf: one after
    /// another, up to the first one that doesn't go there, or has no room. How many it added. They belong into these
    /// leaves by the separators as they stand, so none of these changes. It goes down once, and then from leaf to leaf.
    pub(crate) fn insert_among(&mut self, bound: Option<&Separator>, more: &[Entry]) -> usize
        requires rising { IsRising more.now }
        ensures most { result ≤ length more.now }
        ensures among { AllByRecursion (GoesAmong self.old.entries (option_copied bound.entry)) (take result more.now) }
        ensures free { AllByRecursion (λ e. find self.old.entries e.part e.key ≡ None) (take result more.now) }
        ensures added { self.new.entries ≡ all_inserted (take result more.now) self.old.entries }
        ensures depth { self.new.depth ≡ self.old.depth }
        ensures rooms { KeepsRoom self.old self.new }
    {
        match &mut self.node {
            Node::Leaf(leaf) => put_all_among(leaf, bound, more),
            Node::Inner(separators, children, marks) => {
                let mut added = 0;
                let mut goes_on = true;
                'stretch: while goes_on && added < more.len() && is_below(bound, &more[added]) {
                    let at = separators.child_for(more[added].part, more[added].key);
                    let end = separators.behind(at).or(bound);
                    let child = &mut children[at];
                    let count = child.insert_among(end, &more[added..]);
                    mark(marks, at, child);
                    added += count;
                    goes_on = count > 0;
                }
                added
            }
        }
    }
}

// Whether the entry is below the bound, if there is one.
fn is_below(bound: Option<&Separator>, entry: &Entry) -> bool
    ensures { result ≡ is_below (option_copied bound.entry) entry.now }
{
    match bound {
        Some(bound) => !bound.is_reached(entry.part, entry.key),
        None => true,
    }
}

// Adds the first of several entries, each after another of the leaf and below the bound, and says how many.
fn put_all_among(leaf: &mut RawLeaf, bound: Option<&Separator>, more: &[Entry]) -> usize
    ensures count { result ≤ length more.now }
    ensures among { AllByRecursion (GoesAmong leaf.old.entries (option_copied bound.entry)) (take result more.now) }
    ensures free { AllByRecursion (λ e. find leaf.old.entries e.part e.key ≡ None) (take result more.now) }
    ensures added { leaf.new.entries ≡ all_inserted (take result more.now) leaf.old.entries }
    ensures most { length leaf.new.entries ≤ 32 }
    ensures rising { IsRising leaf.new.entries }
    ensures same_room { leaf.new.value_room ≡ leaf.old.value_room }
    ensures room { ValuesHaveRoom leaf.new }
{
    let mut added = 0;
    'put: while added < more.len() {
        if !put_among(leaf, bound, &more[added]) {
            break;
        }
        added += 1;
    }
    prove!(leaf.len() <= 32);
    added
}

// Adds an entry after another of a leaf, where it goes below the bound, its place is free and there is room for it.
// Whether it did.
fn put_among(leaf: &mut RawLeaf, bound: Option<&Separator>, entry: &Entry) -> bool
    ensures put { HasPut leaf.old leaf.new (option_copied bound.entry) entry.now result }
    ensures same_room { leaf.new.value_room ≡ leaf.old.value_room }
{
    let len = leaf.len();
    if len == ROOM || !leaf.fits(entry.key.bytes().len(), entry.value.len()) {
        return false;
    }
    let Err(at) = leaf.find(entry.part, entry.key) else {
        return false;
    };
    if at == 0 || (at == len && !is_below(bound, entry)) {
        return false;
    }
    leaf.insert_at(at, *entry);
    true
}
