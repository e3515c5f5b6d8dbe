//! Taking entries out.

ghost use Rattle.std.specs.Prelude.{◌≡◌, ◌+◌, ◌<◌, ◌≤◌, ◌++◌, [], length, take, drop, Some, IsSome, MatchBool};
ghost use Rattle.am_index.specs.Entries.{find, entry_at, remove_from, IsRising};
ghost use Rattle.am_index_leaf.specs.LeafCode.{ValuesHaveRoom};
ghost use Rattle.am_index_btree.specs.Rooms.{KeepsRoom};

use crate::ghosts::mark;
use crate::node::{Node, Subtree};
use crate::room::take_out;
use am_index_leaf::{RawLeaf, remove_bit};
use am_record::{Entry, Key};

/// The first entry that was taken out, how many were, and whether none is left below the node.
#[derive(Drop)]
pub(crate) struct Removed {
    pub(crate) entry: Entry,
    pub(crate) count: usize,
    pub(crate) is_empty: bool,
}

impl Subtree {
    /// Takes the entry of a present place out, and with it those that follow it in its leaf, `most` in all at most. A
    /// child that became empty is freed, unless it is the only one.
    pub(crate) fn remove(&mut self, part: u32, key: Key, most: usize) -> Removed
        requires present { IsSome (find self.old.entries part key) }
        requires some { 1 ≤ most }
        ensures entry { entry_at self.old.entries part key ≡ Some result.entry }
        ensures some { 1 ≤ result.count }
        ensures most { result.count ≤ most }
        ensures counted { length self.new.entries + result.count ≡ length self.old.entries }
        ensures others { self.new.entries ≡ remove_from self.old.entries part key result.count }
        ensures depth { self.new.depth ≡ self.old.depth }
        ensures rooms { KeepsRoom self.old self.new }
        ensures empty { MatchBool result.is_empty (self.new.entries ≡ []) (0 < length self.new.entries) }
    {
        match &mut self.node {
            Node::Leaf(leaf) => remove_from_leaf(leaf, part, key, most),
            Node::Inner(separators, children, marks) => {
                let at = separators.child_for(part, key);
                let child = &mut children[at];
                let removed = child.remove(part, key, most);
                mark(marks, at, child);
                if !removed.is_empty || children.len() == 1 {
                    return removed;
                }
                separators.take_out(at);
                take_out(children, at);
                *marks = remove_bit(*marks, at);
                Removed {
                    entry: removed.entry,
                    count: removed.count,
                    is_empty: false,
                }
            }
        }
    }

    /// Frees the topmost nodes that have one child alone.
    pub(crate) fn collapse(&mut self)
        ensures entries { self.new.entries ≡ self.old.entries }
        ensures roomy { self.new.roomy ≡ self.old.roomy }
        ensures depth { self.new.depth ≤ self.old.depth }
    {
        let Node::Inner(_, children, _) = &mut self.node else {
            return;
        };
        if children.len() > 1 {
            return;
        }
        let Some(Subtree { node }) = children.pop() else {
            unreachable!()
        };
        self.node = node;
        self.collapse();
    }
}

// Takes the entry of a present place out of a leaf, and with it those that follow it, `most` in all at most.
fn remove_from_leaf(leaf: &mut RawLeaf, part: u32, key: Key, most: usize) -> Removed
    requires present { IsSome (find leaf.old.entries part key) }
    requires some { 1 ≤ most }
    ensures entry { entry_at leaf.old.entries part key ≡ Some result.entry }
    ensures some { 1 ≤ result.count }
    ensures most { result.count ≤ most }
    ensures counted { length leaf.new.entries + result.count ≡ length leaf.old.entries }
    ensures others { leaf.new.entries ≡ remove_from leaf.old.entries part key result.count }
    ensures rising { IsRising leaf.new.entries }
    ensures same_room { leaf.new.value_room ≡ leaf.old.value_room }
    ensures room { ValuesHaveRoom leaf.new }
    ensures short { length leaf.new.entries ≤ 32 }
    ensures empty { MatchBool result.is_empty (leaf.new.entries ≡ []) (0 < length leaf.new.entries) }
{
    let Ok(at) = leaf.find(part, key) else {
        unreachable!()
    };
    let entry = leaf.get(at);
    let count = most.min(leaf.len() - at);
    cut(leaf, at, at + count);
    Removed {
        entry,
        count,
        is_empty: leaf.len() == 0,
    }
}

// Takes the entries from one index up to another out. The last one goes first, so that only those after it are moved.
fn cut(leaf: &mut RawLeaf, from: usize, to: usize)
    requires ordered { from ≤ to }
    requires in_range { to ≤ length leaf.old.entries }
    ensures entries { leaf.new.entries ≡ take from leaf.old.entries ++ drop to leaf.old.entries }
    ensures same_room { leaf.new.value_room ≡ leaf.old.value_room }
{
    let mut at = to;
    while at > from {
        at -= 1;
        leaf.remove_at(at);
    }
}
