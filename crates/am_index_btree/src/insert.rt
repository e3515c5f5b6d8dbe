//! Adding an entry.

ghost use Rattle.std.specs.Prelude.{◌≡◌, ◌+◌, ◌<◌, ◌≤◌, length, take, drop, None, Some, OnOk};
ghost use Rattle.std.specs.Prelude.{OnErr, IfOk, IfSome, vec_len, vec_capacity};
ghost use Rattle.std.specs.List.{insert};
ghost use Rattle.am_index.specs.Entries.{find, insert_entry, IsRising};
ghost use Rattle.am_index.specs.Places.{IsGapFor};
ghost use Rattle.am_record.specs.OrderedKey.{bytes_of};
ghost use Rattle.am_index_leaf.specs.LeafCode.{Fits, ValuesHaveRoom};
ghost use Rattle.am_index_btree.specs.InsertResults.{Grows, NowHolds, NowRoomed};
ghost use Rattle.am_index_btree.specs.Rooms.{KeepsRoom, IsWidened};
ghost use Rattle.am_index_btree.specs.Nodes.{all_entries, depth_of, leaf_shape, inner_shape, AreFilledChildren};
ghost use Rattle.am_index_btree.specs.Nodes.{IsInner};
ghost use Rattle.am_index_btree.specs.Ghosts.{marks_of};
ghost use Rattle.am_index_btree.specs.Splits.{lower_size};

use crate::ghosts::{mark, marks_of};
use crate::node::{Node, Subtree};
use crate::room::{ROOM, keep_of, put, split_put};
use crate::separator::Separator;
use crate::separators::Separators;
use crate::spare::{Spare, spares};
use am_index::Hint;
use am_index_leaf::{RawLeaf, insert_bit};
use am_record::{Entry, Key, NoMemory};
use std::alloc::Global;
use std::mem;

/// A new right sibling, where it begins, and the room that was got for the nodes above.
#[derive(Drop)]
pub(crate) struct Split {
    pub(crate) separator: Separator,
    pub(crate) right: Subtree,
    pub(crate) spares: Vec<Spare>,
}

impl Subtree {
    /// Adds an entry, whose place is free. Where the topmost node is split, a new one comes above it.
    pub(crate) fn insert(
        &mut self,
        alloc: Global,
        entry: &Entry,
        hint: Hint,
    ) -> Result<(), NoMemory>
        requires { find self.old.entries entry.now.part entry.now.key ≡ None }
        ensures ok { OnOk result (self.new.entries ≡ insert_entry self.old.entries entry.now) }
        ensures depth { OnOk result ((self.old.depth ≤ self.new.depth) × (self.new.depth ≤ self.old.depth + 1)) }
        ensures err { OnErr result (IsWidened self.old self.new) }
        ensures rooms { KeepsRoom self.old self.new }
    {
        // Read here, the node's invariant is known before it is changed.
        let _ = &self.node;
        // A topmost node that is split wants room for the one above it.
        let Some(split) = self.insert_below(alloc, entry, 1, hint)? else {
            return Ok(());
        };
        let Split {
            separator,
            right,
            mut spares,
        } = split;
        let Some(spare) = spares.pop() else {
            unreachable!()
        };
        let node = mem::replace(
            &mut self.node,
            Node::Inner(spare.separators, spare.children, 0),
        );
        let left = Subtree { node };
        let least = Separator {
            part: 0,
            key: Key::least(),
        };
        let Node::Inner(separators, children, marks) = &mut self.node else {
            unreachable!()
        };
        separators.put(0, least);
        separators.put(1, separator);
        put(children, 0, left);
        put(children, 1, right);
        *marks = marks_of(children);
        Ok(())
    }

    // Adds the entry below this node. Where the node is split, its new right
    // sibling comes back, with room for as many inner nodes as are wanted above it. All room is got
    // before anything changes but the room of a leaf, which may stay wide where more was refused.
    fn insert_below(
        &mut self,
        alloc: Global,
        entry: &Entry,
        wanted: usize,
        hint: Hint,
    ) -> Result<Option<Split>, NoMemory>
        requires { find self.old.entries entry.now.part entry.now.key ≡ None }
        ensures ok { IfOk result (Grows self.old self.new entry.now wanted) }
        ensures err { OnErr result (IsWidened self.old self.new) }
    {
        match &mut self.node {
            Node::Leaf(leaf) => insert_in_leaf(alloc, leaf, entry, wanted, hint),
            Node::Inner(separators, children, marks) => {
                let more = wanted_below(children.len(), wanted)?;
                let reach = separators.reached_near(hint.first(), entry.part, entry.key);
                let at = reach.saturating_sub(1);
                let child = &mut children[at];
                let grown = child.insert_below(alloc, entry, more, hint.rest())?;
                mark(marks, at, child);
                separators.lower(reach, entry);
                let Some(split) = grown else {
                    return Ok(None);
                };
                Ok(add_child(separators, children, marks, at + 1, split))
            }
        }
    }
}

// How many spare nodes a node's children are to get, where as many are wanted above the node.
fn wanted_below(len: usize, wanted: usize) -> Result<usize, NoMemory>
    ensures { IfOk result (λ n. len ≡ 32 → n ≡ wanted + 1) }
{
    if len < ROOM {
        return Ok(0);
    }
    // No memory holds a path of 2^64 full nodes.
    wanted.checked_add(1).ok_or(NoMemory)
}

// Adds an entry to a leaf. The leaf is split where it is full. A value that is too long for
// a short leaf widens it first, for good: an undo may bring back a long value that stood there, and takes no memory. A
// call of its own: so the nodes above don't clear room for what only a leaf needs.
#[inline(never)]
fn insert_in_leaf(
    alloc: Global,
    leaf: &mut RawLeaf,
    entry: &Entry,
    wanted: usize,
    hint: Hint,
) -> Result<Option<Split>, NoMemory>
    requires { find leaf.old.entries entry.now.part entry.now.key ≡ None }
    ensures ok { IfOk result (Grows (leaf_shape leaf.old) (leaf_shape leaf.new) entry.now wanted) }
    ensures err { OnErr result (leaf.new.entries ≡ leaf.old.entries) }
    ensures most { length leaf.new.entries ≤ 32 }
    ensures rising { IsRising leaf.new.entries }
    ensures no_less_room { leaf.old.value_room ≤ leaf.new.value_room }
    ensures room { ValuesHaveRoom leaf.new }
{
    if leaf.len() == ROOM && leaf.find(entry.part, entry.key) == Err(ROOM) {
        return Ok(Some(leaf_behind(alloc, leaf, entry, wanted)?));
    }
    let widened = leaf.widen(alloc, entry.key.bytes().len(), entry.value.len());
    prove!(leaf.len() <= 32);
    widened?;
    insert_fitting(alloc, leaf, entry, wanted, hint)
}

// A new leaf after a full one, which begins with the entry. It is as wide as that needs, since nothing else comes into
// it: so a long value widens its own leaf, and not those that a load fills after it.
fn leaf_behind(
    alloc: Global,
    leaf: &RawLeaf,
    entry: &Entry,
    wanted: usize,
) -> Result<Split, NoMemory>
    requires full { length leaf.now.entries ≡ 32 }
    requires behind { IsGapFor leaf.now.entries entry.now.part entry.now.key 32 }
    ensures { IfOk result (λ split. Grows (leaf_shape leaf.now) (leaf_shape leaf.now) entry.now wanted (Some split)) }
{
    prove!(leaf.len() <= 32);
    let mut right = RawLeaf::new(alloc, entry.key.bytes().len(), entry.value.len())?;
    right.insert_at(0, *entry);
    prove!(right.len() <= 32);
    Ok(Split {
        separator: Separator::of(entry),
        right: Subtree {
            node: Node::Leaf(right),
        },
        spares: spares(alloc, wanted)?,
    })
}

// Adds an entry that has room to a leaf. The leaf is split where it is full.
fn insert_fitting(
    alloc: Global,
    leaf: &mut RawLeaf,
    entry: &Entry,
    wanted: usize,
    hint: Hint,
) -> Result<Option<Split>, NoMemory>
    requires absent { find leaf.old.entries entry.now.part entry.now.key ≡ None }
    requires fits { Fits leaf.old (length (bytes_of entry.now.key)) (length entry.now.value) }
    ensures ok { IfOk result (Grows (leaf_shape leaf.old) (leaf_shape leaf.new) entry.now wanted) }
    ensures err { OnErr result (leaf.new.entries ≡ leaf.old.entries) }
    ensures most { length leaf.new.entries ≤ 32 }
    ensures rising { IsRising leaf.new.entries }
    ensures same_room { leaf.new.value_room ≡ leaf.old.value_room }
    ensures room { ValuesHaveRoom leaf.new }
{
    let len = leaf.len();
    let Err(at) = leaf.find_near(hint.first(), entry.part, entry.key) else {
        unreachable!()
    };
    if len < ROOM {
        leaf.insert_at(at, *entry);
        prove!(leaf.len() <= 32);
        return Ok(None);
    }
    let spares = spares(alloc, wanted)?;
    let split = split_insert(alloc, leaf, keep_of(at), at, entry);
    prove!(leaf.len() <= 32);
    let upper = split?;
    prove!(upper.len() <= 32);
    let separator = Separator::of(&upper.get(0));
    let right = Subtree {
        node: Node::Leaf(upper),
    };
    Ok(Some(Split {
        separator,
        right,
        spares,
    }))
}

// Puts an entry at the index of a full leaf, the upper part of which goes to a new one. What fits the leaf fits that.
fn split_insert(
    alloc: Global,
    leaf: &mut RawLeaf,
    keep: usize,
    at: usize,
    entry: &Entry,
) -> Result<RawLeaf, NoMemory>
    requires full { length leaf.old.entries ≡ 32 }
    requires place { IsGapFor leaf.old.entries entry.now.part entry.now.key at }
    requires keeps { (0 < keep) × (keep ≤ 32) }
    requires room { at < keep → keep < 32 }
    requires fits { Fits leaf.old (length (bytes_of entry.now.key)) (length entry.now.value) }
    ensures front { OnOk result (leaf.new.entries ≡ take (lower_size keep at) (insert leaf.old.entries at entry.now)) }
    ensures back { IfOk result (λ upper. upper.entries ≡
        drop (lower_size keep at) (insert leaf.old.entries at entry.now)) }
    ensures err { OnErr result (leaf.new.entries ≡ leaf.old.entries) }
    ensures room { leaf.new.value_room ≡ leaf.old.value_room }
    ensures upper_room { IfOk result (λ upper. upper.value_room ≡ leaf.old.value_room) }
{
    let mut upper = leaf.split_off(alloc, keep)?;
    if at < keep {
        leaf.insert_at(at, *entry);
        return Ok(upper);
    }
    upper.insert_at(at - keep, *entry);
    Ok(upper)
}

// Adds a child, and splits the node where it is full.
#[inline(never)]
fn add_child(
    separators: &mut Separators,
    children: &mut Vec<Subtree>,
    marks: &mut u32,
    at: usize,
    split: Split,
) -> Option<Split>
    requires children { AreFilledChildren (depth_of children.old.items)
        (insert separators.old at split.separator) (insert children.old.items at split.right) }
    requires pairs { length separators.old ≡ vec_len children.old }
    requires in_range { at ≤ vec_len children.old }
    requires most { vec_len children.old ≤ 32 }
    requires room { 32 ≤ vec_capacity children.old }
    requires marked { marks.old ≡ marks_of children.old.items }
    requires spares { vec_len children.old ≡ 32 → 0 < vec_len split.spares }
    ensures inner { IsInner separators.new children.new.items (vec_capacity children.new) }
    ensures marked { marks.new ≡ marks_of children.new.items }
    ensures holds { NowHolds (depth_of children.old.items) (all_entries (insert children.old.items at split.right))
        (inner_shape children.new.items) result }
    ensures rooms { NowRoomed (inner_shape (insert children.old.items at split.right))
        (inner_shape children.new.items) result }
    ensures spares { IfSome result (λ s. (vec_len children.old ≡ 32) × (vec_len s.spares + 1 ≡ vec_len split.spares)) }
{
    let Split {
        separator,
        right,
        mut spares,
    } = split;
    if children.len() < ROOM {
        *marks = insert_bit(*marks, at, right.has_ghost());
        separators.put(at, separator);
        put(children, at, right);
        return None;
    }
    let Some(spare) = spares.pop() else {
        unreachable!()
    };
    let mut upper_separators = spare.separators;
    let mut upper_children = spare.children;
    let keep = keep_of(at);
    separators.split_put(keep, at, separator, &mut upper_separators);
    split_put(children, keep, at, right, &mut upper_children);
    *marks = marks_of(children);
    let upper_marks = marks_of(&upper_children);
    let first = upper_separators.get(0);
    Some(Split {
        separator: first,
        right: Subtree {
            node: Node::Inner(upper_separators, upper_children, upper_marks),
        },
        spares,
    })
}
