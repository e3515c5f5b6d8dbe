//! Walks from a place on.

ghost use Rattle.std.specs.Prelude.{◌≡◌, ◌<◌, ◌≤◌, ◌++◌, length, take, reverse, slice_get, OnOk, OnErr, vec_capacity};
ghost use Rattle.std.specs.Prelude.{option_copied};
ghost use Rattle.am_index.specs.Entries.{IsRising};
ghost use Rattle.am_index.specs.Content.{rows_in};
ghost use Rattle.am_index.specs.Places.{IsLowerBound, IsUpperBound};
ghost use Rattle.am_index_btree.specs.Rooms.{IsRoomed};
ghost use Rattle.am_index_btree.specs.Seek.{first_from, first_wanted, all_such, IsStart, IsIndexFrom, IsChildFrom};
ghost use Rattle.am_index_btree.specs.Separators.{SeparatorsRise};
ghost use Rattle.am_index_btree.specs.declared.read.Wanted.TheVariants.{Any};

use crate::node::{Node, Subtree};
use crate::separators::Separators;
use am_index::{Batch, Hint};
use am_index_leaf::RawLeaf;
use am_record::{Entry, Key, NoMemory, Range, Value};

// For how many rows room is got at once, where the rows of a range may go on after a leaf: those of four.
const ROWS_AHEAD: usize = 128;

/// Where a walk begins.
#[derive(Clone, Copy)]
pub(crate) enum Start {
    /// With the entry of the place, where there is one.
    At,
    /// Strictly above the place.
    Above,
}

/// Which entries are looked for.
#[derive(Clone, Copy)]
pub(crate) enum Wanted {
    Any,
    Ghost,
}

/// The place with which a walk over all partitions begins.
#[derive(Clone, Copy)]
pub(crate) struct Beginning {
    pub(crate) part: u32,
    pub(crate) key: Key,
    pub(crate) start: Start,
}

impl Subtree {
    /// The first entry from the place on, of any partition.
    pub(crate) fn first_from(&self, part: u32, key: Key, start: Start) -> Option<Entry>
        ensures found { result ≡ first_from start Any self.now.entries part key }
        ensures rising { IsRising self.now.entries }
        ensures roomed { IsRoomed self.now }
    {
        // Read here, the node's invariant is known.
        let _ = &self.node;
        self.seek(Some(&Beginning { part, key, start }))
    }

    // The first entry from there on or of all. It goes down to the place once, and then from leaf to leaf.
    fn seek(&self, from: Option<&Beginning>) -> Option<Entry>
        ensures found { result ≡ first_wanted Any (option_copied from.entry) self.now.entries }
        ensures rising { IsRising self.now.entries }
    {
        match &self.node {
            Node::Leaf(leaf) => seek_in_leaf(leaf, from, Wanted::Any),
            Node::Inner(separators, children, _) => {
                let mut from = from;
                for child in &children[child_from(separators, from)..] {
                    if let Some(entry) = child.seek(from) {
                        return Some(entry);
                    }
                    // The later children stand behind the place.
                    from = None;
                }
                None
            }
        }
    }

    /// Appends the entries of the partition from the place on, as many as the batch has room for.
    pub(crate) fn read_on(&self, part: u32, key: Key, start: Start, batch: &mut Batch)
        ensures read { batch.new ≡ take 16 (batch.old ++ all_such start self.now.entries part key) }
        ensures rising { IsRising self.now.entries }
    {
        match &self.node {
            Node::Leaf(leaf) => read_on_in_leaf(leaf, part, key, start, batch),
            Node::Inner(separators, children, _) => {
                prove!(batch.entries().len() <= 16);
                for at in separators.child_for(part, key)..children.len() {
                    if batch.is_full() || separators.get(at).part > part {
                        return;
                    }
                    children[at].read_on(part, key, start, batch);
                }
            }
        }
    }

    /// Appends the live records of the partition in the range, until there are `max` rows. It goes down once, and then
    /// from leaf to leaf.
    ///
    /// # Errors
    /// NoMemory, where memory was refused.
    pub(crate) fn copy_rows(
        &self,
        part: u32,
        range: Range,
        max: u64,
        rows: &mut Vec<(Key, Value)>,
        hint: Hint,
    ) -> Result<(), NoMemory>
        requires { length rows.old.items ≤ max }
        ensures copied { OnOk result (rows.new.items ≡ take max
            (rows.old.items ++ rows_in self.now.entries part range)) }
        ensures room { vec_capacity rows.old ≤ vec_capacity rows.new }
        ensures full { OnErr result (vec_capacity rows.old < max) }
        ensures rising { IsRising self.now.entries }
    {
        match &self.node {
            Node::Leaf(leaf) => copy_rows_in_leaf(leaf, part, range, max, rows, hint),
            Node::Inner(separators, children, _) => {
                for at in separators.child_near(hint.first(), part, range.lo())..children.len() {
                    if rows.len() as u64 >= max
                        || !separators.get(at).is_reached(part, range.hi())
                    {
                        return Ok(());
                    }
                    children[at].copy_rows(part, range, max, rows, hint.rest())?;
                }
                Ok(())
            }
        }
    }

    /// Appends the live records of the partition in the range, from the highest key down, until there are `max` rows.
    /// It goes down once, and then from leaf to leaf.
    ///
    /// # Errors
    /// NoMemory, where memory was refused.
    pub(crate) fn copy_rows_back(
        &self,
        part: u32,
        range: Range,
        max: u64,
        rows: &mut Vec<(Key, Value)>,
        hint: Hint,
    ) -> Result<(), NoMemory>
        requires { length rows.old.items ≤ max }
        ensures copied { OnOk result (rows.new.items ≡ take max
            (rows.old.items ++ reverse (rows_in self.now.entries part range))) }
        ensures room { vec_capacity rows.old ≤ vec_capacity rows.new }
        ensures full { OnErr result (vec_capacity rows.old < max) }
        ensures rising { IsRising self.now.entries }
    {
        match &self.node {
            Node::Leaf(leaf) => copy_rows_back_in_leaf(leaf, part, range, max, rows, hint),
            Node::Inner(separators, children, _) => {
                let end = separators.child_near(hint.first(), part, range.hi()) + 1;
                for at in (0..end).rev() {
                    children[at].copy_rows_back(part, range, max, rows, hint.rest())?;
                    if rows.len() as u64 >= max || separators.get(at).is_reached(part, range.lo()) {
                        return Ok(());
                    }
                }
                Ok(())
            }
        }
    }
}

// The entry of the leaf at the index, if there is one.
fn entry_at(leaf: &RawLeaf, at: usize) -> Option<Entry>
    ensures { result ≡ slice_get leaf.now.entries at }
{
    if at < leaf.len() {
        Some(leaf.get(at))
    } else {
        None
    }
}

// Where a walk over the leaf begins.
fn start_in_leaf(leaf: &RawLeaf, part: u32, key: Key, start: Start, hint: Hint) -> usize
    ensures begins { IsStart start leaf.now.entries part key result }
    ensures rising { IsRising leaf.now.entries }
{
    // Asked here, an entry's index is known to have a next one.
    prove!(leaf.len() <= 32);
    match leaf.find_near(hint.first(), part, key) {
        Ok(at) => match start {
            Start::At => at,
            Start::Above => at + 1,
        },
        Err(at) => at,
    }
}

// Where a walk over the leaf ends that goes no further than the place. The last entry is asked first, since most leaves
// end before the end of a range.
fn end_in_leaf(leaf: &RawLeaf, part: u32, key: Key, hint: Hint) -> usize
    ensures ends { IsUpperBound leaf.now.entries part key result }
    ensures rising { IsRising leaf.now.entries }
{
    let len = leaf.len();
    if len > 0 && leaf.cmp_at(len - 1, part, key).is_le() {
        return len;
    }
    start_in_leaf(leaf, part, key, Start::Above, hint)
}

// Where a walk from the leaf's end ends that goes no further down than the place. The first entry is asked first, since
// most leaves begin after the start of a range.
fn end_back_in_leaf(leaf: &RawLeaf, part: u32, key: Key) -> usize
    ensures ends { IsLowerBound leaf.now.entries part key result }
    ensures rising { IsRising leaf.now.entries }
{
    if leaf.len() > 0 && leaf.cmp_at(0, part, key).is_ge() {
        return 0;
    }
    start_in_leaf(leaf, part, key, Start::At, Hint::none())
}

/// The child with which a walk begins.
pub(crate) fn child_from(separators: &Separators, from: Option<&Beginning>) -> usize
    requires rising { SeparatorsRise separators.now }
    requires some { 0 < length separators.now }
    ensures { IsChildFrom (option_copied from.entry) separators.now result }
{
    match from {
        Some(from) => separators.child_for(from.part, from.key),
        None => 0,
    }
}

// The index in the leaf with which a walk begins.
fn index_from(leaf: &RawLeaf, from: Option<&Beginning>) -> usize
    ensures begins { IsIndexFrom (option_copied from.entry) leaf.now.entries result }
    ensures rising { IsRising leaf.now.entries }
{
    // Asked here, the order of its entries is known.
    prove!(leaf.len() <= 32);
    match from {
        Some(from) => start_in_leaf(leaf, from.part, from.key, from.start, Hint::none()),
        None => 0,
    }
}

/// The first entry of the leaf that is wanted, from there on or of all.
pub(crate) fn seek_in_leaf(
    leaf: &RawLeaf,
    from: Option<&Beginning>,
    wanted: Wanted,
) -> Option<Entry>
    ensures found { result ≡ first_wanted wanted (option_copied from.entry) leaf.now.entries }
    ensures rising { IsRising leaf.now.entries }
{
    let at = index_from(leaf, from);
    match wanted {
        Wanted::Any => entry_at(leaf, at),
        Wanted::Ghost => leaf.ghost_from(at),
    }
}

// Appends the entries of the partition of a leaf, as many as the batch has room for.
fn read_on_in_leaf(leaf: &RawLeaf, part: u32, key: Key, start: Start, batch: &mut Batch)
    ensures read { batch.new ≡ take 16 (batch.old ++ all_such start leaf.now.entries part key) }
    ensures rising { IsRising leaf.now.entries }
{
    prove!(batch.entries().len() <= 16);
    for at in start_in_leaf(leaf, part, key, start, Hint::none())..leaf.len() {
        if batch.is_full() {
            return;
        }
        let entry = leaf.get(at);
        if entry.part != part {
            return;
        }
        batch.push(entry);
    }
}

// Appends the live records of a leaf's partition in the range, until there are `max` rows. The range may go on after
// the leaf.
fn copy_rows_in_leaf(
    leaf: &RawLeaf,
    part: u32,
    range: Range,
    max: u64,
    rows: &mut Vec<(Key, Value)>,
    hint: Hint,
) -> Result<(), NoMemory>
    requires { length rows.old.items ≤ max }
    ensures copied { OnOk result (rows.new.items ≡ take max (rows.old.items ++ rows_in leaf.now.entries part range)) }
    ensures room { vec_capacity rows.old ≤ vec_capacity rows.new }
    ensures full { OnErr result (vec_capacity rows.old < max) }
    ensures rising { IsRising leaf.now.entries }
{
    let from = start_in_leaf(leaf, part, range.lo(), Start::At, hint);
    let to = end_in_leaf(leaf, part, range.hi(), Hint::none());
    reserve_rows(rows, max, to.saturating_sub(from), to == leaf.len())?;
    for at in from..to {
        if rows.len() as u64 >= max {
            return Ok(());
        }
        if !leaf.is_ghost(at) {
            rows.push(leaf.record(at))?;
        }
    }
    Ok(())
}

// The same from the highest key down. The range may go on before the leaf.
fn copy_rows_back_in_leaf(
    leaf: &RawLeaf,
    part: u32,
    range: Range,
    max: u64,
    rows: &mut Vec<(Key, Value)>,
    hint: Hint,
) -> Result<(), NoMemory>
    requires { length rows.old.items ≤ max }
    ensures copied { OnOk result (rows.new.items ≡ take max
        (rows.old.items ++ reverse (rows_in leaf.now.entries part range))) }
    ensures room { vec_capacity rows.old ≤ vec_capacity rows.new }
    ensures full { OnErr result (vec_capacity rows.old < max) }
    ensures rising { IsRising leaf.now.entries }
{
    let from = end_back_in_leaf(leaf, part, range.lo());
    let to = end_in_leaf(leaf, part, range.hi(), hint);
    reserve_rows(rows, max, to.saturating_sub(from), from == 0)?;
    for at in (from..to).rev() {
        if rows.len() as u64 >= max {
            return Ok(());
        }
        if !leaf.is_ghost(at) {
            rows.push(leaf.record(at))?;
        }
    }
    Ok(())
}

// Gets room for so many rows of a leaf, where no more than `max` are wanted. Where the range may go on in the next
// leaf, it is room for rows of the next ones.
fn reserve_rows(
    rows: &mut Vec<(Key, Value)>,
    max: u64,
    found: usize,
    goes_on: bool,
) -> Result<(), NoMemory>
    requires { length rows.old.items ≤ max }
    ensures same { rows.new.items ≡ rows.old.items }
    ensures room { vec_capacity rows.old ≤ vec_capacity rows.new }
    ensures full { OnErr result (vec_capacity rows.old < max) }
{
    let wanted = max.saturating_sub(rows.len() as u64) as usize;
    let ahead = if goes_on { ROWS_AHEAD } else { found };
    rows.reserve(ahead.min(wanted))?;
    Ok(())
}
