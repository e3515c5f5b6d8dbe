//! The tree as an index.

ghost use Rattle.std.specs.Prelude.{◌≡◌, ◌<◌, ◌^◌, [], IfOk};
ghost use Rattle.am_index.specs.Places.{only_of};

use crate::node::Subtree;
use crate::read::Start;
use am_index::{Batch, Hint, PLACES_AT_ONCE, PartIndex, RecordSource};
use am_record::{Entry, Key, NoMemory, Range, Value};
use std::alloc::Global;
use std::marker::Model;

/// An index that is a B-tree, seen as how deep its leaves stand, all of them alike, as its entries in order, and as the
/// places of those that have room for any value.
pub struct BTree {
    root: Subtree,
    alloc: Global,
}

// By hand: a crate above then need not prove once more how a tree is dropped.
impl Drop for BTree {
    fn drop(self) {
        let BTree { root, alloc: _ } = self;
        drop(root);
    }
}

impl Model for BTree {
    ghost use Rattle.am_index_btree.specs.Shape.{Shape, shape_code};

    ghost Value = { Shape };

    ghost coded = { shape_code };

    ghost view = { λ t. t.root };
}

impl BTree {
    /// A tree of one leaf with no entries, which takes its memory from the allocator from now on.
    ///
    /// # Errors
    /// NoMemory, where memory was refused.
    pub fn new(alloc: Global) -> Result<BTree, NoMemory>
        ensures { IfOk result (λ tree. (tree.depth ≡ 0) × (tree.entries ≡ [])) }
    {
        Ok(BTree {
            root: Subtree::new(alloc)?,
            alloc,
        })
    }

    /// How many inner nodes stand above the leaf in which the place is looked for. It is the same
    /// at every place: all leaves stand at one depth. (No memory holds a tree of depth 2^64.)
    pub fn depth_at(&self, part: u32, key: Key) -> usize
        ensures { self.now.depth < 2 ^ 64 → result ≡ self.now.depth }
    {
        self.root.depth_at(part, key)
    }

    /// How many inner nodes stand above each leaf.
    pub fn depth(&self) -> usize
        ensures { self.now.depth < 2 ^ 64 → result ≡ self.now.depth }
    {
        self.depth_at(0, Key::least())
    }
}

impl PartIndex for BTree {
    ghost entries = { λ t. t.entries };

    ghost roomy = { λ t. t.roomy };

    fn find(&self, part: u32, key: Key) -> Option<(Value, bool)> {
        self.root.look(part, key, Hint::none()).0
    }

    fn look(&self, part: u32, key: Key, hint: Hint) -> (Option<(Value, bool)>, Hint) {
        self.root.look(part, key, hint)
    }

    fn hints(&self, places: &[(u32, Key)]) -> [Hint; PLACES_AT_ONCE] {
        self.root.hints(places)
    }

    fn next_from(&self, part: u32, key: Key) -> Option<Entry> {
        of_part(self.root.first_from(part, key, Start::At), part)
    }

    fn after(&self, part: u32, key: Key) -> Option<Entry> {
        of_part(self.root.first_from(part, key, Start::Above), part)
    }

    fn read_from(&self, part: u32, key: Key, batch: &mut Batch) {
        self.root.read_on(part, key, Start::At, batch);
    }

    fn read_on(&self, part: u32, key: Key, batch: &mut Batch) {
        self.root.read_on(part, key, Start::Above, batch);
    }

    fn copy_rows(
        &self,
        part: u32,
        range: Range,
        max: u64,
        rows: &mut Vec<(Key, Value)>,
        hint: Hint,
    ) -> Result<(), NoMemory> {
        self.root.copy_rows(part, range, max, rows, hint)
    }

    fn copy_rows_back(
        &self,
        part: u32,
        range: Range,
        max: u64,
        rows: &mut Vec<(Key, Value)>,
        hint: Hint,
    ) -> Result<(), NoMemory> {
        self.root.copy_rows_back(part, range, max, rows, hint)
    }

    fn next_any(&self, part: u32, key: Key) -> Option<Entry> {
        self.root.first_from(part, key, Start::At)
    }

    fn next_ghost(&self, part: u32, key: Key) -> Option<Entry> {
        self.root.next_ghost(part, key)
    }

    fn insert(&mut self, entry: Entry, hint: Hint) -> Result<(), NoMemory> {
        self.root.insert(self.alloc, &entry, hint)
    }

    fn insert_among(&mut self, more: &[Entry]) -> usize {
        self.root.insert_among(None, more)
    }

    fn append_run<S: RecordSource>(&mut self, part: u32, records: &S) -> Result<(), NoMemory> {
        self.root.append(self.alloc, part, records)
    }

    fn make_room(&mut self, part: u32, key: Key, bytes: usize, hint: Hint) -> Result<(), NoMemory> {
        self.root.make_room(self.alloc, part, key, bytes, hint)
    }

    fn set(&mut self, part: u32, key: Key, value: Value, is_ghost: bool, hint: Hint) -> bool {
        self.root.set(part, key, value, is_ghost, hint)
    }

    fn remove(&mut self, part: u32, key: Key) -> Entry {
        let removed = self.root.remove(part, key, 1);
        self.root.collapse();
        removed.entry
    }

    fn remove_from(&mut self, part: u32, key: Key, most: usize) -> usize {
        let removed = self.root.remove(part, key, most);
        self.root.collapse();
        removed.count
    }
}

// The entry, where it is one of the partition.
fn of_part(entry: Option<Entry>, part: u32) -> Option<Entry>
    ensures { result ≡ only_of part entry }
{
    entry.filter(|e| e.part == part)
}
