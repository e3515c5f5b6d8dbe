//! Filling the last leaf.

ghost use Rattle.std.specs.Prelude.{◌≡◌, ◌+◌, ◌<◌, ◌≤◌, ◌++◌, length, take, drop};
ghost use Rattle.am_index.specs.Entries.{IsRising};
ghost use Rattle.am_index.specs.Runs.{run_entries};
ghost use Rattle.am_index_leaf.specs.LeafCode.{ValuesHaveRoom};
ghost use Rattle.am_index_btree.specs.Rooms.{KeepsRoom};

use crate::node::{Node, Subtree};
use crate::portion::Portion;
use crate::room::ROOM;
use am_index::RecordSource;
use am_index_leaf::RawLeaf;
use std::alloc::Global;

impl Subtree {
    /// Puts the records from the place on, all live, after all entries: as many as the last leaf has room for. Says how
    /// many. (Where there is no entry, the records may belong below a separator that was left.)
    pub(crate) fn fill_last<S: RecordSource>(
        &mut self,
        alloc: Global,
        part: u32,
        records: &S,
        from: usize,
        portion: &mut Portion,
    ) -> usize
        requires from { from ≤ length (S.records records.now) }
        requires some { 0 < length self.old.entries }
        requires rising { IsRising (self.old.entries ++ run_entries part (drop from (S.records records.now))) }
        ensures most { from + result ≤ length (S.records records.now) }
        ensures entries { self.new.entries
            ≡ self.old.entries ++ run_entries part (take result (drop from (S.records records.now))) }
        ensures depth { self.new.depth ≡ self.old.depth }
        ensures rooms { KeepsRoom self.old self.new }
    {
        match &mut self.node {
            Node::Leaf(leaf) => fill_leaf(alloc, leaf, part, records, from, portion),
            Node::Inner(_, children, _) => {
                let last = children.len() - 1;
                children[last].fill_last(alloc, part, records, from, portion)
            }
        }
    }
}

// Puts the records from the place on after a leaf's entries, as many as it has room for; none where memory for longer
// keys or values was refused. The longest one says how wide the leaf gets, so a run of short values fills short leaves.
fn fill_leaf<S: RecordSource>(
    alloc: Global,
    leaf: &mut RawLeaf,
    part: u32,
    records: &S,
    from: usize,
    portion: &mut Portion,
) -> usize
    requires from { from ≤ length (S.records records.now) }
    requires rising { IsRising (leaf.old.entries ++ run_entries part (drop from (S.records records.now))) }
    ensures count { from + result ≤ length (S.records records.now) }
    ensures entries { leaf.new.entries
        ≡ leaf.old.entries ++ run_entries part (take result (drop from (S.records records.now))) }
    ensures most { length leaf.new.entries ≤ 32 }
    ensures no_less_room { leaf.old.value_room ≤ leaf.new.value_room }
    ensures room { ValuesHaveRoom leaf.new }
{
    let count = (records.len() - from).min(ROOM - leaf.len());
    portion.read(records, from, from + count);
    let added = leaf.append(alloc, part, portion.records());
    prove!(leaf.len() <= 32);
    if added.is_err() { 0 } else { count }
}
