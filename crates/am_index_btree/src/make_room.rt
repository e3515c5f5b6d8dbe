//! Getting room for a longer value.

ghost use Rattle.am_record.specs.Limits.{max_value_bytes};
ghost use Rattle.std.specs.Prelude.{◌≡◌, ◌≤◌, IsSome, OnOk, OnErr};
ghost use Rattle.am_index.specs.Entries.{find};
ghost use Rattle.am_index.specs.Rooms.{HasRoom};
ghost use Rattle.am_index_leaf.specs.LeafCode.{ValuesHaveRoom};
ghost use Rattle.am_index_btree.specs.Nodes.{leaf_roomy};
ghost use Rattle.am_index_btree.specs.Rooms.{IsWidened};

use crate::node::{Node, Subtree};
use am_index::Hint;
use am_index_leaf::RawLeaf;
use am_record::{Key, NoMemory, SHORT_LEN};
use std::alloc::Global;

impl Subtree {
    /// Gets room for a value of so many bytes at the entry of a present place.
    ///
    /// # Errors
    /// NoMemory, where such a value had no room there and memory was refused.
    pub(crate) fn make_room(
        &mut self,
        alloc: Global,
        part: u32,
        key: Key,
        bytes: usize,
        hint: Hint,
    ) -> Result<(), NoMemory>
        requires present { IsSome (find self.old.entries part key) }
        requires most { bytes ≤ max_value_bytes }
        ensures ok { OnOk result (HasRoom self.new.roomy part key bytes) }
        ensures full { OnErr result (¬ HasRoom self.old.roomy part key bytes) }
        ensures widened { IsWidened self.old self.new }
    {
        // Read here, the node's invariant is known before it is changed.
        let _ = &self.node;
        // So much has room in each leaf.
        if bytes <= SHORT_LEN {
            return Ok(());
        }
        self.widen_below(alloc, part, key, bytes, hint)
    }

    // Gets the room in the leaf of the place, below this node.
    fn widen_below(
        &mut self,
        alloc: Global,
        part: u32,
        key: Key,
        bytes: usize,
        hint: Hint,
    ) -> Result<(), NoMemory>
        requires present { IsSome (find self.old.entries part key) }
        requires most { bytes ≤ max_value_bytes }
        ensures ok { OnOk result (HasRoom self.new.roomy part key bytes) }
        ensures full { OnErr result (¬ HasRoom self.old.roomy part key bytes) }
        ensures widened { IsWidened self.old self.new }
    {
        match &mut self.node {
            Node::Leaf(leaf) => widen_leaf(alloc, leaf, part, key, bytes),
            Node::Inner(separators, children, _) => {
                let at = separators.child_near(hint.first(), part, key);
                children[at].widen_below(alloc, part, key, bytes, hint.rest())
            }
        }
    }
}

// Gets room for values of so many bytes in a leaf, for all of its entries at once. There is as much for keys as before.
fn widen_leaf(
    alloc: Global,
    leaf: &mut RawLeaf,
    part: u32,
    key: Key,
    bytes: usize,
) -> Result<(), NoMemory>
    requires present { IsSome (find leaf.old.entries part key) }
    requires most { bytes ≤ max_value_bytes }
    ensures ok { OnOk result (HasRoom (leaf_roomy leaf.new) part key bytes) }
    ensures full { OnErr result (¬ HasRoom (leaf_roomy leaf.old) part key bytes) }
    ensures entries { leaf.new.entries ≡ leaf.old.entries }
    ensures no_less_room { leaf.old.value_room ≤ leaf.new.value_room }
    ensures room { ValuesHaveRoom leaf.new }
{
    prove!(leaf.len() <= 32);
    let widened = leaf.widen(alloc, 0, bytes);
    prove!(leaf.len() <= 32);
    widened
}
