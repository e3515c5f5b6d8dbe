//! Writing over an entry.

ghost use Rattle.std.specs.Prelude.{◌≡◌, ◌≤◌, IsSome, is_some, length};
ghost use Rattle.am_index.specs.Entries.{find, set_entry, IsRising};
ghost use Rattle.am_index.specs.Content.{live_value};
ghost use Rattle.am_index.specs.Rooms.{HasRoom};
ghost use Rattle.am_index_leaf.specs.LeafCode.{ValuesHaveRoom};
ghost use Rattle.am_index_btree.specs.Rooms.{KeepsRoom};

use crate::ghosts::mark;
use crate::node::{Node, Subtree};
use am_index::Hint;
use am_index_leaf::RawLeaf;
use am_record::{Key, Value};

impl Subtree {
    /// Writes over the value and the ghost bit of the entry of a present place, where the value has room. Whether it
    /// was live.
    pub(crate) fn set(
        &mut self,
        part: u32,
        key: Key,
        value: Value,
        is_ghost: bool,
        hint: Hint,
    ) -> bool
        requires present { IsSome (find self.old.entries part key) }
        requires room { HasRoom self.old.roomy part key (length value) }
        ensures was_live { result ≡ is_some (live_value (find self.old.entries part key)) }
        ensures entries { self.new.entries ≡ set_entry self.old.entries part key value is_ghost }
        ensures depth { self.new.depth ≡ self.old.depth }
        ensures rooms { KeepsRoom self.old self.new }
    {
        prove!(value.len() <= 64);
        match &mut self.node {
            Node::Leaf(leaf) => set_in_leaf(leaf, part, key, value, is_ghost, hint),
            Node::Inner(separators, children, marks) => {
                let at = separators.child_near(hint.first(), part, key);
                let child = &mut children[at];
                let was_live = child.set(part, key, value, is_ghost, hint.rest());
                mark(marks, at, child);
                was_live
            }
        }
    }
}

// Writes over the entry of a present place of a leaf. Whether it was live.
fn set_in_leaf(
    leaf: &mut RawLeaf,
    part: u32,
    key: Key,
    value: Value,
    is_ghost: bool,
    hint: Hint,
) -> bool
    requires stands { IsSome (find leaf.old.entries part key) }
    requires fits { length value ≤ leaf.old.value_room }
    ensures was_live { result ≡ is_some (live_value (find leaf.old.entries part key)) }
    ensures entries { leaf.new.entries ≡ set_entry leaf.old.entries part key value is_ghost }
    ensures rising { IsRising leaf.new.entries }
    ensures same_room { leaf.new.value_room ≡ leaf.old.value_room }
    ensures room { ValuesHaveRoom leaf.new }
{
    let Ok(at) = leaf.find_near(hint.first(), part, key) else {
        unreachable!()
    };
    let was_live = !leaf.is_ghost(at);
    leaf.set_at(at, value, is_ghost);
    prove!(leaf.len() <= 32);
    was_live
}
