//! The nodes of a tree.

ghost use Rattle.std.specs.Prelude.{◌≡◌, [], IfOk};

use crate::separators::Separators;
use am_index_leaf::RawLeaf;
use am_record::NoMemory;
use std::alloc::Global;
use std::marker::Model;

/// A subtree, seen as how deep its leaves stand, as its entries in order, and as the places of those that have room for
/// any value.
#[cycle(tree)]
#[derive(Drop)]
pub(crate) struct Subtree {
    pub(crate) node: Node,
}

/// Its topmost node.
#[cycle(tree)]
#[derive(Drop)]
pub(crate) enum Node {
    Leaf(RawLeaf),
    /// The children, with the place at which each begins, and a word with a bit for each, which says whether an entry
    /// below it is a ghost.
    Inner(Separators, Vec<Subtree>, u32),
}

impl Model for Subtree {
    ghost use Rattle.am_index_btree.specs.Shape.{Shape, shape_code};

    ghost Value = { Shape };

    ghost coded = { shape_code };

    ghost use Rattle.am_index_btree.specs.Nodes.{shape_of, IsTree};

    ghost view = { λ a. shape_of a.node };

    ghost invariant = { λ a. IsTree a.node };

    ghost size = { λ s. s.depth };

    ghost use Rattle.am_index_btree.specs.NodesFall.{deep_le-depth};

    ghost size_decreases = { λ a h. deep_le-depth a.node };
}

impl Subtree {
    /// One leaf with no entries. It is short, since values mostly are. A longer one widens the leaf that it comes to.
    pub(crate) fn new(alloc: Global) -> Result<Subtree, NoMemory>
        ensures { IfOk result (λ tree. (tree.depth ≡ 0) × (tree.entries ≡ [])) }
    {
        let leaf = RawLeaf::new(alloc, 0, 0)?;
        // Asked here, its room is known.
        prove!(leaf.len() <= 32);
        Ok(Subtree {
            node: Node::Leaf(leaf),
        })
    }
}
