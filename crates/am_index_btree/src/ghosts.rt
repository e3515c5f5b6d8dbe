//! Where ghosts are.

ghost use Rattle.std.specs.Prelude.{◌≡◌, ◌<◌, ◌≤◌, length, option_copied};
ghost use Rattle.am_index.specs.Entries.{IsRising};
ghost use Rattle.am_index_leaf.specs.Bits.{changed_bit};
ghost use Rattle.am_index_leaf.specs.Ghosts.{has_ghost};
ghost use Rattle.am_index_btree.specs.Ghosts.{marks_of};
ghost use Rattle.am_index_btree.specs.Rooms.{IsRoomed};
ghost use Rattle.am_index_btree.specs.Seek.{first_from, first_wanted};
ghost use Rattle.am_index_btree.specs.declared.read.Start.TheVariants.{At};
ghost use Rattle.am_index_btree.specs.declared.read.Wanted.TheVariants.{Ghost};

use crate::node::{Node, Subtree};
use crate::read::{Beginning, Start, Wanted, child_from, seek_in_leaf};
use am_index_leaf::{change_bit, has_bit, next_bit};
use am_record::{Entry, Key};

impl Subtree {
    /// Whether an entry below the node is a ghost.
    pub(crate) fn has_ghost(&self) -> bool
        ensures { result ≡ has_ghost self.now.entries }
    {
        match &self.node {
            Node::Leaf(leaf) => leaf.has_ghost(),
            Node::Inner(_, _, marks) => *marks != 0,
        }
    }

    /// The first ghost from the place on, of any partition.
    pub(crate) fn next_ghost(&self, part: u32, key: Key) -> Option<Entry>
        ensures found { result ≡ first_from At Ghost self.now.entries part key }
        ensures rising { IsRising self.now.entries }
        ensures roomed { IsRoomed self.now }
    {
        // Read here, the node's invariant is known.
        let _ = &self.node;
        let start = Start::At;
        self.ghost_from(Some(&Beginning { part, key, start }))
    }

    // The first ghost from there on or of all. It goes down to the place, where there is a ghost below each node of the
    // way, and else to the first child behind it that has one.
    fn ghost_from(&self, from: Option<&Beginning>) -> Option<Entry>
        ensures found { result ≡ first_wanted Ghost (option_copied from.entry) self.now.entries }
        ensures rising { IsRising self.now.entries }
    {
        match &self.node {
            Node::Leaf(leaf) => seek_in_leaf(leaf, from, Wanted::Ghost),
            Node::Inner(separators, children, marks) => {
                let at = child_from(separators, from);
                if has_bit(*marks, at) {
                    if let Some(entry) = children[at].ghost_from(from) {
                        return Some(entry);
                    }
                }
                let next = next_bit(*marks, at + 1)?;
                children[next].ghost_from(None)
            }
        }
    }
}

/// Says of the child at the index whether an entry below it is a ghost. A word that says so already isn't written, so
/// that other processors keep their copies of it.
pub(crate) fn mark(marks: &mut u32, at: usize, child: &Subtree)
    requires { at < 32 }
    ensures { marks.new ≡ changed_bit marks.old at (has_ghost child.now.entries) }
{
    let marked = change_bit(*marks, at, child.has_ghost());
    if marked != *marks {
        *marks = marked;
    }
}

/// The bits of a node with these children.
pub(crate) fn marks_of(children: &[Subtree]) -> u32
    requires { length children.now ≤ 32 }
    ensures { result ≡ marks_of children.now }
{
    let mut marks = 0;
    let mut at = children.len();
    'child: while at > 0 {
        at -= 1;
        marks = 2 * marks + u32::from(children[at].has_ghost());
    }
    marks
}
