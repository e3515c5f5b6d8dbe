//! Looking for a place.

ghost use Rattle.std.specs.Prelude.{◌≡◌, ◌<◌, ◌^◌, IfOk, IfErr};
ghost use Rattle.am_index.specs.Places.{IsPlaceOf, IsGapFor};
ghost use Rattle.am_index.specs.Entries.{find, IsRising};
ghost use Rattle.am_index_btree.specs.Rooms.{IsRoomed};

use crate::node::{Node, Subtree};
use crate::separator::Separator;
use am_index::{Hint, PLACES_AT_ONCE, STEPS};
use am_index_leaf::RawLeaf;
use am_record::{Key, Value};

impl Subtree {
    /// How many inner nodes stand above the leaf of the place.
    pub(crate) fn depth_at(&self, part: u32, key: Key) -> usize
        ensures { self.now.depth < 2 ^ 64 → result ≡ self.now.depth }
    {
        match &self.node {
            Node::Leaf(_) => 0,
            Node::Inner(separators, children, _) => {
                let at = separators.child_for(part, key);
                children[at].depth_at(part, key).saturating_add(1)
            }
        }
    }

    /// Where the place is: the leaf, the index there, and a hint for it.
    pub(crate) fn spot(&self, part: u32, key: Key, hint: Hint) -> Spot<'_>
        ensures leaf { find result.leaf.now.entries part key ≡ find self.now.entries part key }
        ensures found { IfOk result.at (IsPlaceOf result.leaf.now.entries part key) }
        ensures absent { IfErr result.at (IsGapFor result.leaf.now.entries part key) }
        ensures rising { IsRising self.now.entries }
        ensures roomed { IsRoomed self.now }
    {
        match &self.node {
            Node::Leaf(leaf) => {
                let at = leaf.find_near(hint.first(), part, key);
                Spot {
                    leaf,
                    at,
                    hint: Hint::step_then(index_of(at), Hint::none()),
                }
            }
            Node::Inner(separators, children, _) => {
                let at = separators.child_near(hint.first(), part, key);
                let spot = children[at].spot(part, key, hint.rest());
                Spot {
                    leaf: spot.leaf,
                    at: spot.at,
                    hint: Hint::step_then(at, spot.hint),
                }
            }
        }
    }

    /// The value that stands under a partition and key, and whether it is a ghost; and a hint for the place.
    pub(crate) fn look(&self, part: u32, key: Key, hint: Hint) -> (Option<(Value, bool)>, Hint)
        ensures found { result.0 ≡ find self.now.entries part key }
        ensures rising { IsRising self.now.entries }
        ensures roomed { IsRoomed self.now }
    {
        let spot = self.spot(part, key, hint);
        let Ok(at) = spot.at else {
            return (None, spot.hint);
        };
        let entry = spot.leaf.get(at);
        (Some((entry.value, entry.is_ghost)), spot.hint)
    }

    // How many of a node's children, or of a leaf's entries, a place may stand behind, as far as the last of each eight
    // tells.
    fn pass_groups(&self, sought: Sought) -> usize {
        match &self.node {
            Node::Leaf(leaf) => leaf.pass_groups(sought.part, sought.key_front),
            Node::Inner(separators, _, _) => separators.pass_groups(sought.front),
        }
    }

    // One step on the way to where a place may stand, behind what was passed: the index of the child, and the child; at
    // a leaf the index there.
    fn step(&self, passed: usize, sought: Sought) -> (usize, Option<&Subtree>) {
        match &self.node {
            Node::Leaf(leaf) => (leaf.guess(passed, sought.part, sought.key_front), None),
            Node::Inner(separators, children, _) => {
                let at = separators.guess(passed, sought.front);
                (at, Some(&children[at]))
            }
        }
    }

    /// Hints for places, sixteen at most. All go down side by side, a level at a time, and by fronts alone, so that the
    /// memory of all comes at once.
    pub(crate) fn hints(&self, places: &[(u32, Key)]) -> [Hint; PLACES_AT_ONCE] {
        let mut ways = [Way::from(self); PLACES_AT_ONCE];
        for (way, place) in ways.iter_mut().zip(places) {
            way.sought = Sought::from(place.0, place.1);
        }
        let few = places.len().min(PLACES_AT_ONCE);
        for depth in 0..STEPS {
            if !step_all(&mut ways[..few], depth) {
                break;
            }
        }
        let mut hints = [Hint::none(); PLACES_AT_ONCE];
        for (hint, way) in hints.iter_mut().zip(&ways) {
            *hint = way.hint;
        }
        hints
    }
}

// The fronts of a place: that of its key in a leaf, and that of both in the nodes above.
#[derive(Clone, Copy)]
struct Sought {
    part: u32,
    key_front: u64,
    front: u64,
}

impl Sought {
    fn from(part: u32, key: Key) -> Sought {
        Sought {
            part,
            key_front: key.front(),
            front: Separator { part, key }.front(),
        }
    }
}

// How far a place was looked for: the node to which that came, what was passed there, and the hint so far.
#[derive(Clone, Copy)]
struct Way<'a> {
    node: &'a Subtree,
    passed: usize,
    hint: Hint,
    sought: Sought,
}

impl<'a> Way<'a> {
    fn from(node: &'a Subtree) -> Way<'a> {
        Way {
            node,
            passed: 0,
            hint: Hint::none(),
            sought: Sought::from(0, Key::least()),
        }
    }

    // The groups of its node that the place may stand behind are passed.
    fn pass_groups(self) -> Way<'a> {
        Way {
            passed: self.node.pass_groups(self.sought),
            ..self
        }
    }

    // One step further down to the place. Whether it goes on from there.
    fn step(self, depth: u32) -> (Way<'a>, bool) {
        let (at, below) = self.node.step(self.passed, self.sought);
        let further = Way {
            node: below.unwrap_or(self.node),
            hint: self.hint.with_step(depth, at),
            ..self
        };
        (further, below.is_some())
    }
}

// One step further down to each of the places. Whether it goes on from there. No way waits for the memory of another's
// groups, since all are asked for before any is looked into.
fn step_all(ways: &mut [Way], depth: u32) -> bool {
    for way in ways.iter_mut() {
        *way = way.pass_groups();
    }
    let mut goes_on = false;
    for way in ways.iter_mut() {
        let (further, is_inner) = way.step(depth);
        *way = further;
        goes_on = is_inner;
    }
    goes_on
}

/// The leaf of a place, the index at which its entry stands there or would go, and a hint for it.
#[derive(Drop)]
pub(crate) struct Spot<'a> {
    pub(crate) leaf: &'a RawLeaf,
    pub(crate) at: Result<usize, usize>,
    pub(crate) hint: Hint,
}

// The index, whether an entry stands there or not.
fn index_of(at: Result<usize, usize>) -> usize {
    match at {
        Ok(at) => at,
        Err(at) => at,
    }
}
