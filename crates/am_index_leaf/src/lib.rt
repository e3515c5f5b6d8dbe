//! Leaves of a B-tree over raw memory.
//!
//! A [`RawLeaf`] has at most 32 entries, by rising places. Keys and values lie in two blocks, so a search reads the
//! first alone. Both take 16 bytes each until a longer one comes, and are wide from then on. A leaf is searched by
//! the fronts of its keys from end to end, with no branch on what a comparison says; its first and its last place are
//! asked before. Ghosts are bits of one word. The functions of such words are open to the nodes above.
#![tactic(auto)]

mod bits;
mod block;
mod column;
mod leaf;
mod longest;
mod places;
mod stretch;
mod values;

pub use bits::{change_bit, has_bit, insert_bit, next_bit, remove_bit};
pub use leaf::RawLeaf;
