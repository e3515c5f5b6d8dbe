//! Room for new nodes, got before a tree is changed.

ghost use Rattle.std.specs.Prelude.{◌≡◌, ◌≤◌, [], IfOk, vec_len, vec_capacity};

use crate::node::Subtree;
use crate::room::with_room;
use crate::separators::Separators;
use std::alloc::{AllocError, Global};

/// Room for an inner node.
#[derive(Drop)]
pub(crate) struct Spare {
    pub(crate) separators: Separators,
    pub(crate) children: Vec<Subtree>,
    ghost empty: { (separators ≡ []) × (children.items ≡ []) },
    ghost room: { 32 ≤ vec_capacity children },
}

/// Room for n inner nodes.
pub(crate) fn spares(alloc: Global, n: usize) -> Result<Vec<Spare>, AllocError>
    ensures { IfOk result (λ v. vec_len v ≡ n) }
{
    let mut all = Vec::new(alloc);
    while all.len() < n {
        all.push(Spare {
            separators: Separators::with_room(alloc)?,
            children: with_room(alloc)?,
        })?;
    }
    Ok(all)
}
