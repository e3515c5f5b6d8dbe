//! Transactions as the log has them.

ghost use Rattle.std.specs.Prelude.{◌≡◌};
ghost use Rattle.am_replica.specs.Ordered.{same_sum};

use am_record::{Op, Reply};

/// A transaction's lines, how many of them were answered before it was put, and the digest of those answers.
#[derive(Drop)]
pub struct Block {
    pub ops: Vec<Op>,
    pub told: usize,
    pub digest: [u8; 32],
}

/// What became of a block.
#[derive(Drop)]
pub enum Outcome {
    /// It is the commit of this number, and its lines were answered so.
    Committed(u64, Vec<Reply>),
    /// What was told isn't what it would be told now, and nothing was done.
    Conflict,
}

// Whether it is one digest.
pub(crate) fn is_same(digest: &[u8; 32], other: &[u8; 32]) -> bool
    ensures { result ≡ same_sum digest.now other.now }
{
    digest == other
}
