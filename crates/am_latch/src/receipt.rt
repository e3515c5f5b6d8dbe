//! What a seat keeps of a call.

ghost use Rattle.std.specs.Prelude.{◌≡◌};
ghost use Rattle.am_latch_engine.specs.Changes.{moves_in};
ghost use Rattle.am_latch.specs.Receipts.{committed_by};

use am_record::Reply;
use std::marker::Model;

/// Says that a commit stands in the trace. Contracts see it as the commit's number.
#[derive(Drop)]
pub struct CommitReceipt {
    pub(crate) commit: u64,
}

impl Model for CommitReceipt {
    ghost use Rattle.std.specs.Prelude.{ℕ};

    ghost Value = { ℕ };

    ghost view = { λ r. r.commit };
}

impl CommitReceipt {
    /// The number of the commit.
    pub fn commit(&self) -> u64
        ensures { result ≡ self.now }
    {
        self.commit
    }
}

/// How many entries the reply says were moved.
pub(crate) fn moved_by(reply: &Reply) -> u64
    ensures { result ≡ moves_in reply.now }
{
    match reply {
        Reply::Moved(n, _) => *n,
        _ => 0,
    }
}

/// The number of the commit that the reply tells.
pub(crate) fn commit_by(reply: &Reply) -> Option<u64>
    ensures { result ≡ committed_by reply.now }
{
    match reply {
        Reply::Committed(commit) => Some(*commit),
        _ => None,
    }
}
