//! What is let go.

ghost use Rattle.std.specs.Prelude.{◌≡◌};
ghost use Rattle.am_replica_log.specs.Writers.{deletion_of};

use crate::event::Snapshot;

/// A request to delete, which may arrive late, and more than once.
#[derive(Clone, Copy, Debug)]
pub struct Deletion {
    /// It does nothing unless the floor names this snapshot then; where there is none, it is done in any case.
    pub only_at: Option<Snapshot>,
    /// Entries under generations below this one.
    pub generation: u64,
    /// Pieces of snapshots of generations up to this one,
    pub through: u64,
    /// but for those of this snapshot.
    pub but: Snapshot,
}

impl Snapshot {
    /// What whoever wrote it lets go once the floor names it.
    pub fn deletion(self) -> Deletion
        ensures { result ≡ deletion_of self }
    {
        Deletion {
            only_at: Some(self),
            generation: self.generation.saturating_sub(1),
            through: self.generation,
            but: self,
        }
    }
}
