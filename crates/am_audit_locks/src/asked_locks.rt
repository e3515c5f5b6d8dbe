//! What an only owner of locks asked for.

ghost use Rattle.std.specs.Prelude.{◌≡◌};
ghost use Rattle.am_audit_locks.specs.OnlyOwnerLocks.{lock_at};

use am_record::{Key, Lock, Range};

/// What an operation asked for. Most ask for one key: they are listed by it, which is shorter than a lock.
#[derive(Drop)]
pub(crate) enum Listed {
    /// A shared lock on the key.
    Read(Key),
    /// An exclusive lock on the key.
    Write(Key),
    /// Any other lock.
    Other(Lock),
}

impl Listed {
    /// The lock.
    pub(crate) fn lock(&self) -> Lock
        ensures { result ≡ lock_at self.now }
    {
        match self {
            Listed::Read(key) => Lock::shared(Range::point(*key)),
            Listed::Write(key) => Lock::exclusive(Range::point(*key)),
            Listed::Other(lock) => *lock,
        }
    }
}
