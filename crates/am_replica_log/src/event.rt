//! What the cluster shows of the log.

ghost use Rattle.std.specs.Prelude.{◌≡◌};
ghost use Rattle.am_replica_log.specs.History.{same};

/// An entry's name: who wrote it, and its number there.
#[derive(Clone, Copy, Debug)]
pub struct Name {
    pub writer: u128,
    pub number: u64,
}

/// A snapshot's name: the generation of the log that begins with it, and who wrote it.
#[derive(Clone, Copy, Debug)]
pub struct Snapshot {
    pub generation: u64,
    pub writer: u128,
}

/// A part of an entry. Its last one is the head, by which it has its place.
#[derive(Clone, Copy, Debug)]
pub enum Part {
    Piece(u64),
    Head,
}

/// The newest snapshot, and the revision of the floor before this one.
#[derive(Clone, Copy, Debug)]
pub struct Floor {
    pub since: u64,
    pub snapshot: Snapshot,
}

/// What a reader is told.
#[derive(Clone, Copy, Debug)]
pub enum Event {
    /// A part of an entry was put under a generation; whether its key wasn't there before.
    Put(u64, Name, Part, bool),
    /// The floor moved, and a generation begins.
    Moved(Floor),
}

impl Name {
    /// Whether it is the same entry.
    pub fn is(self, other: Name) -> bool
        ensures { result ≡ same self other }
    {
        self.writer == other.writer && self.number == other.number
    }
}
