//! Readers of the log.

ghost use Rattle.std.specs.Prelude.{◌≡◌, ◌≤◌, ◌<◌, ◌==◌, ◌&&◌, ℕ, ◌-◌, ◌++◌, ◌∷◌, List, [], true, false, IfOk, OnOk};
ghost use Rattle.std.specs.Prelude.{ltb};
ghost use Rattle.am_replica_log.specs.declared.event.Name.{Name as TheName};
ghost use Rattle.am_replica_log.specs.declared.event.Part.{Part as ThePart};
ghost use Rattle.am_replica_log.specs.declared.log.LogFault.TheVariants.{NoMemory as OutOfMemory};
ghost use Rattle.am_replica_log.specs.History.{History, Change, Puts, revision_of, shown, first_behind};
ghost use Rattle.am_replica_log.specs.Readers.{IsAt, counted_for, is_known, is_stray};
ghost use Rattle.am_replica_log.specs.Writers.{AllKeepPremise, KeepsPremise, NeverCounted};

use crate::event::{Event, Floor};
use crate::pieces::{Entry, Piece, first_behind, take_part};
use std::alloc::{AllocError, Global};
use std::marker::Model;

/// Why a reader can't go on.
#[derive(Clone, Copy, Debug, PartialEq, Eq)]
pub enum LogFault {
    /// Memory was refused: the replica ends.
    NoMemory,
    /// The floor before this one isn't the one that was read: the cluster went back.
    WentBack,
}

impl From<AllocError> for LogFault {
    ghost from_gives = { λ _ fault. fault ≡ OutOfMemory };

    fn from(_error: AllocError) -> LogFault {
        LogFault::NoMemory
    }
}

/// Where a reader of the log stands.
#[derive(Drop)]
pub struct Log {
    floor: u64,
    generation: u64,
    pieces: Vec<Piece>,
}

impl Model for Log {
    ghost use Rattle.am_replica_log.specs.LogState.{LogState};

    ghost Value = { LogState };

    ghost view = { λ l. record { floor = l.floor; generation = l.generation; pieces = l.pieces.items } };
}

impl Log {
    /// At the log's beginning.
    pub fn new(alloc: Global) -> Log
        ensures { IsAt 0 result [] }
    {
        Log {
            floor: 0,
            generation: 0,
            pieces: Vec::new(alloc),
        }
    }

    /// With a snapshot that the floor names: the log is read on from a revision that was noted by
    /// [`Log::first_behind`].
    pub fn behind(alloc: Global, floor: Floor) -> Log
        requires { 0 < floor.snapshot.generation }
        ensures { result ≡ record { floor = floor.since; generation = floor.snapshot.generation - 1; pieces = [] } }
    {
        Log {
            floor: floor.since,
            generation: floor.snapshot.generation - 1,
            pieces: Vec::new(alloc),
        }
    }

    /// Takes an event in its turn: the entry that it ends, where that counts. Its text is told only where all pieces
    /// before its head came, each in its turn; a reader that began by a snapshot may have missed pieces of entries that
    /// the snapshot has. A floor that is known says nothing: whoever wrote the snapshot that was begun by had read it.
    ///
    /// # Errors
    /// NoMemory, where memory was refused; WentBack, where the floor doesn't follow the one that is known, which no
    /// writer does. The reader is no use then.
    pub fn take(
        &mut self,
        alloc: Global,
        revision: u64,
        event: Event,
        text: &[u8],
    ) -> Result<Option<Entry>, LogFault>
        ensures goes_on { (from : ℕ) (before : History) (change : Change) → from ≤ revision_of before →
            IsAt from self.old before →
            shown change before ≡ Some (record { revision = revision; event = event; text = text.now }) →
            OnOk result (IsAt from self.new (change ∷ before))
            × IfOk result (λ entry. entry ≡ counted_for from change before) }
        ensures known { is_known self.old revision event ≡ true → (self.new ≡ self.old) × (result ≡ Ok None) }
        ensures followed { OnOk result (is_stray self.old revision event ≡ false) }
        ensures went_back { result ≡ Err LogFault.WentBack → is_stray self.old revision event ≡ true }
    {
        match event {
            Event::Put(generation, name, part, is_new) => {
                if !counts(self.generation, generation, is_new) {
                    return Ok(None);
                }
                Ok(take_part(alloc, &mut self.pieces, revision, name, part, text)?)
            }
            Event::Moved(floor) => {
                if revision <= self.floor {
                    return Ok(None);
                }
                if floor.since != self.floor {
                    return Err(LogFault::WentBack);
                }
                self.floor = revision;
                self.generation = floor.snapshot.generation;
                self.pieces.clear();
                Ok(None)
            }
        }
    }

    /// The generation under which parts are put now: of an entry that is handed over, and of each that was on its way
    /// while the floor moved and hasn't counted.
    pub fn generation(&self) -> u64
        ensures now { result ≡ self.now.generation }
        ensures puts { (from : ℕ) (name : TheName) (part : ThePart) (text : List ℕ) (history later : History) →
            AllKeepPremise (later ++ history) → IsAt from self.now history → NeverCounted name history →
            KeepsPremise (Puts result name part text) (later ++ history) }
    {
        self.generation
    }

    /// Whether a snapshot may be written by whoever knows all entries up to the given revision: one has followed the
    /// floor.
    pub fn may_be_left(&self, revision: u64) -> bool
        ensures { result ≡ ltb self.now.floor revision }
    {
        self.floor < revision
    }

    /// After which revision a reader has to begin by a snapshot that has all entries up to the given one.
    pub fn first_behind(&self, revision: u64) -> u64
        ensures { result ≡ first_behind revision self.now.pieces }
    {
        first_behind(revision, &self.pieces)
    }
}

// Whether a put counts for a reader in a generation: it is under that one, and its key wasn't there.
fn counts(now: u64, generation: u64, is_new: bool) -> bool
    ensures { result ≡ ((generation == now) && is_new) }
{
    generation == now && is_new
}
