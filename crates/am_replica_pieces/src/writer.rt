//! Writers of entries, which keep to what readers ask of them.

ghost use Rattle.std.specs.Prelude.{◌≡◌, ◌≤◌, ◌<◌, ◌++◌, ◌∷◌, [], ◌||◌, ℕ, List, true, false};
ghost use Rattle.am_replica_log.specs.History.{Change, Puts, History};
ghost use Rattle.am_replica_log.specs.Readers.{IsAt, counted_for};
ghost use Rattle.am_replica_log.specs.Writers.{AllKeepPremise, KeepsPremise, NeverCounted};
ghost use Rattle.am_replica_pieces.specs.Cut.{before_head, part_at, bytes_at};
ghost use Rattle.am_replica_pieces.specs.Turns.{was_put, IsPart};
ghost use Rattle.am_replica_pieces.specs.Writing.{tells, state_answered, state_heard, IsOnWay};

use crate::cut::{part_at, pieces_before_head};
use am_replica_log::{Entry, Log, Name, Part};
use std::marker::Model;

/// An entry on its way into the log: one part of it is put at a time, until that is answered. A put may come to
/// nothing, or come late and more than once.
#[derive(Drop)]
pub struct Writer {
    name: Name,
    generation: u64,
    next: u64,
    is_seen: bool,
}

impl Model for Writer {
    ghost use Rattle.am_replica_pieces.specs.WriterState.{WriterState};

    ghost Value = { WriterState };

    ghost view = { λ w. record { name = w.name; generation = w.generation; next = w.next; is_seen = w.is_seen } };
}

impl Writer {
    /// Of an entry with a name of its own, whose first part is put now.
    pub fn new(name: Name, log: &Log) -> Writer
        ensures here { result ≡ record { name = name; generation = log.now.generation; next = 0; is_seen = false } }
        ensures on_way { (most : ℕ) (text : List ℕ) (from : ℕ) (since read : History) → IsAt from log.now read →
            NeverCounted name read → IsOnWay most text result since read }
    {
        Writer {
            name,
            generation: log.generation(),
            next: 0,
            is_seen: false,
        }
    }

    /// Under which generation the part is put.
    pub fn generation(&self) -> u64
        ensures { result ≡ self.now.generation }
    {
        self.generation
    }

    /// Whether the log told of the entry, so that nothing is put any more.
    pub fn is_seen(&self) -> bool
        ensures { result ≡ self.now.is_seen }
    {
        self.is_seen
    }

    /// The part that is put now, until that is answered, or the log has something to tell.
    pub fn part<'a>(&self, most: usize, text: &'a [u8]) -> (Part, &'a [u8])
        requires most { 0 < most }
        requires here { self.now.next ≤ before_head most text.now }
        ensures part { result.0 ≡ part_at most text.now self.now.next }
        ensures bytes { result.1.now ≡ bytes_at most text.now self.now.next }
        ensures may { (since read : History) → AllKeepPremise (since ++ read) →
            IsOnWay most text.now self.now since read → self.now.is_seen ≡ false →
            KeepsPremise (Puts self.now.generation self.now.name result.0 result.1.now) (since ++ read) }
        ensures in_turn { (since read : History) → IsOnWay most text.now self.now since read →
            IsPart most text.now self.now.generation self.now.name result.0 result.1.now (since ++ read) }
    {
        part_at(most, text, self.next)
    }

    /// The part was put under a generation: the next one is put now, if it wasn't the last. Where that generation is
    /// over, the answer says nothing, since the entry began anew.
    pub fn answered(&mut self, generation: u64, most: usize, text: &[u8])
        requires most { 0 < most }
        ensures next { self.new ≡ state_answered generation (before_head most text.now) self.old }
        ensures on_way { (since read : History) → IsOnWay most text.now self.old since read →
            (generation ≡ self.old.generation →
            was_put generation self.old.name (part_at most text.now self.old.next) (since ++ read) ≡ true) →
            IsOnWay most text.now self.new since read }
    {
        if generation == self.generation && self.next < pieces_before_head(most, text) {
            self.next += 1;
        }
    }

    /// The log told something: that the entry counts, or that its generation is over, under which it begins anew then.
    pub fn hear(&mut self, log: &Log, told: &Option<Entry>)
        ensures here { self.new ≡ state_heard log.now.generation told.now self.old }
        ensures on_way { (most : ℕ) (text : List ℕ) (from : ℕ) (change : Change) (since read : History) →
            AllKeepPremise (change ∷ read) → IsAt from log.now (change ∷ read) →
            told.now ≡ counted_for from change read →
            IsOnWay most text self.old (since ++ change ∷ []) read → IsOnWay most text self.new since (change ∷ read) }
    {
        self.is_seen = is_told(self.is_seen, told, self.name);
        let generation = log.generation();
        if self.generation != generation {
            self.generation = generation;
            self.next = 0;
        }
    }
}

// Whether the log told of the entry by now.
fn is_told(before: bool, told: &Option<Entry>, name: Name) -> bool
    ensures { result ≡ (before || tells told.now name) }
{
    before || tells(told, name)
}

fn tells(told: &Option<Entry>, name: Name) -> bool
    ensures { result ≡ tells told.now name }
{
    match told {
        None => false,
        Some(entry) => name.is(entry.name),
    }
}
