//! The notes of one transaction.

ghost use Rattle.std.specs.Prelude.{◌≡◌, ◌+◌, ◌<◌, ◌≤◌, ℕ, [], ◌∷◌, true, length, reverse, drop, take};
ghost use Rattle.std.specs.Prelude.{IsOk, OnOk, OnErr, IsSome, if◌then◌else◌, ◌==◌};
ghost use Rattle.am_record.specs.OrderedKey.{OrderedKey};
ghost use Rattle.am_index.specs.Entries.{find, IsRising};
ghost use Rattle.am_index.specs.Edits.{same_place};
ghost use Rattle.am_record.specs.Marks.{since_mark, until_mark, older, has_mark};
ghost use Rattle.am_index.specs.Rooms.{KeepRoom};
ghost use Rattle.am_store_undo.specs.Notes.{TakesBack, CanTakeBack, Stands, OneLive, NoteFits, NotesFit, back_at};
ghost use Rattle.am_store_undo.specs.Notes.{back_one};
ghost use Rattle.am_store_undo.specs.Notes.{ghosted};

use crate::note::Note;
use am_index::{Hint, PartIndex};
use am_index_parts::Parts;
use am_record::{Key, NoMemory};
use smallvec::SmallVec;
use std::alloc::Global;
use std::marker::Model;

/// The notes and marks of one transaction, seen with the newest first. Four notes and two marks
/// stand in the value itself.
pub struct UndoLog {
    notes: SmallVec<Note, 4>,
    marks: SmallVec<usize, 2>,
}

// By hand: a crate above then need not prove once more how a log is dropped.
impl Drop for UndoLog {
    fn drop(self) {
        let UndoLog { notes, marks } = self;
        drop(notes);
        drop(marks);
    }
}

impl Model for UndoLog {
    ghost use Rattle.std.specs.Prelude.{◌-◌, ◌≤◌, length, reverse};
    ghost use Rattle.am_store_undo.specs.Log.{Log, log_code};

    ghost Value = { Log };

    ghost coded = { log_code };

    ghost view = { λ a. record {
      notes = reverse a.notes.items;
      marks = reverse a.marks.items;
      room = a.notes.capacity - length a.notes.items;
    } };

    ghost invariant = { λ a. (4 ≤ a.notes.capacity) × (2 ≤ a.marks.capacity) };
}

impl UndoLog {
    /// A log without notes and marks, which takes no memory.
    pub fn new(alloc: Global) -> UndoLog
        ensures notes { result.notes ≡ [] }
        ensures marks { result.marks ≡ [] }
        ensures room { result.room ≡ 4 }
    {
        UndoLog {
            notes: SmallVec::new(alloc),
            marks: SmallVec::new(alloc),
        }
    }

    /// Gets the room for one more note. It wants memory only where four notes or more stand.
    ///
    /// # Errors
    /// NoMemory, where memory was refused; nothing is changed.
    pub fn reserve_one(&mut self) -> Result<(), NoMemory>
        ensures notes { self.new.notes ≡ self.old.notes }
        ensures marks { self.new.marks ≡ self.old.marks }
        ensures ok { OnOk result (0 < self.new.room) }
        ensures err { OnErr result (self.new ≡ self.old) }
        ensures inline { length self.old.notes < 4 → IsOk result }
    {
        self.reserve(1)
    }

    /// Gets the room for so many more notes. It wants memory only where these and those that stand are more than four.
    ///
    /// # Errors
    /// NoMemory, where memory was refused; nothing is changed.
    pub fn reserve(&mut self, more: usize) -> Result<(), NoMemory>
        ensures notes { self.new.notes ≡ self.old.notes }
        ensures marks { self.new.marks ≡ self.old.marks }
        ensures ok { OnOk result (more ≤ self.new.room) }
        ensures err { OnErr result (self.new ≡ self.old) }
        ensures inline { length self.old.notes + more ≤ 4 → IsOk result }
    {
        self.notes.reserve(more)?;
        Ok(())
    }

    /// Adds a note as the newest. The caller has the room for it by `reserve` or `reserve_one`. Takes no memory.
    pub fn note(&mut self, note: Note)
        requires { 0 < self.old.room }
        ensures notes { self.new.notes ≡ note ∷ self.old.notes }
        ensures marks { self.new.marks ≡ self.old.marks }
        ensures room { self.new.room + 1 ≡ self.old.room }
    {
        self.notes.push_reserved(note);
    }

    /// Takes all notes back, from the newest to the oldest, and drops the marks. The caller sees to it that each noted
    /// entry is still there, with room for the noted value, and that no key becomes live twice on the way. Takes no
    /// memory.
    #[inline(never)]
    pub fn take_back<I: PartIndex + Drop>(&mut self, parts: &mut Parts<I>)
        requires can { CanTakeBack self.old.notes (find parts.old.entries) }
        requires room { NotesFit parts.old.roomy self.old.notes }
        ensures entries { TakesBack self.old.notes parts.old.entries parts.new.entries }
        ensures runs { parts.new.runs ≡ parts.old.runs }
        ensures rooms { KeepRoom parts.old.roomy parts.new.roomy parts.new.entries }
        ensures notes { self.new.notes ≡ [] }
        ensures marks { self.new.marks ≡ [] }
        ensures room { 4 ≤ self.new.room }
    {
        take_back_above(&mut self.notes, 0, parts);
        self.marks.clear();
    }

    /// Sets a mark. It wants memory only where two marks or more stand.
    ///
    /// # Errors
    /// NoMemory, where memory was refused; nothing is changed.
    pub fn mark(&mut self) -> Result<(), NoMemory>
        ensures notes { self.new.notes ≡ self.old.notes }
        ensures room { self.new.room ≡ self.old.room }
        ensures ok { OnOk result (self.new.marks ≡ length self.old.notes ∷ self.old.marks) }
        ensures err { OnErr result (self.new ≡ self.old) }
        ensures inline { length self.old.marks < 2 → IsOk result }
    {
        let count = self.notes.len();
        self.marks.push(count)?;
        Ok(())
    }

    /// Takes the notes since the newest mark back, from the newest to the oldest, and drops the mark;
    /// where no mark stands it does nothing and answers false. The caller sees to it that each of
    /// these noted entries is still there, with room for the noted value, and that no key becomes
    /// live twice on the way. Takes no memory.
    #[inline(never)]
    pub fn back<I: PartIndex + Drop>(&mut self, parts: &mut Parts<I>) -> bool
        requires can { CanTakeBack (since_mark self.old.marks self.old.notes) (find parts.old.entries) }
        requires room { NotesFit parts.old.roomy (since_mark self.old.marks self.old.notes) }
        ensures stood { result ≡ has_mark self.old.marks }
        ensures entries { TakesBack (since_mark self.old.marks self.old.notes) parts.old.entries parts.new.entries }
        ensures runs { parts.new.runs ≡ parts.old.runs }
        ensures rooms { KeepRoom parts.old.roomy parts.new.roomy parts.new.entries }
        ensures notes { self.new.notes ≡ until_mark self.old.marks self.old.notes }
        ensures marks { self.new.marks ≡ older self.old.marks }
        ensures room { self.old.room ≤ self.new.room }
    {
        let Some(mark) = self.marks.pop() else {
            // Asked here, each value is known to have its room.
            prove!(parts.runs() <= 4294967294);
            return false;
        };
        take_back_above(&mut self.notes, mark, parts);
        true
    }
}

// Takes the notes but for the oldest `mark` back, from the newest on.
fn take_back_above<I: PartIndex + Drop>(
    notes: &mut SmallVec<Note, 4>,
    mark: usize,
    parts: &mut Parts<I>,
)
    requires can { CanTakeBack (reverse (drop mark notes.old.items)) (find parts.old.entries) }
    requires room { NotesFit parts.old.roomy (reverse (drop mark notes.old.items)) }
    ensures entries { TakesBack (reverse (drop mark notes.old.items)) parts.old.entries parts.new.entries }
    ensures runs { parts.new.runs ≡ parts.old.runs }
    ensures rooms { KeepRoom parts.old.roomy parts.new.roomy parts.new.entries }
    ensures notes { notes.new.items ≡ take mark notes.old.items }
    ensures capacity { notes.new.capacity ≡ notes.old.capacity }
{
    // Asked here, each value is known to have its room.
    prove!(parts.runs() <= 4294967294);
    while mark < notes.len() {
        let Some(note) = notes.pop() else {
            unreachable!()
        };
        take_back_one(parts, note);
    }
}

// Takes one note back.
fn take_back_one<I: PartIndex + Drop>(parts: &mut Parts<I>, note: Note)
    requires stands { Stands note (find parts.old.entries) }
    requires room { NoteFits parts.old.roomy note }
    requires one { OneLive (back_at note (find parts.old.entries)) }
    ensures back { (part : ℕ) (key : OrderedKey) → find parts.new.entries part key ≡
        back_one note part key (find parts.old.entries part key) }
    ensures rising { IsRising parts.new.entries }
    ensures runs { parts.new.runs ≡ parts.old.runs }
    ensures rooms { KeepRoom parts.old.roomy parts.new.roomy parts.new.entries }
{
    match note {
        Note::New(key) => bury(parts, 0, key),
        Note::Before {
            part,
            key,
            value,
            is_ghost,
        } => parts.set(part, key, value, is_ghost, Hint::none()),
        Note::RunMade(run) => bury_run(parts, run),
    }
}

// Makes an entry a ghost with its value.
fn bury<I: PartIndex + Drop>(parts: &mut Parts<I>, part: u32, key: Key)
    requires { IsSome (find parts.old.entries part key) }
    ensures back { (p : ℕ) (k : OrderedKey) → find parts.new.entries p k ≡
        (if same_place p k part key then ghosted (find parts.old.entries p k) else find parts.old.entries p k) }
    ensures rising { IsRising parts.new.entries }
    ensures runs { parts.new.runs ≡ parts.old.runs }
    ensures rooms { KeepRoom parts.old.roomy parts.new.roomy parts.new.entries }
{
    let (slot, hint) = parts.look(part, key);
    let Some(found) = slot else { unreachable!() };
    parts.set(part, key, found.0, true, hint);
}

// Makes all entries of a partition ghosts with their values.
fn bury_run<I: PartIndex + Drop>(parts: &mut Parts<I>, run: u32)
    ensures back { (p : ℕ) (k : OrderedKey) → find parts.new.entries p k ≡
        (if p == run then ghosted (find parts.old.entries p k) else find parts.old.entries p k) }
    ensures rising { IsRising parts.new.entries }
    ensures runs { parts.new.runs ≡ parts.old.runs }
    ensures rooms { KeepRoom parts.old.roomy parts.new.roomy parts.new.entries }
{
    let mut next = parts.next_from(run, Key::least());
    while let Some(entry) = next {
        parts.set(run, entry.key, entry.value, true, Hint::none());
        next = parts.after(run, entry.key);
    }
}
