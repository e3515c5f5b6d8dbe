//! The notes and marks of one body.

ghost use Rattle.std.specs.Prelude.{◌≡◌, [], ◌∷◌, true, length, reverse, take, drop, OnOk, OnErr};
ghost use Rattle.std.specs.List.{AllByRecursion};
ghost use Rattle.am_record_model.specs.Slots.{live, IsNoPlace};
ghost use Rattle.am_record_model.specs.Notes.{all_undone, CanUndo};
ghost use Rattle.am_record.specs.Marks.{since_mark, until_mark, older, has_mark};

use crate::note::{Note, Slot};
use crate::sorted_records::SortedRecords;
use am_record::{Key, NoMemory};
use std::alloc::Global;
use std::marker::Model;

/// The notes of a body's changes and its marks, seen with the newest first. A mark is the number of notes at it, so it
/// takes the same memory whatever the map has.
#[derive(Drop)]
pub(crate) struct ChangeLog {
    notes: Vec<Note>,
    marks: Vec<usize>,
}

impl Model for ChangeLog {
    ghost use Rattle.std.specs.Prelude.{◌+◌, nat_le, length, reverse};
    ghost use Rattle.std.specs.Vec.{vec_capacity};
    ghost use Rattle.am_record_model.specs.Marks.{DraftLog};
    ghost use Rattle.am_record_model.specs.Code.{draft_log_code};

    ghost Value = { DraftLog };

    ghost coded = { draft_log_code };

    ghost view = { λ a. record {
      notes = reverse a.notes.items;
      marks = reverse a.marks.items;
      has_room = nat_le (length a.notes.items + 1) (vec_capacity a.notes);
    } };
}

impl ChangeLog {
    /// A log without notes and marks, which takes no memory.
    pub(crate) fn new(alloc: Global) -> ChangeLog
        ensures notes { result.notes ≡ [] }
        ensures marks { result.marks ≡ [] }
    {
        ChangeLog {
            notes: Vec::new(alloc),
            marks: Vec::new(alloc),
        }
    }

    pub(crate) fn allocator(&self) -> Global {
        *self.notes.allocator()
    }

    /// Whether a mark stands.
    pub(crate) fn has_mark(&self) -> bool
        ensures { result ≡ has_mark self.now.marks }
    {
        !self.marks.is_empty()
    }

    /// Gets the room for one more note.
    pub(crate) fn reserve_one(&mut self) -> Result<(), NoMemory>
        ensures notes { self.new.notes ≡ self.old.notes }
        ensures marks { self.new.marks ≡ self.old.marks }
        ensures ok { OnOk result (self.new.has_room ≡ true) }
    {
        self.notes.reserve(1)?;
        Ok(())
    }

    /// Notes what stood under a key. The caller has the room for it by `reserve_one`. Takes no memory.
    pub(crate) fn note(&mut self, key: Key, before: Option<Slot>)
        requires { self.old.has_room ≡ true }
        ensures notes { self.new.notes ≡ record { key = key; before = before } ∷ self.old.notes }
        ensures marks { self.new.marks ≡ self.old.marks }
    {
        self.notes.push_reserved(Note { key, before });
    }

    /// Sets a mark.
    pub(crate) fn mark(&mut self) -> Result<(), NoMemory>
        ensures notes { self.new.notes ≡ self.old.notes }
        ensures ok { OnOk result (self.new.marks ≡ length self.old.notes ∷ self.old.marks) }
        ensures err { OnErr result (self.new.marks ≡ self.old.marks) }
    {
        let count = self.notes.len();
        self.marks.push(count)?;
        Ok(())
    }

    /// Drops the newest mark, and keeps the notes since. Takes no memory.
    pub(crate) fn drop_mark(&mut self)
        ensures notes { self.new.notes ≡ self.old.notes }
        ensures marks { self.new.marks ≡ older self.old.marks }
    {
        let _ = self.marks.pop();
    }

    /// Takes the notes since the newest mark back and drops the mark; where none stands it does nothing and answers
    /// false. Takes no memory.
    pub(crate) fn back(&mut self, records: &mut SortedRecords) -> bool
        requires { CanUndo (since_mark self.old.marks self.old.notes) records.old }
        ensures stood { result ≡ has_mark self.old.marks }
        ensures records { records.new ≡ all_undone (since_mark self.old.marks self.old.notes) records.old }
        ensures notes { self.new.notes ≡ until_mark self.old.marks self.old.notes }
        ensures marks { self.new.marks ≡ older self.old.marks }
    {
        let Some(mark) = self.marks.pop() else {
            return false;
        };
        take_back_above(&mut self.notes, mark, records);
        true
    }

    /// Drops the notes and marks with their memory. The places of deleted records that were kept for them go too. Takes
    /// no memory.
    pub(crate) fn forget(&mut self, records: &mut SortedRecords)
        ensures records { live records.new ≡ live records.old }
        ensures places { AllByRecursion (λ n. IsNoPlace records.new n.key) self.old.notes }
        ensures notes { self.new.notes ≡ [] }
        ensures marks { self.new.marks ≡ [] }
    {
        for note in &self.notes {
            records.clean(note.key);
        }
        *self = ChangeLog::new(self.allocator());
    }
}

// Takes the notes but for the oldest `mark` back, from the newest on.
fn take_back_above(notes: &mut Vec<Note>, mark: usize, records: &mut SortedRecords)
    requires { CanUndo (reverse (drop mark notes.old.items)) records.old }
    ensures records { records.new ≡ all_undone (reverse (drop mark notes.old.items)) records.old }
    ensures notes { notes.new.items ≡ take mark notes.old.items }
{
    while mark < notes.len() {
        let Some(note) = notes.pop() else {
            unreachable!()
        };
        records.take_back(note);
    }
}
