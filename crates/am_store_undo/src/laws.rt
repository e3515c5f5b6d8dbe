//! The laws of undo notes, for the proofs of whoever keeps them. Their functions do nothing.

ghost use Rattle.std.specs.Prelude.{ℕ, List, [], Bool, Option, false, length};
ghost use Rattle.am_record.specs.OrderedKey.{OrderedKey};
ghost use Rattle.am_record.specs.declared.entry.Entry.{Entry};
ghost use Rattle.am_index.specs.Entries.{IsRising};
ghost use Rattle.am_index.specs.Content.{OnePlace};
ghost use Rattle.am_store_undo.specs.Undo.{Undoes, UndoLaws};
ghost use Rattle.am_store_undo.specs.Marks.{UndoesEach, MarkLaws};
ghost use Rattle.am_record.specs.Plain.{PlainMap};

use crate::note::Note;

/// What taking back a transaction's notes restores, whatever it and the others do before.
pub fn undo_follows()
    ensures nothing { (es : List Entry) (before : OrderedKey → Option (List ℕ)) → Undoes es [] (λ _. false) before }
    ensures laws { (es : List Entry) (notes : List Note) (owned : OrderedKey → Bool)
        (before : OrderedKey → Option (List ℕ)) →
        IsRising es → OnePlace es → Undoes es notes owned before → UndoLaws es notes owned before }
{}

/// What Mark, Back and all other steps do to notes with marks.
pub fn marks_follow()
    ensures { (es : List Entry) (notes : List Note) (owned : OrderedKey → Bool) (before : PlainMap) (marks : List ℕ)
        (maps : List PlainMap) →
        IsRising es → OnePlace es → UndoesEach es notes owned before (length notes) marks maps →
        MarkLaws es notes owned before marks maps }
{}
