//! Laws of merging, cleaning and going back, for the proofs of whoever keeps a store. Their functions do nothing.

ghost use Rattle.std.specs.Prelude.{◌≡◌, ℕ, Bool, List, length, true};
ghost use Rattle.am_record.specs.OrderedKey.{OrderedKey};
ghost use Rattle.am_record.specs.EntryOrder.{Place};
ghost use Rattle.am_record.specs.Interval.{Interval};
ghost use Rattle.am_record.specs.declared.entry.Entry.{Entry};
ghost use Rattle.am_record.specs.declared.step.Reply.{Reply};
ghost use Rattle.am_index.specs.Entries.{find, IsRising};
ghost use Rattle.am_index.specs.Content.{OnePlace};
ghost use Rattle.am_store_undo.specs.declared.note.Note.{Note};
ghost use Rattle.am_store_undo.specs.Notes.{TakesBack, CanTakeBack};
ghost use Rattle.am_record.specs.Marks.{has_mark};
ghost use Rattle.am_law_effect.specs.MergeAnswers.{Holders, all_worked_off, MergeRight, merged_by, cleaned_by};
ghost use Rattle.am_law_effect.specs.History.{Moment, wrote, left_at, moments_since};
ghost use Rattle.am_law_effect.specs.KnownEdits.{KnownLaws};
ghost use Rattle.am_law_effect.specs.LookBacks.{lists_since, looked_back};
ghost use Rattle.am_law_serial.specs.Trace.{Trace};
ghost use Rattle.am_law_effect.specs.Store.{opened, after_all};
ghost use Rattle.am_law_effect.specs.WrittenKeys.{TraceWritesKeys, HaveKeys};
ghost use Rattle.am_law_effect.specs.Laws.{Describes, DescribeLaws, DescribesEach, BackLaws, Maintains, taken_back};

/// Merge and clean steps keep the content, keep each key live in one place at most, and leave every
/// place of an exclusively locked key as it is.
pub fn maintenance_keeps()
    ensures merge { (es : List Entry) (wishes : List Interval) (held : Holders) (limit : ℕ) (reply : Reply) →
        IsRising es →
        MergeRight es wishes held limit reply → Maintains held es (all_worked_off (merged_by es wishes reply) es) }
    ensures clean { (es : List Entry) (held : Holders) (range : Interval) (reply : Reply) → IsRising es →
        Maintains held es (all_worked_off (cleaned_by es held range reply) es) }
{}

/// Where notes were taken back in a list, the list is the one with the notes taken back one by one.
pub fn taking_back_is_known()
    ensures known { (notes : List Note) (es es' : List Entry) → IsRising es → CanTakeBack notes (find es) →
        TakesBack notes es es' →
        es' ≡ taken_back notes es }
    ensures exists { (notes : List Note) (es : List Entry) → CanTakeBack notes (find es) →
        TakesBack notes es (taken_back notes es) }
{}

/// An abort that looks back to the lists before leaves what the notes leave, taken back one by one.
pub fn aborts_take_back()
    ensures laws { (t : ℕ) (past : List Moment) (es : List Entry) (notes : List Note) → Describes t past es notes →
        DescribeLaws t past es notes }
    ensures words { (t : ℕ) (a : Place) (past : List Moment) (es : List Entry) → wrote t a.1 past ≡ true →
        left_at t a past es ≡ looked_back a (lists_since t a.1 past es) }
{}

/// Going back to a mark leaves what the notes since that mark leave, taken back one by one, and the
/// notes before it still undo the rest.
pub fn backs_take_back()
    ensures laws { (t : ℕ) (past : List Moment) (es : List Entry) (notes : List Note) (marks : List ℕ) →
        DescribesEach t past es notes 0 (length notes) marks → has_mark marks ≡ true → BackLaws t past es notes marks }
    ensures words { (t : ℕ) (a : Place) (past : List Moment) (es : List Entry) →
        wrote t a.1 (moments_since t past 0) ≡ true →
        left_at t a (moments_since t past 0) es ≡ looked_back a (lists_since t a.1 (moments_since t past 0) es) }
{}

/// The live entry of a key is the one that stands live, and an entry may be worked off in either order.
pub fn edits_are_known()
    ensures { (es : List Entry) → IsRising es → OnePlace es → KnownLaws es }
{}

/// No entry stands under a key that no operation of the trace wrote: what a test says of all keys written
/// it says of all keys of entries.
pub fn keys_are_written()
    ensures { (test : OrderedKey → Bool) (trace : Trace) → TraceWritesKeys (λ key. test key ≡ true) trace →
        HaveKeys (λ key. test key ≡ true) (after_all opened trace).entries }
{}
