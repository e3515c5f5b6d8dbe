//! Every trace of the store is sound: theorems, each the contract of a function that does nothing.
//!
//! From below upwards: a list of entries with notes and marks represents the locked machine's state
//! ([`entries_represent`]); so every trace of the store is sound ([`store_is_sound`]); a step that is right of the
//! store's state makes the trace one longer ([`steps_lift`]); and a table of locks answers what a step owes
//! ([`tables_follow`]).
#![tactic(auto)]

ghost use Rattle.std.specs.Prelude.{◌↔◌, ◌++◌, ◌∷◌, ℕ, List, []};
ghost use Rattle.am_record.specs.declared.entry.Entry.{Entry};
ghost use Rattle.am_record.specs.declared.step.Reply.{Reply};
ghost use Rattle.am_record.specs.declared.step.Step.{Step};
ghost use Rattle.am_store_undo.specs.declared.note.Note.{Note};
ghost use Rattle.am_law_serial.specs.Laws.{OverlayLaws, ViewLaws};
ghost use Rattle.am_law_serial.specs.Machine.{State, start};
ghost use Rattle.am_law_serial.specs.Sound.{IsSound};
ghost use Rattle.am_law_serial.specs.Trace.{Trace};
ghost use Rattle.am_law_effect.specs.Store.{opened, IsRunOf};
ghost use Rattle.am_law_sound.specs.Represents.{Represents, RepresentsNext};
ghost use Rattle.am_law_sound.specs.Right.{IsMaintained, IsSoundStore};
ghost use Rattle.am_law_sound.specs.StateOf.{IsStateOf};
ghost use Rattle.am_law_sound.specs.StoreState.{Active, StoreState, MayAnswer, state_after, empty_state, IsFit};
ghost use Rattle.am_law_sound.specs.Tables.{TableLaws};

/// A list of entries that represents the machine's state goes on with it.
pub fn entries_represent()
    ensures opened { Represents start [] (λ _. []) (λ _. []) }
    ensures goes_on { (s : State) (es : List Entry) (notes : ℕ → List Note) (marks : ℕ → List ℕ) → OverlayLaws s →
        ViewLaws s →
        Represents s es notes marks → RepresentsNext s es notes marks }
{}

/// Every trace that the store of traces may make is sound at each moment, and these are the sound
/// traces whose merge and clean steps are right.
pub fn store_is_sound()
    ensures sound { (most_runs : ℕ) (before rest : Trace) → IsRunOf most_runs opened (before ++ rest) →
        IsSoundStore most_runs before }
    ensures exact { (most_runs : ℕ) (trace : Trace) →
        (IsSound most_runs trace × IsMaintained opened trace) ↔ IsRunOf most_runs opened trace }
{}

/// A step that is right of the store's state is right at its trace, and a trace that leads to a state is sound.
pub fn steps_lift()
    ensures opened { (most_runs : ℕ) → IsStateOf [] (empty_state most_runs) }
    ensures lift { (trace : Trace) (p : StoreState) (step : Step) (reply : Reply) → IsStateOf trace p →
        MayAnswer p step reply →
        IsStateOf (trace ++ (step, reply) ∷ []) (state_after p step reply) }
    ensures fit { (trace : Trace) (p : StoreState) → IsStateOf trace p → IsFit p }
    ensures sound { (trace : Trace) (p : StoreState) → IsStateOf trace p → IsSoundStore p.most_runs trace }
{}

/// What a table of locks answers of the active transactions is what a step owes.
pub fn tables_follow()
    ensures { (xs : List Active) → TableLaws xs }
{}
