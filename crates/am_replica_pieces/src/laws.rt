//! What holds of every entry that is put in parts.

ghost use Rattle.std.specs.Prelude.{◌≡◌, ◌≤◌, ◌<◌, ◌+◌, ℕ, List, [], ◌∷◌, ◌++◌, false, Some, None, IfSome};
ghost use Rattle.std.specs.Prelude.{length};
ghost use Rattle.std.specs.List.{AllByRecursion};
ghost use Rattle.am_replica_log.specs.declared.event.Name.{Name};
ghost use Rattle.am_replica_log.specs.declared.event.Part.TheVariants.{Head};
ghost use Rattle.am_replica_log.specs.declared.pieces.Piece.{Piece};
ghost use Rattle.am_replica_log.specs.History.{Change, History, same, pieces_behind, counted_entries, shown};
ghost use Rattle.am_replica_log.specs.Readers.{counted_for};
ghost use Rattle.am_replica_log.specs.Writers.{AllKeepPremise};
ghost use Rattle.am_replica_pieces.specs.Cut.{before_head, bytes_at, first_parts};
ghost use Rattle.am_replica_pieces.specs.Turns.{AreParts, pieces_under};
ghost use Rattle.am_replica_pieces.specs.WriterState.{WriterState};
ghost use Rattle.am_replica_pieces.specs.Writing.{AreByWriters, IsOnWay};

/// The parts, up to the head and with it, are the text; no part has more than so many bytes.
pub fn parts_are_the_text()
    ensures whole { (most : ℕ) (text : List ℕ) → 0 < most → first_parts most text (before_head most text + 1) ≡ text }
    ensures few { (most : ℕ) (text : List ℕ) (number : ℕ) → length (bytes_at most text number) ≤ most }
{}

/// Each entry that counts has just the text that its writer handed over, whatever late puts, deletions and floors the
/// cluster takes; and so has each that a reader is told of who knows the log from its beginning, or from a snapshot on.
pub fn entries_are_handed_over()
    ensures entries { (most : ℕ) (texts : Name → List ℕ) (history : History) → 0 < most → AllKeepPremise history →
        AreParts most texts history → AllByRecursion (λ e. e.text ≡ Some (texts e.name)) (counted_entries history) }
    ensures told { (most : ℕ) (texts : Name → List ℕ) (change : Change) (history : History) → 0 < most →
        AllKeepPremise history → AreParts most texts (change ∷ history) →
        IfSome (counted_for 0 change history) (λ e. e.text ≡ Some (texts e.name)) }
{}

/// With an entry's head its pieces are let go, and no other entry's.
pub fn heads_let_go_of_their_own()
    ensures gone { (name : Name) (at : ℕ) (text : List ℕ) (pieces : List Piece) →
        pieces_under name (pieces_behind name Head at text pieces) ≡ [] }
    ensures others { (name other : Name) (at : ℕ) (text : List ℕ) (pieces : List Piece) → same other name ≡ false →
        pieces_under other (pieces_behind name Head at text pieces) ≡ pieces_under other pieces }
{}

/// An entry stays on its way, whatever is done in the cluster meanwhile, and where the log has nothing to tell. So what
/// was put may also be done late.
pub fn writers_stay_on_way()
    ensures later { (most : ℕ) (text : List ℕ) (w : WriterState) (more since read : History) →
        IsOnWay most text w since read → IsOnWay most text w (more ++ since) read }
    ensures untold { (most : ℕ) (text : List ℕ) (w : WriterState) (change : Change) (since read : History) →
        shown change read ≡ None → IsOnWay most text w (since ++ change ∷ []) read →
        IsOnWay most text w since (change ∷ read) }
{}

/// Where writers put each part, and floors, snapshots and deletions are as they may be, the history is one of which the
/// laws of the log speak.
pub fn writers_keep_to_the_premise()
    ensures { (most : ℕ) (texts : Name → List ℕ) (history : History) → AreByWriters most texts history →
        AllKeepPremise history × AreParts most texts history }
{}
