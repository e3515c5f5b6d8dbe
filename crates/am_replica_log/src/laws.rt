//! What holds of every history in which writers keep to their rules.

ghost use Rattle.std.specs.Prelude.{◌≡◌, ℕ, ◌<◌, ◌++◌, [], true, IfSome};
ghost use Rattle.std.specs.List.{IsDistinct};
ghost use Rattle.am_replica_log.specs.History.{History, counted_entries, same_entry, is_whole, revision_of, floor};
ghost use Rattle.am_replica_log.specs.History.{generation, open_pieces, first_behind};
ghost use Rattle.am_replica_log.specs.LogState.{LogState};
ghost use Rattle.am_replica_log.specs.Readers.{IsAt};
ghost use Rattle.am_replica_log.specs.Writers.{AllKeepPremise, snapshot_named};

/// Each entry counts once at most.
pub fn entries_count_once()
    ensures { (history : History) → AllKeepPremise history → IsDistinct same_entry (counted_entries history) }
{}

/// The cluster has all pieces of the snapshot that the floor names, whatever was deleted late and more than once.
pub fn named_snapshots_stay()
    ensures { (history : History) → AllKeepPremise history →
        IfSome (snapshot_named history) (λ s. is_whole s history ≡ true) }
{}

/// Where an entry followed the floor, whoever begins by a snapshot begins where that floor was known, and once it has
/// read up to where the snapshot was taken, it is where one that read all is.
pub fn snapshot_readers_follow()
    ensures begins { (read before : History) (revision : ℕ) →
        floor (read ++ before) < revision → revision_of before ≡ first_behind revision (open_pieces (read ++ before)) →
        IsAt (revision_of before)
        (record { floor = floor (read ++ before); generation = generation (read ++ before); pieces = [] }) before }
    ensures follows { (read before : History) (revision : ℕ) (log : LogState) →
        revision_of before ≡ first_behind revision (open_pieces (read ++ before)) →
        IsAt (revision_of before) log (read ++ before) → IsAt 0 log (read ++ before) }
{}
