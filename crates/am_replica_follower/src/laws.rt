//! What holds of all followers.

ghost use Rattle.std.specs.Prelude.{◌≡◌, ◌∷◌, ◌++◌, ℕ, List, None};
ghost use Rattle.am_record.specs.declared.step.Reply.{Reply as TheReply};
ghost use Rattle.am_replica_log.specs.History.{History, Change, shown, revision_of};
ghost use Rattle.am_replica_log.specs.LogState.{LogState};
ghost use Rattle.am_replica.specs.Ordered.{Sum, Ordered};
ghost use Rattle.am_replica_follower.specs.Following.{Follows};
ghost use Rattle.am_replica_follower.specs.Joining.{Joins};

/// Followers that began with the same records, and were told of one history, have the same records and commits.
pub fn followers_agree()
    ensures { (digest : List TheReply → Sum) (start : Ordered) (history : History) (log other : LogState)
        (at at' : Ordered) → Follows digest start history log at → Follows digest start history other at' → at ≡ at' }
{}

/// A follower that began by a snapshot, and has read up to where it was taken, follows the log as one that read all. So
/// it stands where that one does, and from then on both take the same changes.
pub fn joined_followers_follow()
    ensures follows { (digest : List TheReply → Sum) (start : Ordered) (history : History) (log : LogState) (known : ℕ)
        (at : Ordered) → Joins digest start history history log known at → Follows digest start history log at }
    ensures known { (digest : List TheReply → Sum) (start : Ordered) (history : History) (log : LogState) (known : ℕ)
        (at : Ordered) → Joins digest start history history log known at → known ≡ revision_of history }
    ensures agree { (digest : List TheReply → Sum) (start : Ordered) (history : History) (log other : LogState)
        (known : ℕ) (at at' : Ordered) → Joins digest start history history log known at →
        Follows digest start history other at' → at ≡ at' }
{}

/// A change that no reader is told of leaves a follower where it stands: so each history is followed to its end.
pub fn unseen_changes_keep()
    ensures follows { (digest : List TheReply → Sum) (start : Ordered) (history : History) (change : Change)
        (log : LogState) (at : Ordered) → shown change history ≡ None → Follows digest start history log at →
        Follows digest start (change ∷ history) log at }
    ensures joins { (digest : List TheReply → Sum) (start : Ordered) (rest history : History) (change : Change)
        (log : LogState) (known : ℕ) (at : Ordered) → shown change history ≡ None →
        Joins digest start (rest ++ change ∷ history) history log known at →
        Joins digest start (rest ++ change ∷ history) (change ∷ history) log known at }
{}
