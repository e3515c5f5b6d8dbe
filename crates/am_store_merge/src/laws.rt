//! The law of who holds what, for the proofs of whoever keeps locks beside this. Its function does nothing.

ghost use Rattle.std.specs.Prelude.{◌≡◌, ℕ, List, Option};
ghost use Rattle.std.specs.Option.{option_to_list};
ghost use Rattle.am_record.specs.OrderedKey.{OrderedKey};
ghost use Rattle.am_store_locks.specs.OwnerLocks.{OwnerLocks};
ghost use Rattle.am_store_locks.specs.Table.{exclusive_holders, AreAllApart};
ghost use Rattle.am_law_effect.specs.MergeAnswers.{Holders};
ghost use Rattle.am_store_merge.specs.LockHolders.{holder_of};

/// A key's holder by a table of locks is the one owner with an exclusive lock on it, and whoever
/// names the same owners at every key speaks of the same holders.
pub fn holders_are_known()
    ensures one { (table : List OwnerLocks) (key : OrderedKey) → AreAllApart table →
        exclusive_holders table key ≡ option_to_list (holder_of table key) }
    ensures answered { (table : List OwnerLocks) (key : OrderedKey) (holder : Option ℕ) →
        exclusive_holders table key ≡ option_to_list holder → holder_of table key ≡ holder }
    ensures same { (table : List OwnerLocks) (held : Holders) → ((key : OrderedKey) → holder_of table key ≡ held key) →
        holder_of table ≡ held }
{}
