//! What holds of all texts.

ghost use Rattle.std.specs.Prelude.{◌≡◌, ℕ, List};
ghost use Rattle.am_record.specs.declared.step.Reply.{Reply as TheReply};
ghost use Rattle.am_replica.specs.Ordered.{Sum, Ordered, outcomes, after_blocks};
ghost use Rattle.am_replica.specs.declared.block.Block.{Block as TheBlock};
ghost use Rattle.am_replica_texts.specs.Entries.{IsEntryOf};

/// Whoever reads an entry's text, wherever its blocks lie in memory, tells the same of it and stands at the same place
/// after it: so replicas that took the same texts from the same records on agree.
pub fn texts_have_one_outcome()
    ensures told { (digest : List TheReply → Sum) (text : List ℕ) (a b : List TheBlock) (s : Ordered) →
        IsEntryOf digest text a → IsEntryOf digest text b → outcomes digest a s ≡ outcomes digest b s }
    ensures after { (digest : List TheReply → Sum) (text : List ℕ) (a b : List TheBlock) (s : Ordered) →
        IsEntryOf digest text a → IsEntryOf digest text b → after_blocks digest a s ≡ after_blocks digest b s }
{}
