//! What holds of all texts.

ghost use Rattle.std.specs.Prelude.{◌≡◌, List};
ghost use Rattle.am_replica_entries.specs.Texts.{TheBlock, AreBlocks, entry_text};

/// No two entries have one text.
pub fn texts_are_apart()
    ensures { (a b : List TheBlock) → AreBlocks a → AreBlocks b → entry_text a ≡ entry_text b → a ≡ b }
{}
