//! Get, and the live entry of a key.

ghost use Rattle.std.specs.Prelude.{◌≡◌, Some, None, IfSome, IfNone};
ghost use Rattle.std.specs.FinMap.{get};
ghost use Rattle.am_record.specs.Plain.{found};
ghost use Rattle.am_index.specs.Content.{content};
ghost use Rattle.am_index_parts.specs.Partitions.{AreWellFormed, IsLiveEntry};
ghost use Rattle.am_law_effect.specs.Operations.{find_live};

use am_index::{Hint, PartIndex};
use am_index_parts::Parts;
use am_record::{Entry, Key, Reply};

/// The value under the key.
pub(crate) fn get<I: PartIndex + Drop>(parts: &Parts<I>, key: Key) -> Reply
    ensures { result ≡ found (get (content parts.now.entries) key) }
{
    match find_live(parts, key, Hint::none()).0 {
        Some(entry) => Reply::Found(entry.value),
        None => Reply::Absent,
    }
}

/// The entry that has the key live, and a hint for it.
pub(crate) fn find_live<I: PartIndex + Drop>(
    parts: &Parts<I>,
    key: Key,
    hint: Hint,
) -> (Option<Entry>, Hint)
    ensures found { result.0 ≡ find_live parts.now.entries key }
    ensures live { IfSome result.0 (λ e. IsLiveEntry parts.now.entries key e) }
    ensures dead { IfNone result.0 (get (content parts.now.entries) key ≡ None) }
    ensures sound { AreWellFormed parts.now.entries }
{
    am_law_effect::edits_are_known();
    parts.live_entry(key, hint)
}
