//! Clean steps.

ghost use Rattle.am_record.specs.Limits.{max_limit};
ghost use Rattle.std.specs.Prelude.{◌≡◌, ◌≤◌};
ghost use Rattle.am_index.specs.Content.{content};
ghost use Rattle.am_index.specs.Entries.{first_such};
ghost use Rattle.am_index.specs.Rooms.{KeepRoom};
ghost use Rattle.am_law_effect.specs.MergeAnswers.{CleanRight, cleaned_by, all_worked_off};
ghost use Rattle.am_store_merge.specs.LockHolders.{holder_of};
ghost use Rattle.am_store_merge.specs.Steps.{is_cleanable, HasPassedNone};

use crate::walk::{first_ghost, is_free, place_after};
use am_index::PartIndex;
use am_index_parts::Parts;
use am_record::{Entry, Key, Range, Reply};
use am_store_locks::LockTable;

/// Takes away the first ghosts of the range, in any partition, that nobody has exclusively locked,
/// `limit` at most, and answers Cleaned with their number. The caller has a limit from 1 to 64. The
/// content is as before. Takes no memory.
#[inline(never)]
pub fn clean_step<I: PartIndex + Drop>(
    parts: &mut Parts<I>,
    locks: &LockTable,
    range: Range,
    limit: u64,
) -> Reply
    requires some { 1 ≤ limit }
    requires few { limit ≤ max_limit }
    ensures reply { CleanRight parts.old.entries (holder_of locks.now) range limit result }
    ensures entries { parts.new.entries ≡ all_worked_off
        (cleaned_by parts.old.entries (holder_of locks.now) range result) parts.old.entries }
    ensures runs { parts.new.runs ≡ parts.old.runs }
    ensures rooms { KeepRoom parts.old.roomy parts.new.roomy parts.new.entries }
    ensures content { content parts.new.entries ≡ content parts.old.entries }
{
    // Asked here, the entries are known to be sound, and each value to have its room.
    prove!(parts.runs() <= 4294967294);
    let mut from = (0, range.lo());
    for cleaned in 0..limit {
        let Some(entry) = first_cleanable(parts, locks, range, from) else {
            return Reply::Cleaned(cleaned);
        };
        parts.take(entry.part, entry.key);
        from = (entry.part, entry.key);
    }
    Reply::Cleaned(limit)
}

// The first ghost of the range, from the place on, that nobody has exclusively locked.
fn first_cleanable<I: PartIndex + Drop>(
    parts: &Parts<I>,
    locks: &LockTable,
    range: Range,
    mut from: (u32, Key),
) -> Option<Entry>
    requires { HasPassedNone parts.now.entries (holder_of locks.now) range from }
    ensures { result ≡ first_such (is_cleanable (holder_of locks.now) range) parts.now.entries }
{
    while let Some(entry) = first_ghost(parts, range, from) {
        if is_free(locks, entry.key) {
            return Some(entry);
        }
        from = place_after(parts, range, &entry)?;
    }
    None
}
