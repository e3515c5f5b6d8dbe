//! Insert, Replace, Set and Delete. Each gets the room for its note first, and then that for its value.

ghost use Rattle.std.specs.Prelude.{◌≡◌, ◌+◌, ◌<◌, ◌||◌, ◌∷◌, length, None, Some, true, false, IfOk, OnErr, OnOk};
ghost use Rattle.std.specs.Prelude.{IsSome};
ghost use Rattle.std.specs.FinMap.{get};
ghost use Rattle.am_index.specs.Content.{content, OnePlace};
ghost use Rattle.am_index.specs.Entries.{find, insert_entry, set_entry};
ghost use Rattle.am_index.specs.Rooms.{HasRoom, HaveRoom, KeepRoom, needs_room, outgrows};
ghost use Rattle.am_index.specs.Runs.{live_entry};
ghost use Rattle.am_index_parts.specs.Partitions.{AreWellFormed, IsLiveEntry, LivesNowhereElse};
ghost use Rattle.am_law_effect.specs.Operations.{note_of_slot};
ghost use Rattle.am_law_effect.specs.Places.{put};
ghost use Rattle.am_store_operations.specs.Memory.{adds_fifth_note};
ghost use Rattle.am_store_operations.specs.OperationSteps.{IsDone, LeavesAlone, MayWantRoom};
ghost use Rattle.am_record.specs.declared.step.Op.TheVariants.{Insert, Replace, Set, Delete};

use crate::reads::find_live;
use am_index::{Hint, PartIndex};
use am_index_parts::{Parts, Vacancy};
use am_record::{Entry, Key, NoMemory, Reply, Value};
use am_store_undo::{Note, UndoLog};

/// A new record in the final partition, over a ghost that stands there.
#[inline(never)]
pub(crate) fn insert<I: PartIndex + Drop>(
    parts: &mut Parts<I>,
    log: &mut UndoLog,
    key: Key,
    value: Value,
) -> Result<Reply, NoMemory>
    requires { HaveRoom parts.old.entries parts.old.roomy }
    ensures done { IfOk result (λ reply. IsDone (Insert key value) reply parts.old log.old parts.new log.new) }
    ensures err { OnErr result (LeavesAlone parts.old log.old parts.new log.new) }
    ensures memory { OnErr result (MayWantRoom (Insert key value) parts.old.entries log.old) }
    ensures rooms { KeepRoom parts.old.roomy parts.new.roomy parts.new.entries }
{
    am_index::content_follows();
    let (vacancy, hint) = parts.vacancy(key, Hint::none());
    match vacancy {
        Vacancy::Taken(_) => return Ok(Reply::Exists(key)),
        Vacancy::Ghost(old) => make(parts, log, key, value, Some((old, true)), hint)?,
        Vacancy::Free => make(parts, log, key, value, None, hint)?,
    }
    Ok(Reply::Done)
}

/// Another value where the live entry of the key stands.
#[inline(never)]
pub(crate) fn replace<I: PartIndex + Drop>(
    parts: &mut Parts<I>,
    log: &mut UndoLog,
    key: Key,
    value: Value,
) -> Result<Reply, NoMemory>
    requires { HaveRoom parts.old.entries parts.old.roomy }
    ensures done { IfOk result (λ reply. IsDone (Replace key value) reply parts.old log.old parts.new log.new) }
    ensures err { OnErr result (LeavesAlone parts.old log.old parts.new log.new) }
    ensures memory { OnErr result (MayWantRoom (Replace key value) parts.old.entries log.old) }
    ensures rooms { KeepRoom parts.old.roomy parts.new.roomy parts.new.entries }
{
    let (found, hint) = find_live(parts, key, Hint::none());
    let Some(live) = found else {
        return Ok(Reply::Missing);
    };
    write_over(parts, log, &live, value, hint)?;
    Ok(Reply::Done)
}

/// A record with this value: where its key is live in place of the value, and else as a new one.
#[inline(never)]
pub(crate) fn set<I: PartIndex + Drop>(
    parts: &mut Parts<I>,
    log: &mut UndoLog,
    key: Key,
    value: Value,
) -> Result<Reply, NoMemory>
    requires { HaveRoom parts.old.entries parts.old.roomy }
    ensures done { IfOk result (λ reply. IsDone (Set key value) reply parts.old log.old parts.new log.new) }
    ensures err { OnErr result (LeavesAlone parts.old log.old parts.new log.new) }
    ensures memory { OnErr result (MayWantRoom (Set key value) parts.old.entries log.old) }
    ensures rooms { KeepRoom parts.old.roomy parts.new.roomy parts.new.entries }
{
    am_law_effect::edits_are_known();
    let (vacancy, hint) = parts.vacancy(key, Hint::none());
    match vacancy {
        Vacancy::Taken(live) => write_over(parts, log, &live, value, hint)?,
        Vacancy::Ghost(old) => make(parts, log, key, value, Some((old, true)), hint)?,
        Vacancy::Free => make(parts, log, key, value, None, hint)?,
    }
    Ok(Reply::Done)
}

/// Marks the live entry of the key as a ghost, which keeps its value.
#[inline(never)]
pub(crate) fn delete<I: PartIndex + Drop>(
    parts: &mut Parts<I>,
    log: &mut UndoLog,
    key: Key,
) -> Result<Reply, NoMemory>
    requires { HaveRoom parts.old.entries parts.old.roomy }
    ensures done { IfOk result (λ reply. IsDone (Delete key) reply parts.old log.old parts.new log.new) }
    ensures err { OnErr result (LeavesAlone parts.old log.old parts.new log.new) }
    ensures memory { OnErr result (MayWantRoom (Delete key) parts.old.entries log.old) }
    ensures rooms { KeepRoom parts.old.roomy parts.new.roomy parts.new.entries }
{
    let (found, hint) = find_live(parts, key, Hint::none());
    let Some(live) = found else {
        return Ok(Reply::Missing);
    };
    log.reserve_one()?;
    bury(parts, log, &live, hint);
    Ok(Reply::Done)
}

/// Marks a live entry as a ghost, which keeps its value, and notes it. The caller has the room for the note.
pub(crate) fn bury<I: PartIndex + Drop>(
    parts: &mut Parts<I>,
    log: &mut UndoLog,
    live: &Entry,
    hint: Hint,
)
    requires live { IsLiveEntry parts.old.entries live.now.key live.now }
    requires values { HaveRoom parts.old.entries parts.old.roomy }
    requires room { 0 < log.old.room }
    ensures entries { parts.new.entries ≡
        set_entry parts.old.entries live.now.part live.now.key live.now.value true }
    ensures notes { log.new.notes ≡
        Note.Before live.now.part live.now.key live.now.value live.now.is_ghost ∷ log.old.notes }
    ensures runs { parts.new.runs ≡ parts.old.runs }
    ensures marks { log.new.marks ≡ log.old.marks }
    ensures room { log.new.room + 1 ≡ log.old.room }
    ensures rooms { KeepRoom parts.old.roomy parts.new.roomy parts.new.entries }
{
    parts.set(live.part, live.key, live.value, true, hint);
    log.note(note_of(live));
}

// A record whose key is live nowhere, over what stands in the final partition.
fn make<I: PartIndex + Drop>(
    parts: &mut Parts<I>,
    log: &mut UndoLog,
    key: Key,
    value: Value,
    slot: Option<(Value, bool)>,
    hint: Hint,
) -> Result<(), NoMemory>
    requires sound { AreWellFormed parts.old.entries }
    requires slot { slot ≡ find parts.old.entries 0 key }
    requires dead { get (content parts.old.entries) key ≡ None }
    requires values { HaveRoom parts.old.entries parts.old.roomy }
    ensures entries { OnOk result (parts.new.entries ≡ put (live_entry 0 (key, value)) parts.old.entries) }
    ensures notes { OnOk result (log.new.notes ≡
        note_of_slot 0 key (find parts.old.entries 0 key) ∷ log.old.notes) }
    ensures runs { parts.new.runs ≡ parts.old.runs }
    ensures marks { log.new.marks ≡ log.old.marks }
    ensures err { OnErr result (LeavesAlone parts.old log.old parts.new log.new) }
    ensures memory { OnErr result
        ((needs_room (find parts.old.entries 0 key) value || adds_fifth_note log.old.notes) ≡ true) }
    ensures rooms { KeepRoom parts.old.roomy parts.new.roomy parts.new.entries }
{
    am_index::content_follows();
    let Some((old, is_ghost)) = slot else {
        return add(parts, log, key, value, hint);
    };
    let entry = Entry {
        part: 0,
        key,
        value: old,
        is_ghost,
    };
    write_over(parts, log, &entry, value, hint)
}

// A record whose key is live nowhere, where the final partition has no entry of it.
fn add<I: PartIndex + Drop>(
    parts: &mut Parts<I>,
    log: &mut UndoLog,
    key: Key,
    value: Value,
    hint: Hint,
) -> Result<(), NoMemory>
    requires absent { find parts.old.entries 0 key ≡ None }
    requires dead { get (content parts.old.entries) key ≡ None }
    requires values { HaveRoom parts.old.entries parts.old.roomy }
    ensures entries { OnOk result (parts.new.entries ≡ insert_entry parts.old.entries (live_entry 0 (key, value))) }
    ensures notes { OnOk result (log.new.notes ≡ Note.New key ∷ log.old.notes) }
    ensures runs { parts.new.runs ≡ parts.old.runs }
    ensures marks { log.new.marks ≡ log.old.marks }
    ensures err { OnErr result (LeavesAlone parts.old log.old parts.new log.new) }
    ensures rooms { KeepRoom parts.old.roomy parts.new.roomy parts.new.entries }
{
    log.reserve_one()?;
    let entry = Entry {
        part: 0,
        key,
        value,
        is_ghost: false,
    };
    parts.add(entry, hint)?;
    log.note(Note::New(key));
    Ok(())
}

// A value in place of that of an entry, which then is live.
fn write_over<I: PartIndex + Drop>(
    parts: &mut Parts<I>,
    log: &mut UndoLog,
    entry: &Entry,
    value: Value,
    hint: Hint,
) -> Result<(), NoMemory>
    requires there { find parts.old.entries entry.now.part entry.now.key ≡
        Some (entry.now.value, entry.now.is_ghost) }
    requires alone { LivesNowhereElse parts.old.entries entry.now.part entry.now.key }
    requires values { HaveRoom parts.old.entries parts.old.roomy }
    ensures entries { OnOk result (parts.new.entries ≡
        set_entry parts.old.entries entry.now.part entry.now.key value false) }
    ensures notes { OnOk result (log.new.notes ≡
        Note.Before entry.now.part entry.now.key entry.now.value entry.now.is_ghost ∷ log.old.notes) }
    ensures runs { parts.new.runs ≡ parts.old.runs }
    ensures marks { log.new.marks ≡ log.old.marks }
    ensures err { OnErr result (LeavesAlone parts.old log.old parts.new log.new) }
    ensures memory { OnErr result ((outgrows value entry.now.value || adds_fifth_note log.old.notes) ≡ true) }
    ensures rooms { KeepRoom parts.old.roomy parts.new.roomy parts.new.entries }
{
    log.reserve_one()?;
    parts.make_room(entry.part, entry.key, value.len(), hint)?;
    overwrite(parts, log, entry, value, hint);
    Ok(())
}

/// The same where the room for the value and for the note is there.
pub(crate) fn overwrite<I: PartIndex + Drop>(
    parts: &mut Parts<I>,
    log: &mut UndoLog,
    entry: &Entry,
    value: Value,
    hint: Hint,
)
    requires there { IsSome (find parts.old.entries entry.now.part entry.now.key) }
    requires alone { LivesNowhereElse parts.old.entries entry.now.part entry.now.key }
    requires values { HasRoom parts.old.roomy entry.now.part entry.now.key (length value) }
    requires room { 0 < log.old.room }
    ensures entries { parts.new.entries ≡
        set_entry parts.old.entries entry.now.part entry.now.key value false }
    ensures notes { log.new.notes ≡
        Note.Before entry.now.part entry.now.key entry.now.value entry.now.is_ghost ∷ log.old.notes }
    ensures one_place { OnePlace parts.new.entries }
    ensures runs { parts.new.runs ≡ parts.old.runs }
    ensures marks { log.new.marks ≡ log.old.marks }
    ensures room { log.new.room + 1 ≡ log.old.room }
    ensures rooms { KeepRoom parts.old.roomy parts.new.roomy parts.new.entries }
{
    parts.set(entry.part, entry.key, value, false, hint);
    log.note(note_of(entry));
}

// What the entry is, before it is changed.
fn note_of(entry: &Entry) -> Note
    ensures { result ≡ Note.Before entry.now.part entry.now.key entry.now.value entry.now.is_ghost }
{
    Note::Before {
        part: entry.part,
        key: entry.key,
        value: entry.value,
        is_ghost: entry.is_ghost,
    }
}
