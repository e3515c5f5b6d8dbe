//! Put. The records are parted into those whose keys are live and those that are new, and each live entry is found
//! once, sixteen side by side. Then all room is got, for notes and for values, the new ones become a run, and nothing
//! can fail any more.

ghost use Rattle.std.specs.Prelude.{◌≡◌, ◌+◌, ◌<◌, ◌≤◌, ◌++◌, ◌∷◌, [], cond, length, nat_lt, true, IfOk, OnErr, OnOk};
ghost use Rattle.std.specs.Prelude.{is_some};
ghost use Rattle.std.specs.List.{AllByRecursion, cons_option};
ghost use Rattle.std.specs.Option.{option_map};
ghost use Rattle.std.specs.FinMap.{is_sorted};
ghost use Rattle.am_record.specs.Limits.{last_run};
ghost use Rattle.am_record.specs.OrderedKey.{key_cmp};
ghost use Rattle.am_record.specs.Plain.{is_rising};
ghost use Rattle.am_index.specs.Content.{content};
ghost use Rattle.am_index.specs.Rooms.{HaveRoom, KeepRoom};
ghost use Rattle.am_index.specs.Runs.{NothingAbove, with_run};
ghost use Rattle.am_index_parts.specs.Partitions.{AreAllAbsent};
ghost use Rattle.am_law_effect.specs.Operations.{new_records, updates, updated, note_of_run, notes_of_updates};
ghost use Rattle.am_store_operations.specs.OperationSteps.{IsDone, LeavesAlone};
ghost use Rattle.am_store_operations.specs.Updates.{IsPlaced, HasRoomAtPlace};
ghost use Rattle.am_record.specs.declared.step.Op.TheVariants.{Put};

use crate::reads::find_live;
use crate::writes::overwrite;
use am_index::{Hint, Listed, PLACES_AT_ONCE, PartIndex};
use am_index_parts::Parts;
use am_record::{Entry, Key, NoMemory, Records, Reply, Value};
use am_store_loads::load;
use am_store_undo::{Note, UndoLog};
use std::alloc::Global;

// The records whose keys are live, by their entries, and those that are new.
#[derive(Drop)]
struct Parted {
    updates: Vec<(Entry, Value)>,
    // For the entries of the updates, one for each.
    hints: Vec<Hint>,
    fresh: Vec<(Key, Value)>,
}

impl Parted {
    // One pair more, by the live entry of its key and a hint for it.
    fn add(&mut self, live: Option<Entry>, hint: Hint, pair: (Key, Value)) -> Result<(), NoMemory>
        ensures updates { OnOk result (self.new.updates.items ≡
            self.old.updates.items ++ cons_option (option_map (λ e. (e, pair.1)) live) []) }
        ensures fresh { OnOk result (self.new.fresh.items ≡
            self.old.fresh.items ++ cond (is_some live) [] (pair ∷ [])) }
    {
        match live {
            Some(entry) => {
                self.updates.push((entry, pair.1))?;
                self.hints.push(hint)?;
            }
            None => self.fresh.push(pair)?,
        }
        Ok(())
    }
}

/// Gives each pair whose key is live its value there, and makes the others a new run, if there are any.
#[inline(never)]
pub(crate) fn put_records<I: PartIndex + Drop>(
    alloc: Global,
    parts: &mut Parts<I>,
    log: &mut UndoLog,
    records: &Records,
) -> Result<Reply, NoMemory>
    requires rising { is_rising records.now ≡ true }
    requires room { parts.old.runs < last_run }
    requires above { NothingAbove parts.old.runs parts.old.entries }
    requires values { HaveRoom parts.old.entries parts.old.roomy }
    ensures done { IfOk result (λ reply. IsDone (Put records.now) reply parts.old log.old parts.new log.new) }
    ensures err { OnErr result (LeavesAlone parts.old log.old parts.new log.new) }
    ensures rooms { KeepRoom parts.old.roomy parts.new.roomy parts.new.entries }
{
    // Read here, the entries are known to be sound.
    let _ = parts.runs();
    let Parted {
        updates,
        hints,
        fresh,
    } = part_records(alloc, parts, records.as_slice())?;
    log.reserve(updates.len() + 1)?;
    get_room(parts, updates.as_slice(), hints.as_slice())?;
    load_new(parts, log, fresh)?;
    overwrite_all(parts, log, updates.as_slice(), hints.as_slice());
    Ok(Reply::Done)
}

// Finds the live entry of each pair's key.
fn part_records<I: PartIndex + Drop>(
    alloc: Global,
    parts: &Parts<I>,
    records: &[(Key, Value)],
) -> Result<Parted, NoMemory>
    ensures updates { IfOk result (λ parted. parted.updates.items ≡ updates records.now parts.now.entries) }
    ensures fresh { IfOk result (λ parted. parted.fresh.items ≡ new_records records.now (content parts.now.entries)) }
{
    let mut parted = Parted {
        updates: Vec::new(alloc),
        hints: Vec::new(alloc),
        fresh: Vec::new(alloc),
    };
    let mut hints = [Hint::none(); PLACES_AT_ONCE];
    for (at, pair) in records.iter().enumerate() {
        if at % PLACES_AT_ONCE == 0 {
            hints = parts.hints(&records[at..]);
        }
        let (live, hint) = find_live(parts, pair.0, hints[at % PLACES_AT_ONCE]);
        parted.add(live, hint, *pair)?;
    }
    Ok(parted)
}

// Gets the room for each value at its place.
fn get_room<I: PartIndex + Drop>(
    parts: &mut Parts<I>,
    updates: &[(Entry, Value)],
    hints: &[Hint],
) -> Result<(), NoMemory>
    requires placed { AllByRecursion (IsPlaced parts.old.entries) updates.now }
    requires values { HaveRoom parts.old.entries parts.old.roomy }
    ensures ok { OnOk result (AllByRecursion (HasRoomAtPlace parts.new.entries parts.new.roomy) updates.now) }
    ensures entries { parts.new.entries ≡ parts.old.entries }
    ensures runs { parts.new.runs ≡ parts.old.runs }
    ensures rooms { KeepRoom parts.old.roomy parts.new.roomy parts.new.entries }
{
    for (at, update) in updates.iter().enumerate() {
        let entry = &update.0;
        parts.make_room(entry.part, entry.key, update.1.len(), hint_at(hints, at))?;
    }
    Ok(())
}

// The hint for the entry of the update at the index.
fn hint_at(hints: &[Hint], at: usize) -> Hint {
    match hints.get(at) {
        Some(hint) => *hint,
        None => Hint::none(),
    }
}

// Makes the records a run, where there are any. The caller has the room for a note.
fn load_new<I: PartIndex + Drop>(
    parts: &mut Parts<I>,
    log: &mut UndoLog,
    new: Vec<(Key, Value)>,
) -> Result<(), NoMemory>
    requires sorted { is_sorted key_cmp new.items ≡ true }
    requires dead { AreAllAbsent parts.old.entries new.items }
    requires room { parts.old.runs < last_run }
    requires above { NothingAbove parts.old.runs parts.old.entries }
    requires values { HaveRoom parts.old.entries parts.old.roomy }
    requires note { 0 < log.old.room }
    ensures entries { OnOk result (parts.new.entries ≡
        with_run (parts.old.runs + 1) new.items parts.old.entries) }
    ensures runs { OnOk result (parts.new.runs ≡ parts.old.runs + cond (nat_lt 0 (length new.items)) 1 0) }
    ensures notes { OnOk result (log.new.notes ≡ note_of_run (parts.old.runs + 1) new.items ++ log.old.notes) }
    ensures marks { log.new.marks ≡ log.old.marks }
    ensures room { log.old.room ≤ log.new.room + 1 }
    ensures err { OnErr result (LeavesAlone parts.old log.old parts.new log.new) }
    ensures rooms { KeepRoom parts.old.roomy parts.new.roomy parts.new.entries }
{
    if new.is_empty() {
        return Ok(());
    }
    let new = Listed { records: &new };
    if load(parts, &new) != Reply::Done {
        return Err(NoMemory);
    }
    log.note(Note::RunMade(parts.runs()));
    Ok(())
}

// Gives each live entry its value, one after another.
fn overwrite_all<I: PartIndex + Drop>(
    parts: &mut Parts<I>,
    log: &mut UndoLog,
    updates: &[(Entry, Value)],
    hints: &[Hint],
)
    requires placed { AllByRecursion (HasRoomAtPlace parts.old.entries parts.old.roomy) updates.now }
    requires values { HaveRoom parts.old.entries parts.old.roomy }
    requires room { length updates.now ≤ log.old.room }
    ensures entries { parts.new.entries ≡ updated updates.now parts.old.entries }
    ensures notes { log.new.notes ≡ notes_of_updates updates.now ++ log.old.notes }
    ensures runs { parts.new.runs ≡ parts.old.runs }
    ensures marks { log.new.marks ≡ log.old.marks }
    ensures rooms { KeepRoom parts.old.roomy parts.new.roomy parts.new.entries }
{
    // Read here, no key is known to be live in two places.
    let _ = parts.runs();
    for (at, update) in updates.iter().enumerate() {
        overwrite(parts, log, &update.0, update.1, hint_at(hints, at));
    }
}
