//! Loads over a list.

ghost use Rattle.std.specs.Prelude.{◌≡◌, true, IfOk};
ghost use Rattle.am_record.specs.Plain.{is_rising};
ghost use Rattle.am_index.specs.Runs.{NothingAbove};

use crate::fault::{Fault, expect, expect_unchanged};
use am_index::{Listed, RecordSource};
use am_index_list::ListIndex;
use am_index_parts::Parts;
use am_record::{Entry, HashKey, Key, NoMemory, Records, Refusal, Reply, Value};
use am_store_loads::load;
use am_store_runs::{Cut, LoadFault, Run, cut_runs, cut_source};
use std::alloc::Global;

/// How many records make a run.
const RUN: usize = 25;

// What an outcome says, unless memory was refused.
fn settled<T>(outcome: Result<T, LoadFault>) -> Result<Option<T>, Fault> {
    match outcome {
        Ok(made) => Ok(Some(made)),
        Err(LoadFault::NoMemory) => Ok(None),
        Err(_) => Err(Fault::Differs),
    }
}

fn push_to<T: Drop>(list: &mut Vec<T>, item: T) -> Result<(), NoMemory> {
    list.push(item)?;
    Ok(())
}

// Forty records in no order, of which all keys begin alike, and every second one with the same eight bytes.
fn records_in_no_order(alloc: Global) -> Result<Vec<(Key, Value)>, Fault> {
    let mut records = Vec::new(alloc);
    for number in 0..40u8 {
        let at = number * 3 % 40;
        let name = [b'k', b'e', b'y', b's', b' ', b'a', b'r', at % 2, at];
        let key = Key::new(&name).ok_or(Fault::Differs)?;
        let value = Value::new(&[at]).ok_or(Fault::Differs)?;
        push_to(&mut records, (key, value))?;
    }
    Ok(records)
}

// The entry after this one.
fn behind(parts: &Parts<ListIndex>, entry: &Entry) -> Option<Entry> {
    if let Some(next) = parts.after(entry.part, entry.key) {
        return Some(next);
    }
    parts.next_any(entry.part.checked_add(1)?, Key::least())
}

// Whether the entry is this record of the run with that many before it.
fn is_of(entry: &Entry, before: usize, record: &(Key, Value)) -> bool {
    (entry.part as usize).checked_sub(1) == Some(before)
        && entry.key == record.0
        && entry.value == record.1
        && !entry.is_ghost
}

// Whether these are the runs, and their records all entries.
fn has_just(parts: &Parts<ListIndex>, runs: &[Run]) -> bool {
    let mut next = parts.next_any(0, Key::least());
    for (before, run) in runs.iter().enumerate() {
        for record in run.records() {
            let Some(entry) = next else {
                return false;
            };
            if !is_of(&entry, before, record) {
                return false;
            }
            next = behind(parts, &entry);
        }
    }
    next.is_none() && parts.runs() as usize == runs.len()
}

// Loads a run of these records, which rise. What is refused memory is loaded again.
fn load_run<S: RecordSource>(
    parts: &mut Parts<ListIndex>,
    records: &S,
    before: &[Run],
) -> Result<(), Fault>
    requires above { NothingAbove parts.old.runs parts.old.entries }
    requires rising { is_rising (S.records records.now) ≡ true }
    ensures { NothingAbove parts.new.runs parts.new.entries }
{
    let mut reply = load(parts, records);
    if reply == Reply::Refused(Refusal::NoMemory) {
        expect_unchanged(has_just(parts, before))?;
        reply = load(parts, records);
    }
    expect(reply == Reply::Done)
}

// A copy of the run that is next. Where memory is refused it is still to come.
fn next_run(alloc: Global, cut: &Cut<'_, Records>) -> Result<Run, Fault> {
    let run = cut.run().ok_or(Fault::Differs)?;
    if let Ok(copy) = run.to_run(alloc) {
        return Ok(copy);
    }
    Ok(run.to_run(alloc)?)
}

// A copy of the next run is put after those that came.
fn take_run(alloc: Global, cut: &mut Cut<'_, Records>, runs: &mut Vec<Run>) -> Result<(), Fault> {
    let run = next_run(alloc, cut)?;
    push_to(runs, run)?;
    cut.pass();
    Ok(())
}

// The records, cut into runs that are still to come.
fn cut_of(alloc: Global, records: &Records) -> Result<Cut<'_, Records>, Fault> {
    if let Some(cut) = settled(cut_source(alloc, records, RUN))? {
        return Ok(cut);
    }
    settled(cut_source(alloc, records, RUN))?.ok_or(Fault::NoMemory)
}

// The two runs of the records, as they are asked for one by one.
fn runs_of(alloc: Global, records: &Records) -> Result<Vec<Run>, Fault> {
    let mut cut = cut_of(alloc, records)?;
    let mut runs = Vec::new(alloc);
    take_run(alloc, &mut cut, &mut runs)?;
    take_run(alloc, &mut cut, &mut runs)?;
    expect(cut.run().is_none())?;
    Ok(runs)
}

// The same, all at once.
fn all_runs_of(alloc: Global, records: &[(Key, Value)]) -> Result<Vec<Run>, Fault> {
    if let Some(runs) = settled(cut_runs(alloc, records, RUN))? {
        return Ok(runs);
    }
    settled(cut_runs(alloc, records, RUN))?.ok_or(Fault::NoMemory)
}

// One run of all records.
fn run_of_all(alloc: Global, records: &[(Key, Value)]) -> Result<Run, Fault> {
    if let Some(run) = settled(Run::sorted(alloc, records))? {
        return Ok(run);
    }
    settled(Run::sorted(alloc, records))?.ok_or(Fault::NoMemory)
}

// Two cuts of the same records are alike, and of two runs.
fn are_alike(runs: &[Run], again: &[Run]) -> Result<(), Fault> {
    expect(runs.len() == 2 && again.len() == 2)?;
    expect(runs[0].records() == again[0].records() && runs[1].records() == again[1].records())
}

// Loads the run of the cut that comes next, where it lies.
fn load_next(
    parts: &mut Parts<ListIndex>,
    cut: &mut Cut<'_, Records>,
    before: &[Run],
) -> Result<(), Fault>
    requires { NothingAbove parts.old.runs parts.old.entries }
    ensures { NothingAbove parts.new.runs parts.new.entries }
{
    let run = cut.run().ok_or(Fault::Differs)?;
    load_run(parts, &run, before)?;
    cut.pass();
    Ok(())
}

// Loads both runs of a cut.
fn load_in_turn(
    parts: &mut Parts<ListIndex>,
    cut: &mut Cut<'_, Records>,
    runs: &[Run],
) -> Result<(), Fault>
    requires { NothingAbove parts.old.runs parts.old.entries }
    ensures { NothingAbove parts.new.runs parts.new.entries }
{
    let [_, _] = runs else {
        return Err(Fault::Differs);
    };
    load_next(parts, cut, &[])?;
    load_next(parts, cut, &runs[..1])
}

// Loads both runs of the records into a list that has no entries.
fn load_both(alloc: Global, records: &Records, runs: &[Run]) -> Result<Parts<ListIndex>, Fault>
    ensures { IfOk result (λ parts. NothingAbove parts.runs parts.entries) }
{
    let mut parts = Parts::new(alloc, ListIndex::new(alloc), HashKey::known());
    let mut cut = cut_of(alloc, records)?;
    load_in_turn(&mut parts, &mut cut, runs)?;
    expect(has_just(&parts, runs))?;
    Ok(parts)
}

// A run of all records is refused, with memory or without, by the least of its keys.
fn refuses(parts: &mut Parts<ListIndex>, all: &Run) -> Result<(), Fault>
    requires { NothingAbove parts.old.runs parts.old.entries }
{
    expect(all.records().len() == 40)?;
    let records = all.records();
    expect(load(parts, &Listed { records }) == Reply::Exists(records[0].0))
}

// Cuts the records into the same runs at once, and loads these. Then a run of all records is refused.
fn load_runs(alloc: Global, records: &Records, runs: &[Run]) -> Result<(), Fault> {
    are_alike(runs, &all_runs_of(alloc, records.as_slice())?)?;
    let all = run_of_all(alloc, records.as_slice())?;
    let mut parts = load_both(alloc, records, runs)?;
    refuses(&mut parts, &all)?;
    expect(has_just(&parts, runs))
}

/// Records in no order are cut into two runs and loaded. Then a run of all of them is refused, with memory or without.
pub(crate) fn loads_of_a_list(alloc: Global) -> Result<(), Fault> {
    let records = Records::new(records_in_no_order(alloc)?);
    let runs = runs_of(alloc, &records)?;
    load_runs(alloc, &records, &runs)
}
