//! The calls of a log: it is opened and closed, told of parts and floors, and tells of the entry that came last.

ghost use Rattle.std.specs.Prelude.{◌≡◌, ◌<◌, ◌-◌, ◌++◌, None, [], cond, not, nat_eq, ltb, length, drop};
ghost use Rattle.am_c_steps.specs.Statuses.{status_code};
ghost use Rattle.am_c_steps.specs.declared.status.Status.TheVariants.{BadLimit, NoStore};
ghost use Rattle.am_replica_log.specs.declared.event.Event.TheVariants.{Put, Moved};
ghost use Rattle.am_replica_log.specs.History.{first_behind};
ghost use Rattle.am_replica_reader.specs.Reading.{reader_at, of_log, TakesChange};
ghost use Rattle.am_c_replica.specs.LogCalls.{writer_given, name_given, part_given, floor_given};
ghost use Rattle.am_c_replica.specs.LogCalls.{log_fault_status, part_status, floor_status, log_status};
ghost use Rattle.am_c_replica.specs.LogCalls.{OpensLog, ReadsLog, TellsNumber, TellsOfLog, text_len, text_part};

use crate::log_handle::LogHandle;
use crate::replica::copy_part;
use am_c_steps::Status;
use am_replica_log::{Event, Floor, LogFault, Name, Part, Snapshot};
use am_replica_reader::{Came, Reader};
use std::alloc::Global;

/// `tvk_entry_name` of the header.
#[repr(C)]
#[derive(Clone, Copy)]
pub struct EntryName {
    pub writer_high: u64,
    pub writer_low: u64,
    pub number: u64,
}

/// Opens a log at its beginning behind a handle that has none.
#[unsafe(no_mangle)]
pub extern "C" fn tiuvrokk_log_open(alloc: Global, log: &mut LogHandle) -> u32
    ensures { OpensLog (reader_at (record { floor = 0; generation = 0; pieces = [] })) log.old.held result
        log.new.held }
{
    open(alloc, log, Reader::new(alloc))
}

/// Opens a log by the snapshot that a floor names. No snapshot has generation 0.
#[unsafe(no_mangle)]
pub extern "C" fn tiuvrokk_log_open_behind(
    alloc: Global,
    log: &mut LogHandle,
    since: u64,
    generation: u64,
) -> u32
    ensures opened { 0 < generation →
        OpensLog (reader_at (record { floor = since; generation = generation - 1; pieces = [] })) log.old.held result
        log.new.held }
    ensures refused { generation ≡ 0 → (result ≡ status_code BadLimit) × (log.new.held ≡ log.old.held) }
{
    if generation == 0 {
        return Status::BadLimit.code();
    }
    // (a reader doesn't ask who wrote the snapshot)
    open(
        alloc,
        log,
        Reader::behind(alloc, floor_given(since, generation, 0, 0)),
    )
}

fn open(alloc: Global, log: &mut LogHandle, reader: Reader) -> u32
    ensures { OpensLog reader log.old.held result log.new.held }
{
    if let Some(open) = log.take(alloc) {
        log.put(open);
        return Status::IsOpen.code();
    }
    match Box::new(alloc, reader) {
        Ok(new) => {
            log.put(new);
            Status::Fine.code()
        }
        Err(_) => Status::NoMemory.code(),
    }
}

/// Gives back all memory of the log, and leaves the handle without one.
#[unsafe(no_mangle)]
pub extern "C" fn tiuvrokk_log_close(alloc: Global, log: &mut LogHandle) -> u32
    ensures told { result ≡ status_code (log_status log.old.held) }
    ensures closed { log.new.held ≡ None }
{
    match log.take(alloc) {
        Some(open) => {
            drop(open);
            Status::Fine.code()
        }
        None => Status::NoStore.code(),
    }
}

/// Tells of a part of an entry that was put. Where it ends one that counts, the entry's text stands until the next
/// change, and its length goes out.
#[unsafe(no_mangle)]
pub extern "C" fn tiuvrokk_log_put(
    alloc: Global,
    log: &mut LogHandle,
    revision: u64,
    generation: u64,
    name: &EntryName,
    part: u64,
    is_new: u32,
    text: &[u8],
    told: &mut u64,
) -> u32
    ensures call { ReadsLog (TakesChange (record {
      revision = revision;
      event = Put generation (name_given name.now) (part_given part) (not (nat_eq is_new 0));
      text = text.now;
    })) part_status log.old.held result log.new.held }
    ensures len { told.new ≡ text_len log.new.held }
{
    let Some(mut reader) = log.take(alloc) else {
        return no_log(told);
    };
    let event = Event::Put(generation, name_given(name), part_given(part), is_new != 0);
    let ended = reader.take(revision, event, text);
    *told = reader.text().len() as u64;
    log.put(reader);
    part_status(ended).code()
}

/// Tells of a floor that moved. The last two words are those of the snapshot's writer.
#[unsafe(no_mangle)]
pub extern "C" fn tiuvrokk_log_move(
    alloc: Global,
    log: &mut LogHandle,
    revision: u64,
    since: u64,
    generation: u64,
    writer_high: u64,
    writer_low: u64,
) -> u32
    ensures { ReadsLog (TakesChange (record {
      revision = revision;
      event = Moved (floor_given since generation writer_high writer_low);
      text = [];
    })) floor_status log.old.held result log.new.held }
{
    let Some(mut reader) = log.take(alloc) else {
        return Status::NoStore.code();
    };
    let floor = floor_given(since, generation, writer_high, writer_low);
    let ended = reader.take(revision, Event::Moved(floor), &[]);
    log.put(reader);
    floor_status(ended).code()
}

/// Under which generation parts are put now.
#[unsafe(no_mangle)]
pub extern "C" fn tiuvrokk_log_generation(alloc: Global, log: &mut LogHandle, told: &mut u64) -> u32
    ensures number { TellsOfLog (of_log (λ l. l.generation)) log.old.held result told.new }
    ensures kept { log.new.held ≡ log.old.held }
{
    let Some(reader) = log.take(alloc) else {
        return no_log(told);
    };
    let number = reader.generation();
    log.put(reader);
    tell(number, told)
}

/// After which revision a reader has to begin by a snapshot that has all entries up to the given one.
#[unsafe(no_mangle)]
pub extern "C" fn tiuvrokk_log_first_behind(
    alloc: Global,
    log: &mut LogHandle,
    revision: u64,
    told: &mut u64,
) -> u32
    ensures number { TellsOfLog (of_log (λ l. first_behind revision l.pieces)) log.old.held result told.new }
    ensures kept { log.new.held ≡ log.old.held }
{
    let Some(reader) = log.take(alloc) else {
        return no_log(told);
    };
    let number = reader.first_behind(revision);
    log.put(reader);
    tell(number, told)
}

/// Whether a snapshot may be written by whoever knows all entries up to the given revision: 1 goes out, or 0.
#[unsafe(no_mangle)]
pub extern "C" fn tiuvrokk_log_may_be_left(
    alloc: Global,
    log: &mut LogHandle,
    revision: u64,
    told: &mut u64,
) -> u32
    ensures number { TellsOfLog (of_log (λ l. cond (ltb l.floor revision) 1 0)) log.old.held result told.new }
    ensures kept { log.new.held ≡ log.old.held }
{
    let Some(reader) = log.take(alloc) else {
        return no_log(told);
    };
    let may = reader.may_be_left(revision);
    log.put(reader);
    match may {
        Ok(true) => tell(Ok(1), told),
        Ok(false) => tell(Ok(0), told),
        Err(why) => tell(Err(why), told),
    }
}

/// Copies the text of the entry that came last from a place on, as many bytes as fit: how many these are goes out.
#[unsafe(no_mangle)]
pub extern "C" fn tiuvrokk_log_text(
    alloc: Global,
    log: &mut LogHandle,
    from: u64,
    out: &mut [u8],
    told: &mut u64,
) -> u32
    ensures status { result ≡ status_code (log_status log.old.held) }
    ensures len { told.new ≡ length (text_part log.old.held from (length out.old)) }
    ensures bytes { out.new ≡ text_part log.old.held from (length out.old) ++ drop told.new out.old }
    ensures kept { log.new.held ≡ log.old.held }
{
    let Some(reader) = log.take(alloc) else {
        return no_log(told);
    };
    *told = copy_part(reader.text(), from, out);
    log.put(reader);
    Status::Fine.code()
}

// There is no log, and so nothing to tell.
fn no_log(told: &mut u64) -> u32
    ensures status { result ≡ status_code NoStore }
    ensures none { told.new ≡ 0 }
{
    *told = 0;
    Status::NoStore.code()
}

fn writer_given(high: u64, low: u64) -> u128
    ensures { result ≡ writer_given high low }
{
    u128::from(high) * (1 << 64) + u128::from(low)
}

fn name_given(name: &EntryName) -> Name
    ensures { result ≡ name_given name.now }
{
    Name {
        writer: writer_given(name.writer_high, name.writer_low),
        number: name.number,
    }
}

fn part_given(part: u64) -> Part
    ensures { result ≡ part_given part }
{
    if part == u64::MAX {
        Part::Head
    } else {
        Part::Piece(part)
    }
}

fn floor_given(since: u64, generation: u64, high: u64, low: u64) -> Floor
    ensures { result ≡ floor_given since generation high low }
{
    Floor {
        since,
        snapshot: Snapshot {
            generation,
            writer: writer_given(high, low),
        },
    }
}

fn log_fault_status(why: LogFault) -> Status
    ensures { result ≡ log_fault_status why }
{
    match why {
        LogFault::NoMemory => Status::NoMemory,
        LogFault::WentBack => Status::WentBack,
    }
}

// The status of a part that came to this.
fn part_status(ended: Result<Came, LogFault>) -> Status
    ensures { result ≡ part_status ended }
{
    match ended {
        Ok(Came::Nothing) => Status::Absent,
        Ok(Came::Whole) => Status::Fine,
        Ok(Came::PartsMissing) => Status::PartsMissing,
        Err(why) => log_fault_status(why),
    }
}

// That of a floor.
fn floor_status(ended: Result<Came, LogFault>) -> Status
    ensures { result ≡ floor_status ended }
{
    match ended {
        Ok(_) => Status::Fine,
        Err(why) => log_fault_status(why),
    }
}

// Tells a number, unless the reader is over.
fn tell(number: Result<u64, LogFault>, told: &mut u64) -> u32
    ensures { TellsNumber number result told.new }
{
    match number {
        Ok(number) => {
            *told = number;
            Status::Fine.code()
        }
        Err(why) => {
            *told = 0;
            log_fault_status(why).code()
        }
    }
}
