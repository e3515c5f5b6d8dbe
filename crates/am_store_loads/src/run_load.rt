//! Loading a run into the partitions.

ghost use Rattle.std.specs.Prelude.{◌≡◌, ◌≢◌, true};
ghost use Rattle.am_record.specs.Plain.{is_rising};
ghost use Rattle.am_index.specs.Rooms.{KeepRoom};
ghost use Rattle.am_index.specs.Runs.{NothingAbove};
ghost use Rattle.am_store_loads.specs.Loads.{load_due, IsAnswer, IsLoaded};

use crate::look::{first_live, least_in_final};
use am_index::{PartIndex, RecordSource};
use am_index_parts::Parts;
use am_record::{LAST_RUN, Refusal, Reply};

/// Makes the records of the source a new partition, all of them live in it, and counts it. The caller sees to it
/// that no entry stands above partition `runs()`, and that the records rise strictly, one or more.
///
/// Answers Refused(TooManyRuns) where 4,294,967,294 runs were made; else Exists with the least key of the
/// records that is live, where one is; else Done. Refused(NoMemory) comes in place of Done alone,
/// where memory was refused. All but Done leave entries and runs as they were.
#[inline(never)]
pub fn load<I: PartIndex + Drop, S: RecordSource>(parts: &mut Parts<I>, run: &S) -> Reply
    requires above { NothingAbove parts.old.runs parts.old.entries }
    requires rising { is_rising (S.records run.now) ≡ true }
    ensures answer { IsAnswer (load_due parts.old (S.records run.now)) result }
    ensures done { result ≡ Reply.Done → IsLoaded parts.old (S.records run.now) parts.new }
    ensures others { result ≢ Reply.Done →
        (parts.new.entries ≡ parts.old.entries) × (parts.new.runs ≡ parts.old.runs) }
    ensures rooms { KeepRoom parts.old.roomy parts.new.roomy parts.new.entries }
    ensures nothing_above { NothingAbove parts.new.runs parts.new.entries }
{
    if parts.runs() == LAST_RUN {
        return Reply::Refused(Refusal::TooManyRuns);
    }
    if least_in_final(parts, run).is_none() && parts.append_run(run).is_ok() {
        return Reply::Done;
    }
    match first_live(parts, run) {
        Some(key) => Reply::Exists(key),
        None => Reply::Refused(Refusal::NoMemory),
    }
}
