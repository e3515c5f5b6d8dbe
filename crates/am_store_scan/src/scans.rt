//! A scan: the first records of a range, or the last ones from the highest key down, over all partitions of an index.

ghost use Rattle.std.specs.Prelude.{◌≡◌, ◌<◌, ◌≤◌, take, IfOk, IfSome};
ghost use Rattle.am_record.specs.Interval.{within};
ghost use Rattle.am_record.specs.Plain.{rows_where, scan_rows, scan_back_rows};
ghost use Rattle.am_index.specs.Content.{content, LivesInOne};
ghost use Rattle.am_index_parts.specs.Partitions.{AreWellFormed};
ghost use Rattle.am_store_scan.specs.Cursors.{AreSources};
ghost use Rattle.am_store_scan.specs.Directions.{as_read};

use crate::Cursor;
use crate::direction::{Back, Direction, Forward};
use am_index::{Hint, PartIndex, rows_follow};
use am_index_parts::Parts;
use am_record::{Key, NoMemory, Range, Value};
use std::alloc::Global;

// Room for so many rows is got before any are found.
const FIRST_ROOM: u64 = 128;

// The most rows of a partition that are read at once.
const MOST_AT_ONCE: u64 = 64;

// No more rows than so many are shared among partitions.
const MOST_WANTED: u64 = 1000;

/// The records of the range by rising key, the first `max` of them, whichever partitions they stand
/// in. Ghosts are no records.
///
/// # Errors
/// NoMemory, where memory was refused.
#[inline(never)]
pub fn scan<I: PartIndex + Drop>(
    alloc: Global,
    parts: &Parts<I>,
    range: Range,
    max: u64,
) -> Result<Vec<(Key, Value)>, NoMemory>
    ensures { IfOk result (λ rows. rows.items ≡ scan_rows range max (content parts.now.entries)) }
{
    read_rows::<Forward, I>(alloc, parts, range, max)
}

/// The records of the range from the highest key down, the first `max` of them, whichever partitions they stand
/// in. Ghosts are no records.
///
/// # Errors
/// NoMemory, where memory was refused.
#[inline(never)]
pub fn scan_back<I: PartIndex + Drop>(
    alloc: Global,
    parts: &Parts<I>,
    range: Range,
    max: u64,
) -> Result<Vec<(Key, Value)>, NoMemory>
    ensures { IfOk result (λ rows. rows.items ≡ scan_back_rows range max (content parts.now.entries)) }
{
    read_rows::<Back, I>(alloc, parts, range, max)
}

// The first `max` records of the range, as they are read in a direction. Where runs stand apart, those of a piece that
// has enough of them are read, and else of the whole.
fn read_rows<D: Direction, I: PartIndex + Drop>(
    alloc: Global,
    parts: &Parts<I>,
    range: Range,
    max: u64,
) -> Result<Vec<(Key, Value)>, NoMemory>
    ensures { IfOk result (λ rows. rows.items ≡
        take max (as_read D.is_back (rows_where (within range) (content parts.now.entries)))) }
{
    if let Some(part) = only_part(parts, range) {
        return copy_rows::<D, I>(alloc, parts, part, range, max);
    }
    let piece = D::piece(parts, range, max);
    let rows = read_piece::<D, I>(alloc, parts, piece, max)?;
    if rows.len() as u64 == max || piece == range {
        return Ok(rows);
    }
    read_piece::<D, I>(alloc, parts, range, max)
}

// The same of all partitions in which something may stand in the range.
fn read_piece<D: Direction, I: PartIndex + Drop>(
    alloc: Global,
    parts: &Parts<I>,
    range: Range,
    max: u64,
) -> Result<Vec<(Key, Value)>, NoMemory>
    ensures { IfOk result (λ rows. rows.items ≡
        take max (as_read D.is_back (rows_where (within range) (content parts.now.entries)))) }
{
    let sources = parts.parts_in(alloc, range)?;
    if sources.len() == 1 {
        return copy_rows::<D, I>(alloc, parts, sources[0], range, max);
    }
    merge_rows::<D, I>(alloc, parts, range, &sources, max)
}

// The same of one partition, where all of the range stands in it: copied from its leaves.
fn copy_rows<D: Direction, I: PartIndex + Drop>(
    alloc: Global,
    parts: &Parts<I>,
    part: u32,
    range: Range,
    max: u64,
) -> Result<Vec<(Key, Value)>, NoMemory>
    requires only { LivesInOne parts.now.entries part range }
    requires sound { AreWellFormed parts.now.entries }
    ensures { IfOk result (λ rows. rows.items ≡
        take max (as_read D.is_back (rows_where (within range) (content parts.now.entries)))) }
{
    rows_follow();
    let mut rows = Vec::new(alloc);
    D::copy_rows(parts, part, range, max, &mut rows, Hint::none())?;
    Ok(rows)
}

// The partition in which all of the range stands, as far as that is known without a look into the index.
fn only_part<I: PartIndex + Drop>(parts: &Parts<I>, range: Range) -> Option<u32>
    ensures only { IfSome result (λ part. LivesInOne parts.now.entries part range) }
    ensures sound { AreWellFormed parts.now.entries }
{
    let first_run = parts.first_run(range);
    let part = parts.next_part(0)?;
    let above = part.checked_add(1)?;
    if parts.next_part(above.max(first_run)).is_some() {
        return None;
    }
    Some(part)
}

// The same of several by a cursor, until one partition is left.
fn merge_rows<D: Direction, I: PartIndex + Drop>(
    alloc: Global,
    parts: &Parts<I>,
    range: Range,
    sources: &[u32],
    max: u64,
) -> Result<Vec<(Key, Value)>, NoMemory>
    requires { AreSources parts.now.entries range sources.now }
    ensures { IfOk result (λ rows. rows.items ≡
        take max (as_read D.is_back (rows_where (within range) (content parts.now.entries)))) }
{
    let rows_at_once = rows_at_once(sources.len(), max);
    let mut cursor = Cursor::<I, D>::open_for(alloc, parts, range, sources, rows_at_once)?;
    take_rows(alloc, &mut cursor, max)
}

// Takes the first records that are still to come, as many as are asked for.
fn take_rows<D: Direction, I: PartIndex + Drop>(
    alloc: Global,
    cursor: &mut Cursor<'_, I, D>,
    max: u64,
) -> Result<Vec<(Key, Value)>, NoMemory>
    ensures { IfOk result (λ rows. rows.items ≡ take max cursor.old) }
{
    let mut rows = Vec::new(alloc);
    rows.reserve(max.min(FIRST_ROOM) as usize)?;
    for _ in 0..max {
        if cursor.copy_rest(max, &mut rows)? {
            break;
        }
        let Some(row) = cursor.next() else {
            break;
        };
        rows.push(row)?;
    }
    Ok(rows)
}

// How many rows of each of so many partitions are to be read at once: a partition's share of those that are asked for,
// and some more, since the shares are not alike. To read on costs a descent of the tree, and a row that is read in vain
// its lines of memory.
fn rows_at_once(partitions: usize, max: u64) -> usize
    ensures { 2 ≤ result }
{
    let wanted = max.min(MOST_WANTED);
    let share = (wanted + wanted / 4) / (partitions as u64).max(1);
    let rows = (share + 2).min(wanted + 1);
    rows.min(MOST_AT_ONCE).max(2) as usize
}
