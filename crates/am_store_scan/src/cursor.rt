//! A cursor: the records of a range, over all partitions, one at a time.

ghost use Rattle.std.specs.Prelude.{◌≡◌, ◌≤◌, ◌++◌, IfOk, true, false, length, take, drop, slice_get};
ghost use Rattle.am_record.specs.Interval.{within};
ghost use Rattle.am_record.specs.Plain.{rows_where};
ghost use Rattle.am_index.specs.Content.{content};
ghost use Rattle.am_store_scan.specs.Cursors.{AreSources};
ghost use Rattle.am_store_scan.specs.Directions.{as_read};

use crate::direction::{Direction, Forward};
use crate::head::Head;
use crate::heads::{heads_of, keep_first, pop_first};
use am_index::{PartIndex, content_follows, rows_follow};
use am_index_parts::Parts;
use am_record::{Key, NoMemory, Range, Value};
use std::alloc::Global;
use std::collections::BinaryHeap;
use std::marker::Model;

// How many rows of a partition a cursor reads at once that doesn't know how many are asked for.
const ROWS_AT_ONCE: usize = 16;

/// A place in the records of a range, seen as the list of the records still to come. It merges the
/// partitions as runs are merged in an external sort: each has a head at its next record, and the
/// first of them has the next record of all.
pub struct Cursor<'a, I: PartIndex + Drop, D: Direction = Forward> {
    parts: &'a Parts<I>,
    range: Range,
    // The head that is read first, if a partition has a record left. It stands beside the heap, so that it moves
    // on in its place as long as it is the first.
    first: Option<Head<D>>,
    // Those of the other partitions that have a record left.
    others: BinaryHeap<Head<D>>,
}

// By hand: a crate above then need not prove once more how a cursor is dropped.
impl<'a, I: PartIndex + Drop, D: Direction> Drop for Cursor<'a, I, D> {
    fn drop(self) {
        let Cursor {
            parts: _,
            range: _,
            first,
            others,
        } = self;
        drop(first);
        drop(others);
    }
}

impl<'a, I: PartIndex + Drop, D: Direction> Model for Cursor<'a, I, D> {
    ghost use Rattle.std.specs.List.{cons_option};
    ghost use Rattle.std.specs.BinaryHeap.{heap_items};
    ghost use Rattle.am_record.specs.Records.{Records, records_code};
    ghost use Rattle.am_index.specs.Content.{content};

    ghost Value = { Records };

    ghost coded = { records_code };

    ghost use Rattle.am_store_scan.specs.Cursors.{rows_ahead, IsCursor};

    ghost view = { λ c. rows_ahead D.is_back (cons_option c.first (heap_items c.others)) c.range
        (content c.parts.now.entries) };

    ghost invariant = { λ c. IsCursor D.is_back c.parts.now.entries c.range c.first (heap_items c.others) };
}

impl<'a, I: PartIndex + Drop> Cursor<'a, I> {
    /// A cursor before the first record of the range.
    ///
    /// # Errors
    /// NoMemory, where memory was refused.
    pub fn open(alloc: Global, parts: &'a Parts<I>, range: Range) -> Result<Cursor<'a, I>, NoMemory>
        ensures { IfOk result (λ rows. rows ≡ rows_where (within range) (content parts.now.entries)) }
    {
        let sources = parts.parts_in(alloc, range)?;
        Cursor::open_for(alloc, parts, range, &sources, ROWS_AT_ONCE)
    }
}

impl<'a, I: PartIndex + Drop, D: Direction> Cursor<'a, I, D> {
    /// The same in any direction, over those partitions, each of which is asked for so many rows at once.
    ///
    /// # Errors
    /// NoMemory, where memory was refused.
    pub(crate) fn open_for(
        alloc: Global,
        parts: &'a Parts<I>,
        range: Range,
        sources: &[u32],
        rows_at_once: usize,
    ) -> Result<Cursor<'a, I, D>, NoMemory>
        requires rows { 2 ≤ rows_at_once }
        requires sources { AreSources parts.now.entries range sources.now }
        ensures { IfOk result (λ rows. rows ≡
            as_read D.is_back (rows_where (within range) (content parts.now.entries))) }
    {
        content_follows();
        let mut others = heads_of::<D, I>(alloc, parts, range, sources, rows_at_once)?;
        let first = pop_first(&mut others);
        Ok(Cursor {
            parts,
            range,
            first,
            others,
        })
    }

    /// The next record, if there is one. Takes no memory.
    pub fn next(&mut self) -> Option<(Key, Value)>
        ensures record { result ≡ slice_get self.old 0 }
        ensures rest { self.new ≡ drop 1 self.old }
    {
        content_follows();
        let Some(head) = &mut self.first else {
            return None;
        };
        let record = Some(head.record());
        if head.move_on(self.parts, self.range) {
            keep_first(head, &mut self.others);
        } else {
            self.first = pop_first(&mut self.others);
        }
        record
    }

    /// Appends the records still to come, until there are `max` rows, where all of them stand in one partition, and
    /// says whether they do. Else nothing is appended.
    ///
    /// # Errors
    /// NoMemory, where memory was refused. Some rows may have been appended.
    pub(crate) fn copy_rest(&self, max: u64, rows: &mut Vec<(Key, Value)>) -> Result<bool, NoMemory>
        requires { length rows.old.items ≤ max }
        ensures copied { IfOk result (λ copied. copied ≡ true →
            rows.new.items ≡ take max (rows.old.items ++ self.now)) }
        ensures same { IfOk result (λ copied. copied ≡ false → rows.new.items ≡ rows.old.items) }
    {
        content_follows();
        rows_follow();
        let Some(head) = &self.first else {
            return Ok(false);
        };
        if !self.others.is_empty() {
            return Ok(false);
        }
        let (part, rest) = head.rest(self.range);
        D::copy_rows(self.parts, part, rest, max, rows, head.hint())?;
        Ok(true)
    }
}
