//! The directions in which a range is read.

ghost use Rattle.std.specs.Prelude.{◌≡◌, ◌<◌, ◌≤◌, ◌++◌, length, take, true, vec_capacity, OnOk, OnErr};
ghost use Rattle.am_record.specs.Interval.{within};
ghost use Rattle.am_index.specs.Content.{rows_in};
ghost use Rattle.am_store_scan.specs.Directions.{order_in, as_read, rest_of, BeginsAs};

use am_index::{Hint, PartIndex};
use am_index_parts::Parts;
use am_record::{Key, NoMemory, Range, Value};
use std::cmp::Ordering;

/// In which direction a cursor reads.
pub trait Direction {
    ghost use Rattle.std.specs.Prelude.{Bool};

    /// Whether it goes from the highest key down.
    ghost is_back: { Bool };

    /// How two keys that compare so stand to one another as they are read.
    fn order(order: Ordering) -> Ordering
        ensures { result ≡ order_in is_back order };

    /// The keys of a range that are read from one of them on.
    fn rest(range: Range, key: Key) -> Range
        requires { within range key ≡ true }
        ensures { result ≡ rest_of is_back range key };

    /// The key of a range with which it is begun.
    fn first_key(range: Range) -> Key;

    /// A range of that one's keys which is begun with the same one, and in which runs that stand apart have `max` live
    /// entries or more; the range itself, where they don't have so many.
    fn piece<I: PartIndex + Drop>(parts: &Parts<I>, range: Range, max: u64) -> Range
        ensures { BeginsAs is_back range result };

    /// Appends the live records of the partition in the range, as they are read, until there are `max` rows. The
    /// caller sees to it that there are no more than these. No memory is taken where there is room for `max` rows. The
    /// hint is for the key with which the range is begun.
    ///
    /// # Errors
    /// NoMemory, where memory was refused. Some rows may have been appended.
    fn copy_rows<I: PartIndex + Drop>(
        parts: &Parts<I>,
        part: u32,
        range: Range,
        max: u64,
        rows: &mut Vec<(Key, Value)>,
        hint: Hint,
    ) -> Result<(), NoMemory>
        requires { length rows.old.items ≤ max }
        ensures copied { OnOk result (rows.new.items ≡ take max
            (rows.old.items ++ as_read is_back (rows_in parts.now.entries part range))) }
        ensures room { vec_capacity rows.old ≤ vec_capacity rows.new }
        ensures full { OnErr result (vec_capacity rows.old < max) };
}

/// By rising key.
pub struct Forward;

/// From the highest key down.
pub struct Back;

impl Direction for Forward {
    ghost use Rattle.std.specs.Prelude.{false};

    ghost is_back = { false };

    fn order(order: Ordering) -> Ordering {
        order
    }

    fn rest(range: Range, key: Key) -> Range {
        let Some(rest) = Range::new(key, range.hi()) else {
            unreachable!()
        };
        rest
    }

    fn first_key(range: Range) -> Key {
        range.lo()
    }

    fn piece<I: PartIndex + Drop>(parts: &Parts<I>, range: Range, max: u64) -> Range {
        parts.first_piece(range, max)
    }

    fn copy_rows<I: PartIndex + Drop>(
        parts: &Parts<I>,
        part: u32,
        range: Range,
        max: u64,
        rows: &mut Vec<(Key, Value)>,
        hint: Hint,
    ) -> Result<(), NoMemory> {
        parts.copy_rows(part, range, max, rows, hint)
    }
}

impl Direction for Back {
    ghost use Rattle.std.specs.Prelude.{true};

    ghost is_back = { true };

    fn order(order: Ordering) -> Ordering {
        order.reverse()
    }

    fn rest(range: Range, key: Key) -> Range {
        let Some(rest) = Range::new(range.lo(), key) else {
            unreachable!()
        };
        rest
    }

    fn first_key(range: Range) -> Key {
        range.hi()
    }

    fn piece<I: PartIndex + Drop>(parts: &Parts<I>, range: Range, max: u64) -> Range {
        parts.last_piece(range, max)
    }

    fn copy_rows<I: PartIndex + Drop>(
        parts: &Parts<I>,
        part: u32,
        range: Range,
        max: u64,
        rows: &mut Vec<(Key, Value)>,
        hint: Hint,
    ) -> Result<(), NoMemory> {
        parts.copy_rows_back(part, range, max, rows, hint)
    }
}
