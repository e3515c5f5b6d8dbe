//! The head of a partition: the record at which a cursor stands in it, and those that were read after it.

ghost use Rattle.std.specs.Prelude.{◌≡◌, ◌<◌, ◌≤◌, ◌↔◌, true, false, length, take, IfOk, IfSome, IfNone, IsTrue};
ghost use Rattle.std.specs.Prelude.{vec_capacity};
ghost use Rattle.am_record.specs.Interval.{within};
ghost use Rattle.am_index.specs.Entries.{IsRising};
ghost use Rattle.am_index.specs.Content.{rows_in};
ghost use Rattle.am_store_scan.specs.Directions.{as_read, rest_of};

use crate::direction::Direction;
use am_index::{Hint, PartIndex, rows_follow};
use am_index_parts::Parts;
use am_record::{Key, NoMemory, Range, Value, fronts_follow_keys};
use std::alloc::Global;
use std::cmp::Ordering;
use std::marker::{Model, PhantomData};

/// Where a cursor stands in one partition, seen as the record there and those read after it. The head whose key is
/// read first is the greatest, so that a heap gives it first.
#[derive(Drop)]
pub(crate) struct Head<D: Direction> {
    part: u32,
    // The front of its key: nearly always it tells two heads apart, without a look at their rows.
    front: u64,
    // Records that follow one another in the partition, ghosts left out.
    rows: Vec<(Key, Value)>,
    // How many of them were passed: it stands at the one after these.
    passed: usize,
    // Nothing of the partition in the range follows them: they are fewer than there was room for.
    is_all: bool,
    // Where it began: mostly in the leaf in which it goes on, or near it.
    hint: Hint,
    direction: PhantomData<D>,
}

impl<D: Direction> Model for Head<D> {
    ghost use Rattle.std.specs.Prelude.{◌≡◌, ◌<◌, ◌≤◌, length, vec_capacity};
    ghost use Rattle.am_record.specs.KeyFront.{key_front};
    ghost use Rattle.am_store_scan.specs.Heads.{Stand, stand_code, stand_at, row_of};

    ghost Value = { Stand };

    ghost coded = { stand_code };

    ghost view = { λ h. stand_at h.part h.rows.items h.passed h.is_all };

    ghost invariant = { λ h. (h.passed < length h.rows.items) × (2 ≤ vec_capacity h.rows) ×
        (h.front ≡ key_front (row_of h.rows.items h.passed).0) };
}

impl<D: Direction> Head<D> {
    ghost use Rattle.am_store_scan.specs.Heads.{HasReadOn, HasReadSome, IsNextHead, IsFirstHead, HasNoNext};
    ghost use Rattle.am_store_scan.specs.Heads.{HasNoneLive};

    /// The head of a partition at its first record in the range, if there is one. It reads so many rows at once.
    ///
    /// # Errors
    /// NoMemory, where memory was refused.
    pub(crate) fn first<I: PartIndex + Drop>(
        alloc: Global,
        parts: &Parts<I>,
        range: Range,
        part: u32,
        room: usize,
        hint: Hint,
    ) -> Result<Option<Head<D>>, NoMemory>
        requires room { 2 ≤ room }
        requires rising { IsRising parts.now.entries }
        ensures some { IfOk result (λ first. IfSome first
            (λ head. IsFirstHead D.is_back parts.now.entries range part head)) }
        ensures none { IfOk result (λ first. IfNone first (HasNoneLive parts.now.entries range part)) }
        ensures all { IfOk result (λ first. IfSome first (λ head.
            IsTrue head.is_all ↔ length (as_read D.is_back (rows_in parts.now.entries part range)) < room)) }
    {
        rows_follow();
        let mut rows = Vec::with_capacity(alloc, room)?;
        let is_all = read_rows::<D, I>(parts, part, range, &mut rows, hint);
        if rows.is_empty() {
            return Ok(None);
        }
        Ok(Some(Head {
            part,
            front: rows[0].0.front(),
            rows,
            passed: 0,
            is_all,
            hint,
            direction: PhantomData,
        }))
    }

    // The key of the record at which it stands.
    fn key(&self) -> Key
        ensures { result ≡ self.now.key }
    {
        self.rows[self.passed].0
    }

    /// The record at which the head stands.
    pub(crate) fn record(&self) -> (Key, Value)
        ensures { result ≡ (self.now.key, self.now.value) }
    {
        self.rows[self.passed]
    }

    /// Where it began.
    pub(crate) fn hint(&self) -> Hint {
        self.hint
    }

    /// Its partition, and what is read of a range from its record on. The caller sees to it that its record is one of
    /// the range.
    pub(crate) fn rest(&self, range: Range) -> (u32, Range)
        requires { within range self.now.key ≡ true }
        ensures { result ≡ (self.now.part, rest_of D.is_back range self.now.key) }
    {
        (self.part, D::rest(range, self.key()))
    }

    /// Moves to the next record of the partition in the range, and says whether there is one. Takes no memory.
    pub(crate) fn move_on<I: PartIndex + Drop>(&mut self, parts: &Parts<I>, range: Range) -> bool
        requires reads { HasReadOn D.is_back parts.now.entries range self.old }
        requires inside { within range self.old.key ≡ true }
        requires rising { IsRising parts.now.entries }
        ensures moved { result ≡ true → IsNextHead D.is_back parts.now.entries range self.old self.new }
        ensures ended { result ≡ false → HasNoNext D.is_back parts.now.entries range self.old }
        ensures all { IsTrue self.old.is_all → IsTrue self.new.is_all }
    {
        rows_follow();
        self.look_ahead(parts, range);
        if self.passed + 1 >= self.rows.len() {
            return false;
        }
        self.passed += 1;
        self.front = self.rows[self.passed].0.front();
        true
    }

    // Reads on, where nothing was read after the record and something may follow it.
    fn look_ahead<I: PartIndex + Drop>(&mut self, parts: &Parts<I>, range: Range)
        requires reads { HasReadOn D.is_back parts.now.entries range self.old }
        requires inside { within range self.old.key ≡ true }
        ensures ready { HasReadSome D.is_back parts.now.entries range self.new }
        ensures part { self.new.part ≡ self.old.part }
        ensures key { self.new.key ≡ self.old.key }
        ensures same { IsTrue self.old.is_all → self.new ≡ self.old }
    {
        if self.is_all || self.passed + 1 < self.rows.len() {
            return;
        }
        let (part, rest) = self.rest(range);
        self.passed = 0;
        self.is_all = read_rows::<D, I>(parts, part, rest, &mut self.rows, self.hint);
    }
}

// Reads rows of a range, as many as there is room for, in place of what was read, and says whether they are all.
fn read_rows<D: Direction, I: PartIndex + Drop>(
    parts: &Parts<I>,
    part: u32,
    range: Range,
    rows: &mut Vec<(Key, Value)>,
    hint: Hint,
) -> bool
    ensures rows { rows.new.items ≡ take (vec_capacity rows.old)
        (as_read D.is_back (rows_in parts.now.entries part range)) }
    ensures room { vec_capacity rows.old ≤ vec_capacity rows.new }
    ensures all { IsTrue result ↔
        length (as_read D.is_back (rows_in parts.now.entries part range)) < vec_capacity rows.old }
{
    let room = rows.capacity();
    rows.clear();
    let Ok(()) = D::copy_rows(parts, part, range, room as u64, rows, hint) else {
        unreachable!()
    };
    rows.len() < room
}

impl<D: Direction> Ord for Head<D> {
    ghost use Rattle.std.specs.Prelude.{refl};
    ghost use Rattle.am_store_scan.specs.Heads.{head_cmp, head_cmp-total};

    ghost cmp = { head_cmp D.is_back };

    ghost total = { head_cmp-total D.is_back };

    ghost matches_partial_cmp = { λ a b. refl };

    ghost matches_eq = { λ a b. refl };

    fn cmp(&self, other: &Head<D>) -> Ordering {
        fronts_follow_keys();
        let order = match other.front.cmp(&self.front) {
            Ordering::Equal => other.key().cmp(&self.key()),
            order => order,
        };
        D::order(order)
    }
}

impl<D: Direction> PartialOrd for Head<D> {
    ghost use Rattle.std.specs.Prelude.{Some, refl};
    ghost use Rattle.std.specs.Cmp.{po};
    ghost use Rattle.am_store_scan.specs.Heads.{head_cmp, head_cmp-total};

    ghost partial_cmp = { λ a b. Some (head_cmp D.is_back a b) };

    ghost laws = { po (head_cmp-total D.is_back) (λ a b. refl) };

    fn partial_cmp(&self, other: &Head<D>) -> Option<Ordering> {
        Some(self.cmp(other))
    }
}

impl<D: Direction> PartialEq for Head<D> {
    ghost use Rattle.std.specs.Ordering.{eq_by_cmp};
    ghost use Rattle.std.specs.Cmp.{partial_equiv_from_equiv, eq_by_cmp_equiv};
    ghost use Rattle.am_store_scan.specs.Heads.{head_cmp, head_cmp-total};

    ghost eq = { eq_by_cmp (head_cmp D.is_back) };

    ghost laws = { partial_equiv_from_equiv (eq_by_cmp_equiv (head_cmp-total D.is_back)) };

    fn eq(&self, other: &Head<D>) -> bool {
        self.cmp(other).is_eq()
    }
}

impl<D: Direction> Eq for Head<D> {
    ghost use Rattle.std.specs.Cmp.{eq_by_cmp_equiv};
    ghost use Rattle.am_store_scan.specs.Heads.{head_cmp-total};

    ghost laws = { eq_by_cmp_equiv (head_cmp-total D.is_back) };
}
