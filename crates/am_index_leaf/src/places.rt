//! The places of a leaf, as a column.

ghost use Rattle.std.specs.Prelude.{◌≡◌, ◌<◌, ◌≤◌, nat_eq, nat_lt, length, drop, slice_index_or};
ghost use Rattle.std.specs.List.{count_by, prefix_len};
ghost use Rattle.am_record.specs.EntryOrder.{Place};
ghost use Rattle.am_index_leaf.specs.Fronts.{front_in_part, count_lower, count_alike};

use crate::block::Block;
use crate::column::{Column, Kind, Shortens};
use am_record::{Key, MAX_KEY_LEN, ShortKey, Value};

/// How many places make a group, of which the last is asked first.
const GROUP: usize = 8;

/// The places, the key of each of at most 32 bytes.
pub(crate) type Places = Column<(u32, Key)>;

impl Shortens for (u32, Key) {
    ghost use Rattle.std.specs.Prelude.{length};
    ghost use Rattle.std.proofs.Common.{arith};
    ghost use Rattle.am_record.specs.Limits.{max_key_bytes};
    ghost use Rattle.am_record.specs.OrderedKey.{bytes_of};

    type Short = (u32, ShortKey);

    const MOST: usize = MAX_KEY_LEN;

    ghost MOST = { max_key_bytes };

    ghost byte_len = { λ place. length (bytes_of place.1) };

    ghost long = { λ place. place };

    ghost of_record = { λ part pair. (part, pair.0) };

    fn byte_len(&self) -> usize {
        self.1.bytes().len()
    }

    fn shortened(self) -> (u32, ShortKey) {
        let Some(short) = self.1.short() else {
            unreachable!()
        };
        (self.0, short)
    }

    fn long(short: &(u32, ShortKey)) -> (u32, Key) {
        (short.0, short.1.key())
    }

    fn of_record(part: u32, pair: &(Key, Value)) -> (u32, Key) {
        (part, pair.0)
    }

    ghost is_longer = { omega arith };

    ghost short_fits = { omega arith };

    ghost wide_fits = { omega arith };
}

/// A place, of a short key or any.
trait Fronted: Copy {
    ghost use Rattle.std.specs.Prelude.{◌≡◌, ℕ};

    ghost front: { Self → ℕ × ℕ };

    /// Its partition, and the front of its key.
    fn front(&self) -> (u32, u64)
        ensures { result ≡ front self.now };
}

impl Fronted for (u32, Key) {
    ghost use Rattle.am_index_leaf.specs.Fronts.{front_in_part};

    ghost front = { front_in_part };

    fn front(&self) -> (u32, u64) {
        (self.0, self.1.front())
    }
}

impl Fronted for (u32, ShortKey) {
    ghost use Rattle.am_index_leaf.specs.Fronts.{front_in_part};

    ghost front = { front_in_part };

    fn front(&self) -> (u32, u64) {
        (self.0, self.1.front())
    }
}

impl Column<(u32, Key)> {
    /// The partition of the place at `at`, and the front of its key.
    pub(crate) fn front(&self, at: usize) -> (u32, u64)
        requires { at < length self.now.items }
        ensures { (d : Place) → result ≡ front_in_part (slice_index_or self.now.items at d) }
    {
        match &self.kind {
            Kind::Short(places) => places.get(at).front(),
            Kind::Wide(places) => places.get(at).front(),
        }
    }

    /// How many of the keys have a front below the one.
    pub(crate) fn count_lower(&self, len: usize, front: u64) -> usize
        requires { len ≡ length self.now.items }
        ensures { result ≡ count_lower front self.now.items }
    {
        match &self.kind {
            Kind::Short(places) => count_lower(places, len, front),
            Kind::Wide(places) => count_lower(places, len, front),
        }
    }

    /// How many places are below a partition and front, as far as the last place of each eight tells.
    pub(crate) fn pass_groups(&self, len: usize, part: u32, front: u64) -> usize
        requires all { len ≡ length self.now.items }
        requires most { len ≤ 32 }
    {
        match &self.kind {
            Kind::Short(places) => pass_groups(places, len, (part, front)),
            Kind::Wide(places) => pass_groups(places, len, (part, front)),
        }
    }

    /// Those that were passed, and how many of the next eight are below a partition and front.
    pub(crate) fn guess(&self, passed: usize, len: usize, part: u32, front: u64) -> usize
        requires all { len ≡ length self.now.items }
        requires most { len ≤ 32 }
    {
        match &self.kind {
            Kind::Short(places) => guess(places, passed, len, (part, front)),
            Kind::Wide(places) => guess(places, passed, len, (part, front)),
        }
    }

    /// How many of the keys from `at` on have just that front, up to the first that hasn't.
    pub(crate) fn count_alike(&self, at: usize, len: usize, front: u64) -> usize
        requires all { len ≡ length self.now.items }
        requires in_range { at ≤ len }
        ensures { result ≡ count_alike front (drop at self.now.items) }
    {
        match &self.kind {
            Kind::Short(places) => count_alike(places, at, len, front),
            Kind::Wide(places) => count_alike(places, at, len, front),
        }
    }
}

// How many of the keys have a front below the one. No step depends on what a comparison says, so the memory of all of
// them is asked for at once.
fn count_lower<P: Fronted>(places: &Block<P>, len: usize, front: u64) -> usize
    requires { len ≡ length places.now }
    ensures { result ≡ count_by (λ p. nat_lt (P.front p).1 front) places.now }
{
    let mut lower = 0;
    for at in 0..len {
        lower += usize::from(places.get(at).front().1 < front);
    }
    lower
}

// How many of the keys from `from` on have just that front, up to the first that hasn't.
fn count_alike<P: Fronted>(places: &Block<P>, from: usize, len: usize, front: u64) -> usize
    requires all { len ≡ length places.now }
    requires in_range { from ≤ len }
    ensures { result ≡ prefix_len (λ p. nat_eq (P.front p).1 front) (drop from places.now) }
{
    for at in from..len {
        if places.get(at).front().1 != front {
            return at - from;
        }
    }
    len - from
}

// How many of the places are below a partition and front, as far as the last of each eight tells. No step depends on
// what a comparison says.
fn pass_groups<P: Fronted>(places: &Block<P>, len: usize, sought: (u32, u64)) -> usize
    requires all { len ≡ length places.now }
    requires most { len ≤ 32 }
{
    let mut passed = 0;
    let mut end = GROUP;
    'group: while end <= len {
        if is_lower(places.get(end - 1).front(), sought) {
            passed = end;
        }
        end += GROUP;
    }
    passed
}

// Those that were passed, and how many of the next eight are below. No step depends on what a comparison says.
fn guess<P: Fronted>(places: &Block<P>, passed: usize, len: usize, sought: (u32, u64)) -> usize
    requires all { len ≡ length places.now }
    requires most { len ≤ 32 }
{
    let from = passed.min(len);
    let mut lower = from;
    for at in from..len.min(from + GROUP) {
        lower += usize::from(is_lower(places.get(at).front(), sought));
    }
    lower
}

// Whether a partition and front are below others.
fn is_lower(place: (u32, u64), other: (u32, u64)) -> bool {
    (place.0 < other.0) | (place.0 == other.0) & (place.1 < other.1)
}
