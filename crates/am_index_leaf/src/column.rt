//! The columns of a leaf: short elements until a longer one comes.

ghost use Rattle.std.specs.Prelude.{◌≡◌, ◌<◌, ◌≤◌, ◌+◌, ◌∷◌, ◌++◌, ◌⊎◌, [], length, map, take, drop};
ghost use Rattle.std.specs.Prelude.{IfOk, OnOk, OnErr, slice_index_or, slice_set};
ghost use Rattle.std.specs.List.{insert, remove, AllByRecursion};

use crate::block::Block;
use am_record::{Key, NoMemory, SHORT_LEN, Value};
use std::alloc::Global;
use std::marker::Model;

/// What stands in a column. Where it has at most 16 bytes, it has a short form.
pub(crate) trait Shortens: Copy {
    ghost use Rattle.std.specs.Prelude.{◌≡◌, ◌<◌, ◌≤◌, ◌*◌, ◌^◌, ℕ, List};
    ghost use Rattle.std.specs.Mem.{type_size};
    ghost use Rattle.am_record.specs.OrderedKey.{OrderedKey};

    /// The short form.
    type Short: Copy;

    /// The most bytes that an element has.
    const MOST: usize;

    ghost MOST: { ℕ };

    ghost byte_len: { Self → ℕ };

    ghost long: { Self.Short → Self };

    ghost of_record: { ℕ → OrderedKey × List ℕ → Self };

    /// How many bytes it has.
    fn byte_len(&self) -> usize
        ensures all { result ≡ byte_len self.now }
        ensures most { byte_len self.now ≤ MOST };

    /// Its short form.
    fn shortened(self) -> Self::Short
        requires { byte_len self ≤ 16 }
        ensures { long result ≡ self };

    /// The element of a short form.
    fn long(short: &Self::Short) -> Self
        ensures same { result ≡ long short.now }
        ensures short { byte_len result ≤ 16 };

    /// What the column has of a record of a partition.
    fn of_record(part: u32, pair: &(Key, Value)) -> Self
        ensures { result ≡ of_record part pair.now };

    // Some have no short form.
    ghost is_longer: { 16 < MOST };

    // Blocks of either form can be had.
    ghost short_fits: { 32 * type_size Self.Short.row < 2 ^ 63 };

    ghost wide_fits: { 32 * type_size Self.row < 2 ^ 63 };
}

/// At most 32 elements, seen with how many bytes each may have: 16 until room for more is got, and the most from then
/// on.
#[derive(Drop)]
pub(crate) struct Column<E: Shortens> {
    pub(crate) kind: Kind<E>,
}

#[derive(Drop)]
pub(crate) enum Kind<E: Shortens> {
    Short(Block<E::Short>),
    Wide(Block<E>),
}

impl<E: Shortens> Model for Column<E> {
    ghost use Rattle.am_index_leaf.specs.Columns.{ColumnOf, column_code};

    ghost Value = { ColumnOf E };

    ghost coded = { column_code E.code };

    ghost use Rattle.am_index_leaf.specs.Kinds.{column};

    ghost view = { λ c. column E.long E.MOST c.kind };
}

impl<E: Shortens> Column<E> {
    /// No elements, with room for such of so many bytes.
    pub(crate) fn new(alloc: Global, most: usize) -> Result<Column<E>, NoMemory>
        requires { most ≤ E.MOST }
        ensures empty { IfOk result (λ c. c.items ≡ []) }
        ensures room { IfOk result (λ c. most ≤ c.room) }
        ensures narrow { IfOk result (λ c. most ≤ 16 → c.room ≡ 16) }
    {
        let kind = if most <= SHORT_LEN {
            Kind::Short(Block::new(alloc)?)
        } else {
            Kind::Wide(Block::new(alloc)?)
        };
        Ok(Column { kind })
    }

    /// No elements, with room for such as these.
    pub(crate) fn new_like(&self, alloc: Global) -> Result<Column<E>, NoMemory>
        ensures { IfOk result (λ c. c ≡ record { items = []; room = self.now.room }) }
    {
        let kind = match &self.kind {
            Kind::Short(_) => Kind::Short(Block::new(alloc)?),
            Kind::Wide(_) => Kind::Wide(Block::new(alloc)?),
        };
        Ok(Column { kind })
    }

    /// How many bytes an element may have.
    pub(crate) fn room(&self) -> usize
        ensures all { result ≡ self.now.room }
        ensures kind { (self.now.room ≡ 16) ⊎ (self.now.room ≡ E.MOST) }
    {
        match &self.kind {
            Kind::Short(_) => SHORT_LEN,
            Kind::Wide(_) => E::MOST,
        }
    }

    /// The element at `at`.
    pub(crate) fn get(&self, at: usize) -> E
        requires { at < length self.now.items }
        ensures element { result ≡ slice_index_or self.now.items at result }
        ensures fits { E.byte_len result ≤ self.now.room }
    {
        match &self.kind {
            Kind::Short(shorts) => E::long(shorts.get(at)),
            Kind::Wide(elements) => {
                let element = *elements.get(at);
                // Asked for its length, it is known to have room.
                let _ = element.byte_len();
                element
            }
        }
    }

    /// Writes over the element at `at`.
    pub(crate) fn set(&mut self, at: usize, element: E)
        requires in_range { at < length self.old.items }
        requires fits { E.byte_len element ≤ self.old.room }
        ensures items { self.new.items ≡ slice_set self.old.items at element }
        ensures room { self.new.room ≡ self.old.room }
    {
        match &mut self.kind {
            Kind::Short(shorts) => shorts.set(at, element.shortened()),
            Kind::Wide(elements) => elements.set(at, element),
        }
    }

    /// Writes an element after the others.
    pub(crate) fn push(&mut self, len: usize, element: E)
        requires all { len ≡ length self.old.items }
        requires free { len < 32 }
        requires fits { E.byte_len element ≤ self.old.room }
        ensures items { self.new.items ≡ self.old.items ++ element ∷ [] }
        ensures room { self.new.room ≡ self.old.room }
    {
        match &mut self.kind {
            Kind::Short(shorts) => shorts.push(len, element.shortened()),
            Kind::Wide(elements) => elements.push(len, element),
        }
    }

    /// Writes what the column has of records after the others.
    pub(crate) fn extend(&mut self, len: usize, part: u32, pairs: &[(Key, Value)], most: usize)
        requires all { len ≡ length self.old.items }
        requires free { len + length pairs.now ≤ 32 }
        requires fits { most ≤ self.old.room }
        requires each { AllByRecursion (λ r. E.byte_len (E.of_record part r) ≤ most) pairs.now }
        ensures items { self.new.items ≡ self.old.items ++ map (E.of_record part) pairs.now }
        ensures room { self.new.room ≡ self.old.room }
    {
        match &mut self.kind {
            Kind::Short(shorts) => extend_short::<E>(shorts, len, part, pairs, most),
            Kind::Wide(elements) => extend_wide(elements, len, part, pairs),
        }
    }

    /// Moves the elements from `at` on up by one, and writes one there.
    pub(crate) fn insert(&mut self, len: usize, at: usize, element: E)
        requires all { len ≡ length self.old.items }
        requires free { len < 32 }
        requires in_range { at ≤ len }
        requires fits { E.byte_len element ≤ self.old.room }
        ensures items { self.new.items ≡ insert self.old.items at element }
        ensures room { self.new.room ≡ self.old.room }
    {
        match &mut self.kind {
            Kind::Short(shorts) => shorts.insert(len, at, element.shortened()),
            Kind::Wide(elements) => elements.insert(len, at, element),
        }
    }

    /// Reads the element at `at`, and moves those above it down by one.
    pub(crate) fn remove(&mut self, len: usize, at: usize) -> E
        requires all { len ≡ length self.old.items }
        requires in_range { at < len }
        ensures element { result ≡ slice_index_or self.old.items at result }
        ensures others { self.new.items ≡ remove self.old.items at }
        ensures room { self.new.room ≡ self.old.room }
    {
        match &mut self.kind {
            Kind::Short(shorts) => E::long(&shorts.remove(len, at)),
            Kind::Wide(elements) => elements.remove(len, at),
        }
    }

    /// Moves the elements from `at` on to another column, which has none and the same room.
    pub(crate) fn split_into(&mut self, len: usize, other: &mut Column<E>, at: usize)
        requires all { len ≡ length self.old.items }
        requires in_range { at ≤ len }
        requires empty { other.old.items ≡ [] }
        requires alike { other.old.room ≡ self.old.room }
        ensures front { self.new.items ≡ take at self.old.items }
        ensures back { other.new.items ≡ drop at self.old.items }
        ensures room { self.new.room ≡ self.old.room }
        ensures other_room { other.new.room ≡ other.old.room }
    {
        match &mut self.kind {
            Kind::Short(shorts) => match &mut other.kind {
                Kind::Short(others) => shorts.split_into(len, others, at),
                Kind::Wide(_) => unreachable!(),
            },
            Kind::Wide(elements) => match &mut other.kind {
                Kind::Wide(others) => elements.split_into(len, others, at),
                Kind::Short(_) => unreachable!(),
            },
        }
    }

    /// Gets room for the longest elements.
    ///
    /// # Errors
    /// NoMemory, where memory was refused; nothing is changed.
    pub(crate) fn widen(&mut self, alloc: Global, len: usize) -> Result<(), NoMemory>
        requires all { len ≡ length self.old.items }
        requires most { len ≤ 32 }
        ensures items { self.new.items ≡ self.old.items }
        ensures ok { OnOk result (self.new.room ≡ E.MOST) }
        ensures err { OnErr result (self.new.room ≡ self.old.room) }
    {
        if let Kind::Short(shorts) = &self.kind {
            let wide = widened::<E>(alloc, shorts, len)?;
            self.kind = Kind::Wide(wide);
        }
        Ok(())
    }
}

// The same elements in wide room.
fn widened<E: Shortens>(
    alloc: Global,
    shorts: &Block<E::Short>,
    len: usize,
) -> Result<Block<E>, NoMemory>
    requires all { len ≡ length shorts.now }
    requires most { len ≤ 32 }
    ensures { IfOk result (λ wide. wide ≡ map E.long shorts.now) }
{
    let mut wide = Block::new(alloc)?;
    for at in 0..len {
        wide.push(at, E::long(shorts.get(at)));
    }
    Ok(wide)
}

// Writes what the column has of records, all short, after the others.
fn extend_short<E: Shortens>(
    shorts: &mut Block<E::Short>,
    len: usize,
    part: u32,
    pairs: &[(Key, Value)],
    most: usize,
)
    requires all { len ≡ length shorts.old }
    requires free { len + length pairs.now ≤ 32 }
    requires short { most ≤ 16 }
    requires each { AllByRecursion (λ r. E.byte_len (E.of_record part r) ≤ most) pairs.now }
    ensures { map E.long shorts.new ≡ map E.long shorts.old ++ map (E.of_record part) pairs.now }
{
    for (at, pair) in pairs.iter().enumerate() {
        shorts.push(len + at, E::of_record(part, pair).shortened());
    }
}

// Writes what the column has of records after the others.
fn extend_wide<E: Shortens>(elements: &mut Block<E>, len: usize, part: u32, pairs: &[(Key, Value)])
    requires all { len ≡ length elements.old }
    requires free { len + length pairs.now ≤ 32 }
    ensures { elements.new ≡ elements.old ++ map (E.of_record part) pairs.now }
{
    for (at, pair) in pairs.iter().enumerate() {
        elements.push(len + at, E::of_record(part, pair));
    }
}
