//! A leaf: at most 32 entries over raw memory.

ghost use Rattle.std.specs.Prelude.{◌≡◌, ◌+◌, ◌<◌, ◌≤◌, ◌++◌, [], length, take, drop, IfOk, IfErr, OnOk, OnErr};
ghost use Rattle.std.specs.Prelude.{slice_index_or, MatchBool, true};
ghost use Rattle.std.specs.List.{insert, remove};
ghost use Rattle.am_record.specs.Limits.{max_value_bytes, max_key_bytes};
ghost use Rattle.am_record.specs.EntryOrder.{place_cmp, place_of};
ghost use Rattle.am_record.specs.declared.entry.Entry.{Entry};
ghost use Rattle.am_index.specs.Entries.{first_such, IsRising};
ghost use Rattle.am_index.specs.Places.{IsPlaceOf, IsGapFor};
ghost use Rattle.am_index.specs.Runs.{run_entries};
ghost use Rattle.am_index_leaf.specs.Changes.{set_at};
ghost use Rattle.am_index_leaf.specs.Ghosts.{has_ghost};
ghost use Rattle.am_index_leaf.specs.LeafCode.{SameRoom, Widened, WidensFor, Fits, IsNarrow, KeysFit, ValuesFit};
ghost use Rattle.am_index_leaf.specs.LeafCode.{ValuesHaveRoom};
ghost use Rattle.am_record.specs.OrderedKey.{bytes_of};

use crate::bits::{change_bit, has_bit, insert_bit, next_bit, remove_bit, split_bits};
use crate::longest::longest;
use crate::places::Places;
use crate::stretch::stretch;
use crate::values::Values;
use am_record::{Entry, Key, NoMemory, Value};
use std::alloc::Global;
use std::cmp::Ordering;
use std::marker::Model;

/// A leaf of a B-tree: at most 32 entries that rise by partition and then by key. The places of
/// the entries lie side by side, apart from their values, so that a search reads no value. The
/// bits that say which are ghosts are those of one word.
#[derive(Drop)]
pub struct RawLeaf {
    places: Places,
    values: Values,
    len: usize,
    ghosts: u32,
}

impl Model for RawLeaf {
    ghost use Rattle.am_index_leaf.specs.LeafCode.{Seen, seen_code};

    ghost Value = { Seen };

    ghost coded = { seen_code };

    ghost use Rattle.am_index_leaf.specs.Leaf.{seen, IsLeaf};

    ghost view = { seen };

    ghost invariant = { IsLeaf };
}

impl RawLeaf {
    /// A leaf with no entries, and room for keys and values of so many bytes.
    ///
    /// # Errors
    /// NoMemory, where memory was refused.
    pub fn new(alloc: Global, key_len: usize, value_len: usize) -> Result<RawLeaf, NoMemory>
        requires key { key_len ≤ max_key_bytes }
        requires value { value_len ≤ max_value_bytes }
        ensures empty { IfOk result (λ leaf. leaf.entries ≡ []) }
        ensures room { IfOk result (λ leaf. Fits leaf key_len value_len) }
        ensures narrow { IfOk result (λ leaf. IsNarrow leaf key_len value_len) }
    {
        Ok(RawLeaf {
            places: Places::new(alloc, key_len)?,
            values: Values::new(alloc, value_len)?,
            len: 0,
            ghosts: 0,
        })
    }

    // A leaf with no entries, and room for such keys and values as this one has room for.
    fn new_like(&self, alloc: Global) -> Result<RawLeaf, NoMemory>
        ensures entries { IfOk result (λ leaf. leaf.entries ≡ []) }
        ensures room { IfOk result (λ leaf. SameRoom leaf self.now) }
    {
        Ok(RawLeaf {
            places: self.places.new_like(alloc)?,
            values: self.values.new_like(alloc)?,
            len: 0,
            ghosts: 0,
        })
    }

    /// Gets room for keys and values of so many bytes.
    ///
    /// # Errors
    /// NoMemory, where memory was refused. There may be more room for keys then; the entries are as before.
    pub fn widen(&mut self, alloc: Global, key_len: usize, value_len: usize) -> Result<(), NoMemory>
        requires key { key_len ≤ max_key_bytes }
        requires value { value_len ≤ max_value_bytes }
        ensures widened { Widened self.new self.old }
        ensures needed { WidensFor self.new self.old key_len value_len }
        ensures ok { OnOk result (Fits self.new key_len value_len) }
        ensures full { OnErr result (¬ Fits self.old key_len value_len) }
    {
        if key_len > self.places.room() {
            self.places.widen(alloc, self.len)?;
        }
        if value_len > self.values.room() {
            self.values.widen(alloc, self.len)?;
        }
        Ok(())
    }

    /// Whether a key and a value of so many bytes have room, with no memory asked.
    pub fn fits(&self, key_len: usize, value_len: usize) -> bool
        ensures { MatchBool result (Fits self.now key_len value_len) (¬ Fits self.now key_len value_len) }
    {
        key_len <= self.places.room() && value_len <= self.values.room()
    }

    /// How many entries it holds.
    pub fn len(&self) -> usize
        ensures all { result ≡ length self.now.entries }
        ensures most { result ≤ 32 }
        ensures rising { IsRising self.now.entries }
        ensures room { ValuesHaveRoom self.now }
    {
        prove!(self.values.room() <= 64);
        self.len
    }

    /// The entry at the index.
    #[tactic(auto, using(crate::proofs::Leaves::counted))]
    pub fn get(&self, at: usize) -> Entry
        requires { at < length self.now.entries }
        ensures { result ≡ slice_index_or self.now.entries at result }
    {
        let (part, key) = self.places.get(at);
        Entry {
            part,
            key,
            value: self.values.get(at),
            is_ghost: has_bit(self.ghosts, at),
        }
    }

    /// The key and the value of the entry at the index.
    #[tactic(auto, using(crate::proofs::Leaves::counted))]
    pub fn record(&self, at: usize) -> (Key, Value)
        requires { at < length self.now.entries }
        ensures { (d : Entry) → result ≡ (
          (slice_index_or self.now.entries at d).key,
          (slice_index_or self.now.entries at d).value,
        ) }
    {
        let place = self.places.get(at);
        (place.1, self.values.get(at))
    }

    /// Whether one of its entries is a ghost.
    pub fn has_ghost(&self) -> bool
        ensures { result ≡ has_ghost self.now.entries }
    {
        self.ghosts != 0
    }

    /// The first ghost from the index on. The word of bits says where it is, so that no other entry is looked at.
    pub fn ghost_from(&self, at: usize) -> Option<Entry>
        requires { at ≤ length self.now.entries }
        ensures { result ≡ first_such (λ e. e.is_ghost) (drop at self.now.entries) }
    {
        let next = next_bit(self.ghosts, at)?;
        Some(self.get(next))
    }

    /// Where the entry at the index stands against a place. Its value is not read.
    #[tactic(auto, using(crate::proofs::Leaves::counted))]
    pub fn cmp_at(&self, at: usize, part: u32, key: Key) -> Ordering
        requires { at < length self.now.entries }
        ensures { (d : Entry) → result ≡ place_cmp (place_of (slice_index_or self.now.entries at d)) (part, key) }
    {
        let place = self.places.get(at);
        place.0.cmp(&part).then(place.1.cmp(&key))
    }

    /// The index of the entry of a partition and key, or else, as an error, the index where it
    /// would stand: the number of entries below.
    pub fn find(&self, part: u32, key: Key) -> Result<usize, usize>
        ensures found { IfOk result (IsPlaceOf self.now.entries part key) }
        ensures absent { IfErr result (IsGapFor self.now.entries part key) }
        ensures rising { IsRising self.now.entries }
    {
        let (mut low, mut high) = stretch(&self.places, self.len, part, &key);
        while low < high {
            let middle = low + (high - low) / 2;
            match self.cmp_at(middle, part, key) {
                Ordering::Less => low = middle + 1,
                Ordering::Equal => return Ok(middle),
                Ordering::Greater => high = middle,
            }
        }
        Err(low)
    }

    /// The same, where the index may be that one: it is looked at before.
    pub fn find_near(&self, near: usize, part: u32, key: Key) -> Result<usize, usize>
        ensures found { IfOk result (IsPlaceOf self.now.entries part key) }
        ensures absent { IfErr result (IsGapFor self.now.entries part key) }
        ensures rising { IsRising self.now.entries }
    {
        // Asked here, the entries are known to rise.
        prove!(self.len() <= 32);
        if self.stands_at(near, part, key) {
            return Ok(near);
        }
        if self.is_gap(near, part, key) {
            return Err(near);
        }
        self.find(part, key)
    }

    /// How many of its entries the entry of a partition and of a key with that front may stand behind, as far as the
    /// place of each eighth tells.
    pub fn pass_groups(&self, part: u32, front: u64) -> usize {
        self.places.pass_groups(self.len, part, front)
    }

    /// An index at which the entry of a partition and of a key with that front may stand, or would go, behind the
    /// entries that were passed. It may be wrong: eight places are looked at, and no key as a whole.
    pub fn guess(&self, passed: usize, part: u32, front: u64) -> usize {
        self.places.guess(passed, self.len, part, front)
    }

    // Whether the entry of the place stands at the index.
    fn stands_at(&self, at: usize, part: u32, key: Key) -> bool
        ensures { result ≡ true → IsPlaceOf self.now.entries part key at }
    {
        if at >= self.len() {
            return false;
        }
        let Ordering::Equal = self.cmp_at(at, part, key) else {
            return false;
        };
        true
    }

    // Whether the entries below the index, of which there are some, are below the place, and the others above it.
    fn is_gap(&self, at: usize, part: u32, key: Key) -> bool
        ensures { result ≡ true → IsGapFor self.now.entries part key at }
    {
        if at == 0 || at >= self.len() {
            return false;
        }
        let Ordering::Less = self.cmp_at(at - 1, part, key) else {
            return false;
        };
        let Ordering::Greater = self.cmp_at(at, part, key) else {
            return false;
        };
        true
    }

    /// Inserts an entry at the index; those from there on move up by one. The caller sees to it
    /// that there is room, and that the entry's place goes there.
    #[tactic(auto, using(crate::proofs::Leaves::counted, crate::proofs::Leaves::room_in_ghosts))]
    pub fn insert_at(&mut self, at: usize, entry: Entry)
        requires room { length self.old.entries < 32 }
        requires place { IsGapFor self.old.entries entry.part entry.key at }
        requires fits { Fits self.old (length (bytes_of entry.key)) (length entry.value) }
        ensures entries { self.new.entries ≡ insert self.old.entries at entry }
        ensures same_room { SameRoom self.new self.old }
    {
        self.places.insert(self.len, at, (entry.part, entry.key));
        self.values.insert(self.len, at, entry.value);
        self.ghosts = insert_bit(self.ghosts, at, entry.is_ghost);
        self.len += 1;
    }

    /// Puts records of one partition, all live, after the entries. The caller sees to it that they rise and that there
    /// is room for so many.
    ///
    /// # Errors
    /// NoMemory, where memory for longer keys or values was refused; the entries are as before.
    pub fn append(
        &mut self,
        alloc: Global,
        part: u32,
        pairs: &[(Key, Value)],
    ) -> Result<(), NoMemory>
        requires room { length self.old.entries + length pairs.now ≤ 32 }
        requires rising { IsRising (self.old.entries ++ run_entries part pairs.now) }
        ensures ok { OnOk result (self.new.entries ≡ self.old.entries ++ run_entries part pairs.now) }
        ensures key_room { self.old.key_room ≤ self.new.key_room }
        ensures value_room { self.old.value_room ≤ self.new.value_room }
        ensures key_needed { KeysFit pairs.now self.old.key_room → self.new.key_room ≡ self.old.key_room }
        ensures value_needed { ValuesFit pairs.now self.old.value_room → self.new.value_room ≡ self.old.value_room }
        ensures err { OnErr result (self.new.entries ≡ self.old.entries) }
    {
        let (key_len, value_len) = longest(pairs);
        self.widen(alloc, key_len, value_len)?;
        self.extend(part, pairs, key_len, value_len);
        Ok(())
    }

    // Puts records after the entries that all have room.
    fn extend(&mut self, part: u32, pairs: &[(Key, Value)], key_len: usize, value_len: usize)
        requires room { length self.old.entries + length pairs.now ≤ 32 }
        requires rising { IsRising (self.old.entries ++ run_entries part pairs.now) }
        requires fits { Fits self.old key_len value_len }
        requires keys { KeysFit pairs.now key_len }
        requires values { ValuesFit pairs.now value_len }
        ensures entries { self.new.entries ≡ self.old.entries ++ run_entries part pairs.now }
        ensures same_room { SameRoom self.new self.old }
    {
        self.places.extend(self.len, part, pairs, key_len);
        self.values.extend(self.len, part, pairs, value_len);
        self.len += pairs.len();
    }

    /// Whether the entry at the index is a ghost.
    #[tactic(auto, using(crate::proofs::Leaves::counted))]
    pub fn is_ghost(&self, at: usize) -> bool
        requires { at < length self.now.entries }
        ensures { (d : Entry) → result ≡ (slice_index_or self.now.entries at d).is_ghost }
    {
        has_bit(self.ghosts, at)
    }

    /// Writes over the value of the entry at the index, and whether it is a ghost.
    #[tactic(auto, using(crate::proofs::Leaves::counted))]
    pub fn set_at(&mut self, at: usize, value: Value, is_ghost: bool)
        requires in_range { at < length self.old.entries }
        requires fits { length value ≤ self.old.value_room }
        ensures entries { self.new.entries ≡ set_at self.old.entries at value is_ghost }
        ensures same_room { SameRoom self.new self.old }
    {
        self.values.set(at, value);
        self.ghosts = change_bit(self.ghosts, at, is_ghost);
    }

    /// Takes the entry at the index out; those above it move down by one.
    #[tactic(auto, using(crate::proofs::Leaves::counted))]
    pub fn remove_at(&mut self, at: usize) -> Entry
        requires { at < length self.old.entries }
        ensures entry { result ≡ slice_index_or self.old.entries at result }
        ensures others { self.new.entries ≡ remove self.old.entries at }
        ensures same_room { SameRoom self.new self.old }
    {
        let is_ghost = has_bit(self.ghosts, at);
        let (part, key) = self.places.remove(self.len, at);
        let value = self.values.remove(self.len, at);
        self.ghosts = remove_bit(self.ghosts, at);
        self.len -= 1;
        Entry {
            part,
            key,
            value,
            is_ghost,
        }
    }

    /// Moves the entries from the index on to a new leaf, which has room for such keys and values as this one.
    ///
    /// # Errors
    /// NoMemory, where memory was refused. The entries are as before then.
    pub fn split_off(&mut self, alloc: Global, at: usize) -> Result<RawLeaf, NoMemory>
        requires in_range { at ≤ length self.old.entries }
        ensures front { OnOk result (self.new.entries ≡ take at self.old.entries) }
        ensures back { IfOk result (λ upper. upper.entries ≡ drop at self.old.entries) }
        ensures same_room { SameRoom self.new self.old }
        ensures upper_room { IfOk result (λ upper. SameRoom upper self.old) }
        ensures err { OnErr result (self.new.entries ≡ self.old.entries) }
    {
        let mut upper = self.new_like(alloc)?;
        self.split_into(&mut upper, at);
        Ok(upper)
    }

    // Moves the entries from the index on to another leaf, which is empty.
    #[tactic(auto, using(crate::proofs::Leaves::counted))]
    fn split_into(&mut self, other: &mut RawLeaf, at: usize)
        requires in_range { at ≤ length self.old.entries }
        requires empty { other.old.entries ≡ [] }
        requires alike { SameRoom other.old self.old }
        ensures front { self.new.entries ≡ take at self.old.entries }
        ensures back { other.new.entries ≡ drop at self.old.entries }
        ensures same_room { SameRoom self.new self.old }
        ensures other_room { SameRoom other.new self.old }
    {
        self.places.split_into(self.len, &mut other.places, at);
        self.values.split_into(self.len, &mut other.values, at);
        (self.ghosts, other.ghosts) = split_bits(self.ghosts, at);
        other.len = self.len - at;
        self.len = at;
    }
}
